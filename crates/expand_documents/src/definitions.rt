//! Definitions of always names.

ghost use Rattle.std.specs.Prelude.{◌∷◌, []};
ghost use Rattle.expand_rules.specs.Forming.{formed};
ghost use Rattle.names_rules.specs.Scope.{entries};
ghost use Rattle.expand_documents.specs.AlwaysNames.{AreSound, VariablesHaveSlots, Defines, MakesElement};
ghost use Rattle.expand_documents.specs.AlwaysNames.{definition_scope};

use crate::elements::element;
use expand_expressions::{AlwaysTable, Known, ValueTable, VariableTable, outside};
use expand_rules::Formed;
use names_rules::NameFault;
use std::alloc::Global;
use unity_syntax::Def;

// What a definition becomes, after these always names.
fn define<'a>(
    alloc: Global,
    d: &Def,
    variables: &VariableTable<'a>,
    values: &ValueTable<'a>,
    always: &AlwaysTable<'a>,
) -> Result<Formed, NameFault>
    requires variables { VariablesHaveSlots (entries variables.now) }
    requires always { AreSound (entries always.now) }
    ensures { MakesElement result (formed d.now.of
        (definition_scope (entries variables.now) (entries values.now) (entries always.now))) d.now.name.at }
{
    let known = Known {
        variables,
        values,
        always,
    };
    element(alloc, &d.of, &known, &outside(), d.name.at)
}

fn add_definition<'a>(
    alloc: Global,
    d: &'a Def,
    variables: &VariableTable<'a>,
    values: &ValueTable<'a>,
    always: &mut AlwaysTable<'a>,
) -> Result<(), NameFault>
    requires variables { VariablesHaveSlots (entries variables.now) }
    requires always { AreSound (entries always.old) }
    ensures { Defines result (definition_scope (entries variables.now) (entries values.now) (entries always.old))
        (entries always.new) (d.now ∷ []) }
{
    let formed = define(alloc, d, variables, values, &*always)?;
    match always.insert(d.name.text.as_slice(), formed) {
        Ok(_) => Ok(()),
        Err(_) => Err(NameFault::Memory),
    }
}

/// Adds what always names become, each with those before it. `Fault` exactly at the first fault of a
/// definition.
pub fn add_definitions<'a>(
    alloc: Global,
    ds: &'a [Def],
    variables: &VariableTable<'a>,
    values: &ValueTable<'a>,
    always: &mut AlwaysTable<'a>,
) -> Result<(), NameFault>
    requires variables { VariablesHaveSlots (entries variables.now) }
    requires always { AreSound (entries always.old) }
    ensures { Defines result (definition_scope (entries variables.now) (entries values.now) (entries always.old))
        (entries always.new) ds.now }
{
    for d in ds {
        add_definition(alloc, d, variables, values, always)?;
    }
    Ok(())
}
