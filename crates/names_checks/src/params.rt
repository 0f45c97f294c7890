//! Parameters of steps.

ghost use Rattle.std.specs.Prelude.{◌≡◌, [], ◌∷◌, length};
ghost use Rattle.names_rules.specs.declared.named.Meaning.{Meaning};
ghost use Rattle.names_rules.specs.Scope.{entries};
ghost use Rattle.names_rules.specs.Reading.{beside, binding, filled};
ghost use Rattle.names_rules.specs.Part.{run};
ghost use Rattle.names_rules.specs.Declarations.{some_of};
ghost use Rattle.names_rules.specs.Proofs.{param_part, proof_scope};
ghost use Rattle.names_rules.specs.Answers.{Leaves, Notes};
ghost use Rattle.names_checks.specs.Counts.{EntersParam};

use crate::terms::bind_param;
use crate::words::Table;
use names_rules::{Known, NameFault, NameTable, ParamTable, outside};
use unity_base::Seq;
use unity_syntax::{Name, Param};

/// How many parameters there are.
pub fn param_count(params: &ParamTable) -> u64
    ensures { result ≡ length (entries params.now) }
{
    params.len() as u64
}

fn param_words<'x>(
    p: &Param,
    number: u64,
    names: &'x NameTable,
    params: &'x ParamTable,
    table: &mut Table,
) -> Result<(), NameFault>
    ensures { Notes result table.old table.new
        (beside (binding (proof_scope (entries names.now) (entries params.now)) p.now.name (Meaning.Param number))
        (filled [] p.now.range)) }
{
    let known = Known {
        names,
        params: Some(params),
        definitions: &[],
        defined: 0,
        program: None,
    };
    bind_param(&p.name, number, &p.range, &known, &outside(), table)
}

/// The parameters with one more.
fn enter_param<'a>(
    name: &'a Name,
    number: u64,
    params: &mut ParamTable<'a>,
) -> Result<(), NameFault>
    ensures { EntersParam result (entries params.old) (entries params.new) name.now number }
{
    match params.insert(name.text.as_slice(), number) {
        Ok(_) => Ok(()),
        Err(_) => Err(NameFault::Memory),
    }
}

fn param<'a>(
    p: &'a Param,
    names: &NameTable,
    params: &mut ParamTable<'a>,
    table: &mut Table,
) -> Result<(), NameFault>
    ensures { Leaves result table.old table.new (entries params.new)
        (param_part (entries names.now) (entries params.old) p.now) }
{
    let number = param_count(params);
    param_words(p, number, names, params, table)?;
    enter_param(&p.name, number, params)
}

fn further<'a>(
    ps: &'a [Param],
    names: &NameTable,
    params: &mut ParamTable<'a>,
    table: &mut Table,
) -> Result<(), NameFault>
    ensures { Leaves result table.old table.new (entries params.new)
        (run (param_part (entries names.now)) (entries params.old) ps.now) }
{
    for p in ps {
        param(p, names, params, table)?;
    }
    Ok(())
}

/// The parameters of a step.
pub fn params<'a>(
    ps: &'a Option<(Param, Seq<Param>)>,
    names: &NameTable,
    params: &mut ParamTable<'a>,
    table: &mut Table,
) -> Result<(), NameFault>
    ensures { Leaves result table.old table.new (entries params.new)
        (run (param_part (entries names.now)) (entries params.old) (some_of ps.now)) }
{
    match ps {
        None => Ok(()),
        Some((first, rest)) => {
            param(first, names, params, table)?;
            further(rest.as_slice(), names, params, table)
        }
    }
}
