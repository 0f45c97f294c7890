// The invariants that a step uses.
ghost use Rattle.std.specs.Prelude.{◌≡◌, nat_eq, ◌&&◌};
ghost use Rattle.std.specs.List.{find};
ghost use Rattle.std.specs.Option.{option_copied};
ghost use Rattle.safety_rules.specs.from_rules_table.Walk as walk;
ghost use Rattle.rules_steps.specs.Using.{Uses, UsesOne, use_of};

use crate::kinds::is_invariant;
use case_tables::Code;
use core_terms::{CForm, CProgram, Ref, copy_form};
use fair_rounds::Record;
use safety_rules::RuleError;
use std::alloc::Global;
use unity_base::Seq;

/// The first record of a program's step, where there is one.
pub fn find_record(program: u32, step: u32, book: &[Record]) -> Option<&Record>
    ensures { option_copied result ≡ find (λ a. nat_eq a.program program && nat_eq a.name step) book.now }
{
    for record in book {
        if record.program == program && record.name == step {
            return Some(record);
        }
    }
    None
}

// Adds the predicate of an invariant of the program.
fn add_used(
    alloc: Global,
    program: u32,
    book: &[Record],
    r: &Ref,
    forms: &mut Seq<CForm>,
) -> Result<(), RuleError>
    ensures { UsesOne result forms.old forms.new (use_of program book.now r.now) }
{
    match find_record(r.program, r.step, book) {
        None => Err(RuleError::Fault(Code::NoSuchStep)),
        Some(record) => {
            if record.program != program {
                return Err(RuleError::Fault(Code::OtherProgram));
            }
            if !is_invariant(record.kind) || !r.args.is_empty() {
                return Err(RuleError::Fault(Code::NotInvariant));
            }
            forms.push(copy_form(alloc, &record.p)?)?;
            Ok(())
        }
    }
}

// The predicates of the invariants that `using` names, in order.
pub(crate) fn used(
    alloc: Global,
    program: &CProgram,
    book: &[Record],
    refs: &[Ref],
) -> Result<Seq<CForm>, RuleError>
    ensures { Uses result (walk.used program.now book.now refs.now) }
{
    let mut forms = Seq::new(alloc);
    for r in refs {
        add_used(alloc, program.name, book, r, &mut forms)?;
    }
    Ok(forms)
}
