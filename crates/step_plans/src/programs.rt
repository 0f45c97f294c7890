// The programs of a document, and what its steps see.
ghost use Rattle.std.specs.Prelude.{◌≡◌};
ghost use Rattle.std.specs.Option.{option_copied};
ghost use Rattle.core_terms.specs.Conditions.{IsCoreDocument};
ghost use Rattle.rules_steps.specs.Starts.{IsAround, document_seen, seen_of};
ghost use Rattle.safety_rules.specs.from_rules_table.Walk.{program_of};

use core_terms::{CDocument, CProgram};
use rules_steps::Around;

// The program with this name's number.
pub(crate) fn find_program(name: u32, programs: &[CProgram]) -> Option<&CProgram>
    ensures { option_copied result ≡ program_of programs.now name }
{
    for program in programs {
        if program.name == name {
            return Some(program);
        }
    }
    None
}

// What the steps of a document see.
pub(crate) fn around(doc: &CDocument) -> Around
    requires { IsCoreDocument doc.now }
    ensures fits { IsAround result }
    ensures seen { seen_of result ≡ document_seen doc.now }
{
    Around {
        version: doc.version,
        slots: doc.slots.as_slice(),
        programs: doc.programs.as_slice(),
    }
}
