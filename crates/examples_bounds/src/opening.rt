// A program in which every state is a start.
ghost use Rattle.std.specs.Prelude.{◌≡◌, ℕ, List, [], IfOk, IsTrue};
ghost use Rattle.core_terms.specs.Conditions.{IsProgram, FormFits, is_shown, any_place};
ghost use Rattle.core_terms.specs.Places.{form_names_only};
ghost use Rattle.core_terms.specs.declared.trees.CForm.TheVariants.{Top};

use core_terms::{CForm, CProgram, CSlot, CStmt};
use std::alloc::{AllocError, Global};
use unity_base::{Seq, Shared};

// What each state meets.
fn any_state(slots: &[CSlot]) -> CForm
    ensures top { result ≡ Top }
    ensures fits { FormFits slots.now [] result }
    ensures shown { (shown : List ℕ) → IsTrue (form_names_only (is_shown shown) any_place result) }
{
    CForm::Top
}

/// The program with the same statements, in which every state is a start.
///
/// An error says that memory was refused.
pub(crate) fn open_program(
    alloc: Global,
    slots: &[CSlot],
    program: &CProgram,
) -> Result<CProgram, AllocError>
    requires { IsProgram slots.now program.now }
    ensures program { IfOk result (λ whole. IsProgram slots.now whole) }
    ensures statements { IfOk result (λ whole. whole.statements ≡ program.now.statements) }
    ensures initially { IfOk result (λ whole. whole.initially ≡ Top) }
{
    let statements = copied_statements(alloc, program.statements.as_slice())?;
    let shown = copied_slots(alloc, program.shown.as_slice())?;
    Ok(CProgram {
        name: program.name,
        parts: None,
        shown,
        initially: any_state(slots),
        start: Seq::new(alloc),
        statements,
    })
}

fn copied_statements(
    alloc: Global,
    statements: &[Shared<CStmt>],
) -> Result<Seq<Shared<CStmt>>, AllocError>
    ensures { IfOk result (λ copy. copy ≡ statements.now) }
{
    let mut copy = Seq::new(alloc);
    for statement in statements {
        copy.push(statement.share()?)?;
    }
    Ok(copy)
}

fn copied_slots(alloc: Global, slots: &[u32]) -> Result<Seq<u32>, AllocError>
    ensures { IfOk result (λ copy. copy ≡ slots.now) }
{
    let mut copy = Seq::new(alloc);
    for slot in slots {
        copy.push(*slot)?;
    }
    Ok(copy)
}
