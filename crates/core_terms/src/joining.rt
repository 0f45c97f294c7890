// The union of two programs.
ghost use Rattle.std.specs.Prelude.{◌≡◌, ◌+◌, ◌^◌, ◌≤◌, ◌++◌, max, length, IfOk, OnOk};
ghost use Rattle.core_terms.specs.Weights.{plain_weight};
ghost use Rattle.core_terms.specs.Folding as fold;
ghost use Rattle.core_terms.specs.Unions as union_of;

use crate::copies::copy_form;
use crate::folding::and_form;
use crate::merging::{joined_start, merged_slots};
use crate::programs::{CProgram, CStmt};
use crate::trees::CForm;
use std::alloc::{AllocError, Global};
use unity_base::{Seq, Shared};

/// The union of two programs under a name: the first program's statements followed by the second's, both
/// initial conditions, and the start values of the first, then of the second for slots that the first
/// gives none.
///
/// An error says that memory was refused.
pub fn join_programs(
    alloc: Global,
    name: u32,
    f: &CProgram,
    g: &CProgram,
) -> Result<CProgram, AllocError>
    requires statements { length f.now.statements + length g.now.statements ≤ 4096 }
    requires weight { max (plain_weight f.now.initially) (plain_weight g.now.initially) ≤ 2 ^ 62 }
    ensures { IfOk result (λ h. h ≡ union_of.joined_programs name f.now g.now) }
{
    let shown = merged_slots(alloc, f.shown.as_slice(), g.shown.as_slice())?;
    let start = joined_start(alloc, f.start.as_slice(), g.start.as_slice())?;
    let statements = joined_statements(alloc, f.statements.as_slice(), g.statements.as_slice())?;
    let initially = joined_initially(alloc, &f.initially, &g.initially)?;
    Ok(CProgram {
        name,
        parts: Some((f.name, g.name)),
        shown,
        initially,
        start,
        statements,
    })
}

// That both formulas hold.
fn joined_initially(alloc: Global, f: &CForm, g: &CForm) -> Result<CForm, AllocError>
    requires { max (plain_weight f.now) (plain_weight g.now) ≤ 2 ^ 62 }
    ensures { IfOk result (λ h. h ≡ fold.and_form f.now g.now) }
{
    let first = copy_form(alloc, f)?;
    let second = copy_form(alloc, g)?;
    and_form(alloc, first, second)
}

fn joined_statements(
    alloc: Global,
    first: &[Shared<CStmt>],
    second: &[Shared<CStmt>],
) -> Result<Seq<Shared<CStmt>>, AllocError>
    ensures { IfOk result (λ all. all ≡ first.now ++ second.now) }
{
    let mut all = Seq::new(alloc);
    add_statements(alloc, &mut all, first)?;
    add_statements(alloc, &mut all, second)?;
    Ok(all)
}

fn add_statements(
    alloc: Global,
    all: &mut Seq<Shared<CStmt>>,
    from: &[Shared<CStmt>],
) -> Result<(), AllocError>
    ensures { OnOk result (all.new ≡ all.old ++ from.now) }
{
    for statement in from {
        all.push(statement.share()?)?;
    }
    Ok(())
}

/// Equal formulas, in order.
///
/// An error says that memory was refused.
pub fn copy_forms(alloc: Global, forms: &[CForm]) -> Result<Seq<CForm>, AllocError>
    ensures { IfOk result (λ copy. copy ≡ forms.now) }
{
    let mut copy = Seq::new(alloc);
    for form in forms {
        copy.push(copy_form(alloc, form)?)?;
    }
    Ok(copy)
}
