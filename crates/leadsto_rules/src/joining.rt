// Lists of formulas, one after the other.
ghost use Rattle.std.specs.Prelude.{◌≡◌, ◌++◌, reverse, IfOk, OnOk};

use core_terms::CForm;
use std::alloc::{AllocError, Global};
use unity_base::Seq;

// The formulas in the opposite order.
fn turned(alloc: Global, forms: Seq<CForm>) -> Result<Seq<CForm>, AllocError>
    ensures { IfOk result (λ all. reverse all ≡ forms) }
{
    let mut left = forms;
    let mut all = Seq::new(alloc);
    'forms: while let Some(form) = left.pop() {
        all.push(form)?;
    }
    Ok(all)
}

// Adds formulas, which are given in the opposite order.
fn add_turned(forms: Seq<CForm>, all: &mut Seq<CForm>) -> Result<(), AllocError>
    ensures { OnOk result (all.new ≡ all.old ++ reverse forms) }
{
    let mut left = forms;
    'forms: while let Some(form) = left.pop() {
        all.push(form)?;
    }
    Ok(())
}

// The formulas of both lists. None is copied.
pub(crate) fn both_lists(
    alloc: Global,
    first: Seq<CForm>,
    second: Seq<CForm>,
) -> Result<Seq<CForm>, AllocError>
    ensures { IfOk result (λ all. all ≡ first ++ second) }
{
    let mut all = first;
    let second = turned(alloc, second)?;
    add_turned(second, &mut all)?;
    Ok(all)
}
