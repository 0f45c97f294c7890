// Records that have a step's name, program and parameters.
ghost use Rattle.std.specs.Prelude.{◌≡◌, ◌++◌, ◌∷◌, [], cond, IfOk, OnOk, Some};
ghost use Rattle.std.specs.List.{list_any};
ghost use Rattle.core_terms.specs.Trees.{same_form};
ghost use Rattle.rules_table.specs.Table as table;
ghost use Rattle.safety_rules.specs.Answers.{site_of};

use crate::places::Place;
use case_tables::Kind;
use core_terms::{Arg, CForm, Helper, Range, copy_form, owned_form, same};
use fair_rounds::Record;
use std::alloc::{AllocError, Global};
use unity_base::{Held, Seq, Shared};

/// What a rule claims: its kind, p and q, the formulas under which its premises stand, and the
/// statement that helps.
#[derive(Drop)]
pub struct Claim<'a> {
    pub kind: Kind,
    pub p: Shared<CForm>,
    pub q: Shared<CForm>,
    pub first: &'a [CForm],
    pub second: &'a [CForm],
    pub helper: Option<Helper>,
}

/// Whether two formulas are equal trees.
pub fn is_same(f: &CForm, g: &CForm) -> bool
    ensures { result ≡ same_form f.now g.now }
{
    same(f, g)
}

// Whether a formula is among these.
fn has(forms: &[CForm], f: &CForm) -> bool
    ensures { result ≡ list_any (same_form f.now) forms.now }
{
    for g in forms {
        if is_same(f, g) {
            return true;
        }
    }
    false
}

// Adds a copy of a formula that is not there yet.
fn add_once(alloc: Global, under: &mut Seq<CForm>, f: &CForm) -> Result<(), AllocError>
    ensures { OnOk result
        (under.new ≡ cond (list_any (same_form f.now) under.old) under.old (under.old ++ f.now ∷ [])) }
{
    if has(under.as_slice(), f) {
        return Ok(());
    }
    under.push(copy_form(alloc, f)?)
}

// Adds those of these formulas that are not there yet.
fn add_each(alloc: Global, under: &mut Seq<CForm>, forms: &[CForm]) -> Result<(), AllocError>
    ensures { OnOk result (under.new ≡ table.with_each under.old forms.now) }
{
    for f in forms {
        add_once(alloc, under, f)?;
    }
    Ok(())
}

// U, and then the premises' formulas, each once.
fn under_with(
    alloc: Global,
    pl: &Place,
    first: &[CForm],
    second: &[CForm],
) -> Result<Seq<CForm>, AllocError>
    ensures { IfOk result (λ under. under ≡ table.under_with (site_of pl.now) (first.now ++ second.now)) }
{
    let mut under = Seq::new(alloc);
    add_each(alloc, &mut under, pl.using)?;
    add_each(alloc, &mut under, first)?;
    add_each(alloc, &mut under, second)?;
    Ok(under)
}

// A copy of ranges.
pub(crate) fn copied_ranges(alloc: Global, ranges: &[Range]) -> Result<Seq<Range>, AllocError>
    ensures { IfOk result (λ copy. copy ≡ ranges.now) }
{
    let mut copy = Seq::new(alloc);
    for range in ranges {
        copy.push(*range)?;
    }
    Ok(copy)
}

// A copy of arguments.
fn copied_args(alloc: Global, args: &[Arg]) -> Result<Seq<Arg>, AllocError>
    ensures { IfOk result (λ copy. copy ≡ args.now) }
{
    let mut copy = Seq::new(alloc);
    for arg in args {
        copy.push(*arg)?;
    }
    Ok(copy)
}

/// A copy of a statement's name.
///
/// An error says that memory was refused.
pub fn copied_helper(alloc: Global, helper: &Option<Helper>) -> Result<Option<Helper>, AllocError>
    ensures { IfOk result (λ copy. copy ≡ helper.now) }
{
    match helper {
        None => Ok(None),
        Some(h) => Ok(Some(Helper {
            label: h.label,
            args: copied_args(alloc, h.args.as_slice())?,
        })),
    }
}

// A copy of the name of the statement that helps an ensures.
pub(crate) fn some_helper(alloc: Global, h: &Helper) -> Result<Option<Helper>, AllocError>
    ensures { IfOk result (λ copy. copy ≡ Some h.now) }
{
    Ok(Some(Helper {
        label: h.label,
        args: copied_args(alloc, h.args.as_slice())?,
    }))
}

// The record of a claim.
pub(crate) fn recorded(alloc: Global, pl: &Place, claim: Claim) -> Result<Held<Record>, AllocError>
    ensures { IfOk result (λ r. r ≡ table.record_of (site_of pl.now) claim.entry.kind claim.entry.p claim.entry.q
        (claim.entry.first.now ++ claim.entry.second.now) claim.entry.helper) }
{
    let Claim {
        kind,
        p,
        q,
        first,
        second,
        helper,
    } = claim;
    let under = under_with(alloc, pl, first, second)?;
    let params = copied_ranges(alloc, pl.params)?;
    Held::new(
        alloc,
        Record {
            name: pl.name,
            program: pl.program.name,
            kind,
            p: owned_form(alloc, p)?,
            q: owned_form(alloc, q)?,
            under,
            params,
            bound: 0,
            helper,
        },
    )
}
