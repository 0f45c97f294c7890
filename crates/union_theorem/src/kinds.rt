// Which records a union is of, and what they have in common.
ghost use Rattle.std.specs.Prelude.{◌≡◌, ◌&&◌, ◌||◌, Result, Err, MatchOption};
ghost use Rattle.case_tables.specs.declared.code_table.Code.{Code as TheCode};
ghost use Rattle.core_terms.specs.Trees.{same_form};
ghost use Rattle.core_terms.specs.declared.trees.CForm.TheVariants.{Bottom};
ghost use Rattle.safety_rules.specs.from_rules_table.Conclusion.{Conclusion};
ghost use Rattle.safety_rules.specs.from_rules_table.Table as table;
ghost use Rattle.safety_rules.specs.Answers.{site_of};

use case_tables::{Code, Kind};
use core_terms::{CForm, Helper};
use fair_rounds::Record;
use safety_rules::{Place, is_ensures, is_invariant, is_same, is_unless};

// Whether these are records of the two parts of the program, the first part's first.
pub(crate) fn is_part_pair(pl: &Place, a: &Record, b: &Record) -> bool
    ensures { result ≡ table.is_part_pair (site_of pl.now) a.now b.now }
{
    match pl.program.parts {
        None => false,
        Some((f, g)) => a.program == f && b.program == g,
    }
}

// The first condition of a union that fails: that these are records of the two parts, that their kinds are those of the
// rule, and that their formulas agree.
#[tactic(auto, using(crate::proofs::UnionRows::fault_laws))]
pub(crate) fn fault_of(pl: &Place, a: &Record, b: &Record, kinds: bool, agree: bool) -> Option<Code>
    ensures { (rest : Result Conclusion TheCode) → MatchOption result
        (table.needs (table.is_part_pair (site_of pl.now) a.now b.now) TheCode.OtherProgram
        (table.needs kinds TheCode.WrongKind (table.needs agree TheCode.MiddleDiffers rest)) ≡ rest)
        (λ code. table.needs (table.is_part_pair (site_of pl.now) a.now b.now) TheCode.OtherProgram
        (table.needs kinds TheCode.WrongKind (table.needs agree TheCode.MiddleDiffers rest)) ≡ Err code) }
{
    if !is_part_pair(pl, a, b) {
        Some(Code::OtherProgram)
    } else if !kinds {
        Some(Code::WrongKind)
    } else if !agree {
        Some(Code::MiddleDiffers)
    } else {
        None
    }
}

fn is_defined(kind: Kind) -> bool
    ensures { result ≡ table.claims_defined kind }
{
    matches!(kind, Kind::Defined)
}

pub(crate) fn are_defined(a: &Record, b: &Record) -> bool
    ensures { result ≡ (table.claims_defined a.now.kind && table.claims_defined b.now.kind) }
{
    is_defined(a.kind) && is_defined(b.kind)
}

// Whether one is an ensures and the other an unless.
pub(crate) fn is_ensured(a: &Record, b: &Record) -> bool
    ensures { result ≡ ((table.is_ensures a.now.kind && table.is_unless b.now.kind)
        || (table.is_unless a.now.kind && table.is_ensures b.now.kind)) }
{
    (is_ensures(a.kind) && is_unless(b.kind)) || (is_unless(a.kind) && is_ensures(b.kind))
}

// Whether one is an invariant and the other an unless.
pub(crate) fn is_kept(a: &Record, b: &Record) -> bool
    ensures { result ≡ ((table.is_invariant a.now.kind && table.is_unless b.now.kind)
        || (table.is_unless a.now.kind && table.is_invariant b.now.kind)) }
{
    (is_invariant(a.kind) && is_unless(b.kind)) || (is_unless(a.kind) && is_invariant(b.kind))
}

// Whether both have the same p and the same q.
pub(crate) fn are_alike(a: &Record, b: &Record) -> bool
    ensures { result ≡ (same_form a.now.p b.now.p && same_form a.now.q b.now.q) }
{
    is_same(&a.p, &b.p) && is_same(&a.q, &b.q)
}

// Whether both have the same p, and the unless of the two never ends.
pub(crate) fn are_stable(a: &Record, b: &Record) -> bool
    ensures { result ≡ (same_form a.now.p b.now.p && same_form (table.ending a.now b.now) Bottom) }
{
    is_same(&a.p, &b.p) && is_same(ending(a, b), &CForm::Bottom)
}

// The formula after which the unless of the two ends.
fn ending<'a>(a: &'a Record, b: &'a Record) -> &'a CForm
    ensures { result.now ≡ table.ending a.now b.now }
{
    if is_unless(a.kind) { &a.q } else { &b.q }
}

// The statement that helps, of the ensures of the two.
pub(crate) fn first_helper<'a>(a: &'a Record, b: &'a Record) -> &'a Option<Helper>
    ensures { result.now ≡ table.first_helper a.now b.now }
{
    if is_ensures(a.kind) {
        &a.helper
    } else {
        &b.helper
    }
}
