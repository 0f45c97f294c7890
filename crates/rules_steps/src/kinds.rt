// Kinds of steps, and which rules give them.
ghost use Rattle.std.specs.Prelude.{◌≡◌, ◌||◌};
ghost use Rattle.core_terms.specs.declared.documents.PTerm.{out-PTerm};
ghost use Rattle.safety_rules.specs.from_rules_table.Further as further;
ghost use Rattle.safety_rules.specs.from_rules_table.Table as table;
ghost use Rattle.safety_rules.specs.from_rules_table.Walk as walk;

use case_tables::{Kind, RuleName};
use core_terms::{CRule, PTerm};
use fair_rounds::Record;
use safety_rules::{is_ensures, is_unless};
use superposition::is_carried;

pub(crate) fn is_defined(kind: Kind) -> bool
    ensures { result ≡ table.claims_defined kind }
{
    matches!(kind, Kind::Defined)
}

pub(crate) fn is_invariant(kind: Kind) -> bool
    ensures { result ≡ table.is_invariant kind }
{
    matches!(kind, Kind::Invariant)
}

fn is_leadsto(kind: Kind) -> bool
    ensures { result ≡ further.is_leadsto kind }
{
    matches!(kind, Kind::Leadsto)
}

fn is_until(kind: Kind) -> bool
    ensures { result ≡ walk.is_until kind }
{
    matches!(kind, Kind::Until)
}

fn is_detects(kind: Kind) -> bool
    ensures { result ≡ walk.is_detects kind }
{
    matches!(kind, Kind::Detects)
}

fn is_constant(kind: Kind) -> bool
    ensures { result ≡ walk.claims_constant kind }
{
    matches!(kind, Kind::Constant)
}

fn is_fixed(kind: Kind) -> bool
    ensures { result ≡ walk.claims_fixed kind }
{
    matches!(kind, Kind::Fixed)
}

// Whether two kinds are the same.
pub(crate) fn is_kind(kind: Kind, other: Kind) -> bool
    ensures { result ≡ walk.is_kind kind other }
{
    match kind {
        Kind::Defined => is_defined(other),
        Kind::Invariant => is_invariant(other),
        Kind::Unless => is_unless(other),
        Kind::Ensures => is_ensures(other),
        Kind::Leadsto => is_leadsto(other),
        Kind::Until => is_until(other),
        Kind::Detects => is_detects(other),
        Kind::Constant => is_constant(other),
        Kind::Fixed => is_fixed(other),
    }
}

// Whether a step of this kind may stand before the `defined` step.
fn is_first(kind: Kind) -> bool
    ensures { result ≡ walk.is_first kind }
{
    is_defined(kind) || is_invariant(kind)
}

/// Whether a `defined` step of the program is among these.
pub fn has_defined(program: u32, book: &[Record]) -> bool
    ensures { result ≡ walk.has_defined program book.now }
{
    for record in book {
        if record.program == program && is_defined(record.kind) {
            return true;
        }
    }
    false
}

// Whether a step may stand here: of this kind at first, or after the `defined` step.
pub(crate) fn may_stand(kind: Kind, program: u32, book: &[Record]) -> bool
    ensures { result ≡ (walk.is_first kind || walk.has_defined program book.now) }
{
    is_first(kind) || has_defined(program, book)
}

fn has_end(kind: Kind) -> bool
    ensures { result ≡ walk.has_end kind }
{
    is_unless(kind) || is_ensures(kind)
}

// Whether a pair rule may give this kind, in a document of this version.
fn suits_pair(version: u64, which: RuleName, kind: Kind) -> bool
    ensures { result ≡ walk.suits_pair version which kind }
{
    match which {
        RuleName::Conj => has_end(kind),
        RuleName::Simpleconj => is_unless(kind),
        RuleName::Disj => is_unless(kind),
        RuleName::Simpledisj => is_unless(kind),
        RuleName::Cancel => is_unless(kind) || (is_leadsto(kind) && version == 2),
        RuleName::Until => is_until(kind),
        RuleName::Detects => is_detects(kind),
        RuleName::Constant => is_constant(kind),
        _ => false,
    }
}

// The kinds of the two steps from which a pair rule gives a step of this kind.
pub(crate) fn pair_kinds(which: RuleName, kind: Kind) -> (Kind, Kind)
    ensures { result ≡ table.pair_kinds which kind }
{
    match which {
        RuleName::Cancel => (kind, kind),
        RuleName::Until => (Kind::Unless, Kind::Leadsto),
        RuleName::Detects => (Kind::Invariant, Kind::Leadsto),
        RuleName::Constant => (Kind::Unless, Kind::Unless),
        _ => (Kind::Unless, kind),
    }
}

// Whether a term may give this kind.
fn suits_term(t: &PTerm, kind: Kind) -> bool
    ensures { result ≡ walk.suits_term (out-PTerm t.now) kind }
{
    match t {
        PTerm::From(_) => is_leadsto(kind) || has_end(kind),
        _ => is_leadsto(kind),
    }
}

// Whether a rule may give this kind, in a document of this version.
pub(crate) fn suits(version: u64, rule: &CRule, kind: Kind) -> bool
    ensures { result ≡ walk.suits version rule.now kind }
{
    match rule {
        CRule::Text => is_first(kind) || is_unless(kind) || is_fixed(kind),
        CRule::TextWith(_) => is_ensures(kind),
        CRule::WeakenStep(_) => has_end(kind),
        CRule::Pair(which, _, _) => suits_pair(version, *which, kind),
        CRule::Union(_, _) => is_first(kind) || has_end(kind),
        CRule::Superpose(_) => is_carried(kind),
        CRule::Complete(_, _, _, _) => is_leadsto(kind),
        CRule::Proof(t) => suits_term(t, kind),
    }
}
