// The conditions of each node of a term: its bound and its conclusion.
ghost use Rattle.std.specs.Prelude.{◌≡◌, ◌^◌, nat_le, Ok, IfOk};
ghost use Rattle.rules_table.specs.Limits.{fits};
ghost use Rattle.rules_table.specs.Table.{needs};
ghost use Rattle.rules_table.specs.Terms as terms;
ghost use Rattle.safety_rules.specs.Answers.{site_of};
ghost use Rattle.safety_rules.specs.Usable.{NamesExist};
ghost use Rattle.leadsto_rules.specs.Leading.{TermGives, led_of, may_conclude, ClaimFits, LedFits};

use case_tables::Code;
use core_terms::{CForm, CSlot, Range, size_within, weight_of};
use rules_table::Led;
use safety_rules::{Place, RuleError};
use unity_base::{Seq, Shared};

// What a node claims: that p leads to q within so many rounds.
#[derive(Drop)]
pub(crate) struct Claim {
    pub p: Shared<CForm>,
    pub q: Shared<CForm>,
    pub rounds: u128,
    pub under: Seq<CForm>,
    pub forms: Seq<CForm>,
}

// The rounds, where they are at most 2^63.
pub(crate) fn bounded(rounds: u128) -> Result<u64, RuleError>
    ensures { TermGives result (needs (nat_le rounds (2 ^ 63)) Code.BoundTooLarge (Ok rounds)) }
{
    if rounds <= 1 << 63 {
        Ok(rounds as u64)
    } else {
        Err(RuleError::Fault(Code::BoundTooLarge))
    }
}

// Whether a formula is small enough for a conclusion.
fn is_small(f: &CForm, slots: &[CSlot], ranges: &[Range]) -> bool
    requires { NamesExist slots.now ranges.now f.now }
    ensures { result ≡ fits slots.now ranges.now f.now }
{
    match size_within(f, 65_536) {
        Some(_) => weight_of(f, slots, ranges) <= 1 << 62,
        None => false,
    }
}

// Whether p and q are small enough for a conclusion.
fn may_conclude(pl: &Place, ranges: &[Range], claim: &Claim) -> bool
    requires p { NamesExist pl.now.slots.now ranges.now claim.now.p }
    requires q { NamesExist pl.now.slots.now ranges.now claim.now.q }
    ensures { result ≡ may_conclude (site_of pl.now) ranges.now (led_of claim.now) }
{
    is_small(claim.p.get(), pl.slots, ranges) && is_small(claim.q.get(), pl.slots, ranges)
}

// What a node gives, where its bound and its conclusion are small enough.
pub(crate) fn node(pl: &Place, ranges: &[Range], claim: Claim) -> Result<Led, RuleError>
    requires { ClaimFits pl.now.slots.now ranges.now claim.p claim.q claim.under claim.forms }
    ensures answer { TermGives result (terms.node (site_of pl.now) ranges.now (led_of claim)) }
    ensures fits { IfOk result (LedFits pl.now.slots.now ranges.now) }
{
    let bound = bounded(claim.rounds)?;
    let small = may_conclude(pl, ranges, &claim);
    let Claim {
        p,
        q,
        rounds: _rounds,
        under,
        forms,
    } = claim;
    if small {
        Ok(Led {
            p,
            q,
            bound,
            under,
            forms,
        })
    } else {
        Err(RuleError::Fault(Code::FormulaTooLarge))
    }
}
