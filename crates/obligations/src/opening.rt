//! An obligation's first branch.
ghost use Rattle.std.specs.Prelude.{◌≡◌, ◌^◌, ◌≤◌, ◌<◌, length, OnOk, IfOk, ◌∷◌, [], ◌++◌};
ghost use Rattle.obligations.specs.Load.{form_load};
ghost use Rattle.obligations.specs.Opening.{at_least, at_most, range_facts, first_branch, HoldsWhereFalse};
ghost use Rattle.obligations.specs.Obligations.{AreVariables};

use crate::branches::{Branch, Fact, Obligation, Variable};
use crate::factors::Factors;
use crate::settling::refuse_onto;
use core_terms::from_unity_base::Seq;
use std::alloc::{AllocError, Global};

/// So many facts have room behind those of the ranges when a branch begins: most certificates add no more.
const ROOM_FOR_FACTS: usize = 64;

/// That a variable is at least the low end of its range.
fn fact_low(alloc: Global, place: u32, lo: &i64) -> Fact
    ensures { result ≡ at_least place lo.now }
{
    Fact {
        factors: Factors::one(alloc, place, 1),
        constant: -(*lo as i128),
    }
}

/// That a variable is at most the high end of its range.
fn fact_high(alloc: Global, place: u32, hi: &i64) -> Fact
    ensures { result ≡ at_most place hi.now }
{
    Fact {
        factors: Factors::one(alloc, place, -1),
        constant: *hi as i128,
    }
}

/// Adds the two facts of a variable's range.
#[tactic(auto, using(crate::proofs::OpeningLaws::two_laws))]
fn add_range(
    alloc: Global,
    place: u32,
    v: &Variable,
    facts: &mut Seq<Fact>,
) -> Result<(), AllocError>
    ensures { OnOk result (facts.new ≡ facts.old ++ range_facts place (v.now ∷ [])) }
{
    facts.push(fact_low(alloc, place, &v.range.lo))?;
    facts.push(fact_high(alloc, place, &v.range.hi))?;
    Ok(())
}

/// The facts of all ranges.
#[tactic(auto, using(crate::proofs::OpeningLaws::range_laws))]
fn ranges_of(alloc: Global, vs: &[Variable]) -> Result<Seq<Fact>, AllocError>
    requires { length vs.now < 2 ^ 32 }
    ensures { IfOk result (λ facts. facts ≡ range_facts 0 vs.now) }
{
    let mut facts = Seq::with_capacity(alloc, 2 * vs.len() + ROOM_FOR_FACTS)?;
    for (place, v) in vs.iter().enumerate() {
        add_range(alloc, place as u32, v, &mut facts)?;
    }
    Ok(facts)
}

/// The branch that an obligation's certificate starts with: for each variable the facts of its
/// range, and then the form's negation, settled. At values in the ranges it holds exactly where the
/// form is false.
#[tactic(auto, using(crate::proofs::OpeningLaws::open_laws))]
pub fn open_branch(alloc: Global, o: &Obligation) -> Result<Branch, AllocError>
    requires variables { AreVariables o.now.variables }
    requires load { form_load o.now.form ≤ 2 ^ 62 }
    ensures branch { IfOk result (λ b. b ≡ first_branch o.now) }
    ensures holds { IfOk result (λ b. HoldsWhereFalse o.now b) }
    ensures added { IfOk result (λ b. b.added ≡ 0) }
{
    let vs = o.variables.as_slice();
    let mut branch = Branch {
        facts: ranges_of(alloc, vs)?,
        waiting: Seq::new(alloc),
        added: 0,
    };
    refuse_onto(alloc, vs, &o.form, &mut branch)?;
    Ok(branch)
}
