// Formulas joined by `and` from the left, one after the other.
ghost use Rattle.std.specs.Prelude.{◌≡◌, ◌^◌, ◌≤◌, ◌&&◌, IfOk, OnOk, Some, None};
ghost use Rattle.std.specs.Option.{is_some};
ghost use Rattle.std.specs.Bool.{OnTrue};
ghost use Rattle.core_terms.specs.declared.trees.CForm.{CForm};
ghost use Rattle.core_terms.specs.declared.trees.CForm.TheVariants.{Bottom};
ghost use Rattle.core_terms.specs.Weights.{plain_weight};
ghost use Rattle.core_terms.specs.Folding.{truth_of};
ghost use Rattle.wp_substitution.specs.Joined.{joined_with, or_top, IsFolded, ConjunctionKnown};

use core_terms::from_unity_base::Shared;
use core_terms::{CForm, Joining, joined_known};
use std::alloc::{AllocError, Global};

/// The formulas so far, joined; none where there was none yet. Beside them stands the truth of the whole,
/// where it is known.
#[derive(Drop)]
pub struct Conjunction {
    pub whole: Option<Shared<CForm>>,
    pub truth: Option<bool>,
}

impl Conjunction {
    /// Of no formula.
    #[tactic(auto, using(crate::proofs::KnownLaws::top_laws))]
    pub fn new() -> Conjunction
        ensures whole { result.whole ≡ None }
        ensures known { ConjunctionKnown result }
    {
        Conjunction {
            whole: None,
            truth: Some(true),
        }
    }

    /// Joins one formula more; `truth` is that of the formula.
    pub fn add(
        &mut self,
        alloc: Global,
        f: Shared<CForm>,
        truth: Option<bool>,
    ) -> Result<(), AllocError>
        requires known { ConjunctionKnown self.old }
        requires truth { truth ≡ truth_of f }
        requires folded { IsFolded f }
        requires weight { plain_weight f ≤ 2 ^ 65 }
        ensures whole { OnOk result (self.new.whole ≡ Some (joined_with self.old.whole f)) }
        ensures known { OnOk result (ConjunctionKnown self.new) }
    {
        let mut now = truth;
        let joined = join(alloc, self.whole.take(), self.truth, f, &mut now)?;
        self.whole = Some(joined);
        self.truth = now;
        Ok(())
    }

    /// Whether one formula more would leave the whole as it is; `truth` is that of the formula, where known.
    pub fn stays_with(&self, truth: Option<bool>) -> bool
        requires { ConjunctionKnown self.now }
        ensures { OnTrue result
            ((f : CForm) → truth_of f ≡ truth → self.now.whole ≡ Some (joined_with self.now.whole f)) }
    {
        if self.whole.is_none() {
            return false;
        }
        match self.truth {
            Some(whole) => match truth {
                Some(more) => (whole && more) == whole,
                None => false,
            },
            None => false,
        }
    }

    /// Whether there is a formula, and the truth of the whole is known.
    pub fn is_settled(&self) -> bool
        ensures { result ≡ (is_some self.now.whole && is_some self.now.truth) }
    {
        self.whole.is_some() && self.truth.is_some()
    }

    /// Whatever it was, it is `Bottom` now.
    #[tactic(auto, using(crate::proofs::KnownLaws::bottom_laws))]
    pub fn fail(&mut self, alloc: Global) -> Result<(), AllocError>
        ensures whole { OnOk result (self.new.whole ≡ Some Bottom) }
        ensures known { OnOk result (ConjunctionKnown self.new) }
    {
        self.whole = Some(Shared::new(alloc, CForm::Bottom)?);
        self.truth = Some(false);
        Ok(())
    }

    /// The whole; `Top` of no formula.
    pub fn into_form(self, alloc: Global) -> Result<Shared<CForm>, AllocError>
        ensures { IfOk result (λ f. f ≡ or_top self.whole) }
    {
        let Conjunction { whole, truth: _ } = self;
        match whole {
            Some(f) => Ok(f),
            None => Shared::new(alloc, CForm::Top),
        }
    }
}

// A formula after the others.
#[tactic(auto, using(crate::proofs::KnownLaws::folded_laws))]
fn join(
    alloc: Global,
    whole: Option<Shared<CForm>>,
    first: Option<bool>,
    f: Shared<CForm>,
    truth: &mut Option<bool>,
) -> Result<Shared<CForm>, AllocError>
    requires first { first ≡ truth_of (or_top whole) }
    requires weight { plain_weight (or_top whole) ≤ 2 ^ 65 }
    requires second { truth.old ≡ truth_of f }
    requires light { plain_weight f ≤ 2 ^ 65 }
    requires folded { IsFolded f }
    ensures whole { IfOk result (λ g. g ≡ joined_with whole f) }
    ensures truth { IfOk result (λ g. truth.new ≡ truth_of g) }
    ensures folded { IfOk result IsFolded }
    ensures weight { IfOk result (λ g. plain_weight g ≤ 2 ^ 65) }
{
    match whole {
        Some(g) => joined_known(alloc, Joining::Both, g, first, f, truth),
        None => Ok(f),
    }
}
