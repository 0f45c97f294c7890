//! The terms of proofs whose parts are there.
ghost use Rattle.std.specs.Prelude.{◌≡◌, ◌∷◌, [], IfOk};
ghost use Rattle.names_rules.specs.Scope.{bounds, entries};
ghost use Rattle.expand_expressions.specs.Places.{IsReady, scope};
ghost use Rattle.expand_steps.specs.Elements.{GivesOne, form_in, number_in, term_in, truth_in};
ghost use Rattle.expand_declarations.specs.Numbers.{core_range};
ghost use Rattle.expand_declarations.specs.References.{core_ref};
ghost use Rattle.expand_steps.specs.ProofTerms as spec;
ghost use Rattle.core_terms.specs.declared.documents.PTerm.TheVariants as core;

use crate::formulas::metric;
use crate::terms::{Here, imply, ref_in};
use case_tables::Word;
use core_terms::{CForm, CTerm, PTerm, Range};
use expand_declarations::{core_ref, fixed_range};
use expand_expressions::Env as BoundEnv;
use expand_rules::Flaws;
use names_rules::{Env, NameFault};
use std::alloc::{AllocError, Global};
use unity_base::Held;
use unity_syntax::{Expr, Range as TextRange, Ref as TextRef};

pub fn pair_term(
    alloc: Global,
    which: Word,
    first: Held<PTerm>,
    second: Held<PTerm>,
) -> Result<Held<PTerm>, AllocError>
    ensures { IfOk result (λ t. t ≡ spec.pair_term which first second) }
{
    match which {
        Word::Either => Held::new(alloc, PTerm::Either(first, second)),
        _ => Held::new(alloc, PTerm::Trans(first, second)),
    }
}

pub fn imply_term(
    alloc: Global,
    p: &Expr,
    q: &Expr,
    here: &Here,
    env: &BoundEnv,
    bad: &mut Flaws,
) -> Result<Held<PTerm>, NameFault>
    requires { IsReady here.now.known.now }
    ensures { GivesOne result
        (core.Imply (form_in (scope here.now.known.now env.now) p.now)
        (form_in (scope here.now.known.now env.now) q.now))
        here.now.front bad.old bad.new
        (truth_in (scope here.now.known.now env.now) p.now ∷ truth_in (scope here.now.known.now env.now) q.now ∷ []) }
{
    let (first, second) = imply(alloc, p, q, here, env, bad)?;
    Ok(Held::new(alloc, PTerm::Imply(first, second))?)
}

pub fn from_term(
    alloc: Global,
    r: &TextRef,
    here: &Here,
    names: &Env,
) -> Result<Held<PTerm>, AllocError>
    ensures { IfOk result (λ t. t ≡ core.From (core_ref here.now.words.now here.now.owner.now.text (bounds names.now)
        (entries here.now.params.now) r.now)) }
{
    Held::new(alloc, PTerm::From(ref_in(alloc, r, here, names)?))
}

pub fn exists_term(
    alloc: Global,
    number: u32,
    range: &TextRange,
    of: Held<PTerm>,
) -> Result<Held<PTerm>, AllocError>
    ensures { IfOk result (λ t. t ≡ core.Exists number (core_range (spec.fixed_ends range.now)) of) }
{
    let ends = fixed_range(range)?;
    Held::new(alloc, PTerm::Exists(number, ends, of))
}

pub fn psp_term(
    alloc: Global,
    of: Held<PTerm>,
    by: &TextRef,
    here: &Here,
    names: &Env,
) -> Result<Held<PTerm>, AllocError>
    ensures { IfOk result (λ t. t ≡ core.Psp of (core_ref here.now.words.now here.now.owner.now.text (bounds names.now)
        (entries here.now.params.now) by.now)) }
{
    let by = ref_in(alloc, by, here, names)?;
    Held::new(alloc, PTerm::Psp(of, by))
}

// What stands in an induction before its part.
#[derive(Drop)]
pub struct Induction {
    pub number: u32,
    pub range: Range,
    pub measure: CTerm,
    pub p: CForm,
    pub q: CForm,
}

pub fn inductive_parts(
    alloc: Global,
    number: u32,
    range: &TextRange,
    measure: &Expr,
    p: &Expr,
    q: &Expr,
    here: &Here,
    env: &BoundEnv,
    bad: &mut Flaws,
) -> Result<Induction, NameFault>
    requires { IsReady here.now.known.now }
    ensures { GivesOne result (record {
      number = number;
      range = core_range (spec.fixed_ends range.now);
      measure = term_in (scope here.now.known.now env.now) measure.now;
      p = form_in (scope here.now.known.now env.now) p.now;
      q = form_in (scope here.now.known.now env.now) q.now;
    }) here.now.front bad.old bad.new
        (number_in (scope here.now.known.now env.now) measure.now ∷ truth_in (scope here.now.known.now env.now) p.now
        ∷ truth_in (scope here.now.known.now env.now) q.now ∷ []) }
{
    let range = fixed_range(range)?;
    let measure = metric(alloc, measure, here.known, env, here.front, bad)?;
    let (p, q) = imply(alloc, p, q, here, env, bad)?;
    Ok(Induction {
        number,
        range,
        measure,
        p,
        q,
    })
}

pub fn induct_term(
    alloc: Global,
    shape: Induction,
    of: Held<PTerm>,
) -> Result<Held<PTerm>, AllocError>
    ensures { IfOk result (λ t. t ≡
        core.Induct shape.number shape.range shape.measure shape.p shape.q of) }
{
    let Induction {
        number,
        range,
        measure,
        p,
        q,
    } = shape;
    Held::new(alloc, PTerm::Induct(number, range, measure, p, q, of))
}
