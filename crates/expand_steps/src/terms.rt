//! Proof terms.
ghost use Rattle.std.specs.Prelude.{◌≡◌, ◌∷◌, ◌+◌, [], IfOk, MatchResult};
ghost use Rattle.unity_syntax.specs.declared.term.Term.TheVariants.{Psp};
ghost use Rattle.names_rules.specs.Scope.{bounds, entries};
ghost use Rattle.expand_expressions.specs.Places.{IsReady, scope};
ghost use Rattle.expand_steps.specs.Elements.{GivesOne, form_in, truth_in};
ghost use Rattle.expand_rules.specs.Measures.{ends_weight};
ghost use Rattle.expand_declarations.specs.References.{core_ref};
ghost use Rattle.expand_steps.specs.ProofTerms as spec;

use crate::formulas::formula;
use crate::term_forms::{
    Induction, exists_term, from_term, imply_term, induct_term, inductive_parts, pair_term,
    psp_term,
};
use case_tables::Word;
use core_terms::{CForm, PTerm, Range, Ref};
use expand_declarations::{WordTable, core_ref, fixed_range};
use expand_expressions::{Env as BoundEnv, Known, with_bound};
use expand_rules::{Bound, Flaws};
use names_rules::{Env, Meaning, NameFault, ParamTable, with_name};
use std::alloc::{AllocError, Global};
use unity_base::Held;
use unity_syntax::{Expr, Name, Range as TextRange, Ref as TextRef, Term};

/// What is the same for all parts of a step.
#[derive(Clone, Copy)]
pub struct Here<'k, 'a> {
    /// The words of the document.
    pub words: &'k WordTable<'a>,
    /// The program that is proved.
    pub owner: &'k Name,
    /// The parameters of the step.
    pub params: &'k ParamTable<'a>,
    /// What the document declares.
    pub known: &'k Known<'k, 'a>,
    /// The byte at which the step's name stands.
    pub front: u64,
}

/// Two formulas.
pub fn imply(
    alloc: Global,
    p: &Expr,
    q: &Expr,
    here: &Here,
    env: &BoundEnv,
    bad: &mut Flaws,
) -> Result<(CForm, CForm), NameFault>
    requires { IsReady here.now.known.now }
    ensures { GivesOne result
        (form_in (scope here.now.known.now env.now) p.now, form_in (scope here.now.known.now env.now) q.now)
        here.now.front bad.old bad.new
        (truth_in (scope here.now.known.now env.now) p.now ∷ truth_in (scope here.now.known.now env.now) q.now ∷ []) }
{
    let first = formula(alloc, p, here.known, env, here.front, bad)?;
    let second = formula(alloc, q, here.known, env, here.front, bad)?;
    Ok((first, second))
}

// The number of the next name that a term binds. Fails where it would be 2^32 or more.
fn fresh(next: &mut u32) -> Result<u32, NameFault>
    ensures { MatchResult result (λ n. (n ≡ next.old) × (next.new ≡ next.old + 1)) (λ e. e ≡ NameFault.Memory) }
{
    let number = *next;
    match number.checked_add(1) {
        None => Err(NameFault::Memory),
        Some(more) => {
            *next = more;
            Ok(number)
        }
    }
}

/// What a name of this number and range stands for.
pub fn param_bound(number: u32, range: &TextRange) -> Result<Bound, AllocError>
    ensures { IfOk result (λ b. b ≡ spec.param_bound number range.now) }
{
    let ends = fixed_range(range)?;
    let weight = weight_of(ends);
    Ok(Bound::Param { number, weight })
}

// The greatest of 1 and of the distances of a range's ends from 0.
fn weight_of(ends: Range) -> u64
    ensures { result ≡ ends_weight (ends.lo, ends.hi) }
{
    ends.lo.unsigned_abs().max(ends.hi.unsigned_abs()).max(1)
}

/// A reference of a step.
pub fn ref_in(alloc: Global, r: &TextRef, here: &Here, names: &Env) -> Result<Ref, AllocError>
    ensures { IfOk result (λ c. c ≡ core_ref here.now.words.now here.now.owner.now.text (bounds names.now)
        (entries here.now.params.now) r.now) }
{
    core_ref(alloc, r, here.owner, here.words, here.params, names)
}

/// A term in core form, whose bound names are numbered from `next` on. `Fault` exactly where one of its
/// formulas is too large, at the name of the step. What fails is noted.
#[cycle(term)]
pub fn term(
    alloc: Global,
    t: &Term,
    here: &Here,
    names: &Env,
    env: &BoundEnv,
    next: &mut u32,
    bad: &mut Flaws,
) -> Result<Held<PTerm>, NameFault>
    requires { IsReady here.now.known.now }
    ensures { spec.Terms result next.new here.now.front bad.old bad.new
        (spec.termed t.now (spec.place here.now names.now env.now) next.old) }
{
    match t {
        Term::Imply { at: _, p, q } => imply_term(alloc, p, q, here, env, bad),
        Term::From { at: _, of } => Ok(from_term(alloc, of, here, names)?),
        Term::Pair {
            at: _,
            which,
            first,
            second,
        } => {
            let first = term(alloc, first.get(), here, names, env, next, bad)?;
            second_term(alloc, second, *which, first, here, names, env, next, bad)
        }
        Term::Exists {
            at: _,
            name,
            range,
            of,
        } => {
            let number = fresh(next)?;
            let of = inside(alloc, of, name, number, range, here, names, env, next, bad)?;
            Ok(exists_term(alloc, number, range, of)?)
        }
        Term::Induct {
            at: _,
            name,
            range,
            measure,
            p,
            q,
            of,
        } => {
            let number = fresh(next)?;
            induct(
                alloc, of, number, name, range, measure, p, q, here, names, env, next, bad,
            )
        }
        Term::Psp { at, of, by } => psp(alloc, *at, of, by, here, names, env, next, bad),
        Term::Weaken { at: _, p, q, of } => { weaken(alloc, of, p, q, here, names, env, next, bad) }
    }
}

// The second of two terms, and both.
#[cycle(term)]
fn second_term(
    alloc: Global,
    of: &Held<Term>,
    which: Word,
    first: Held<PTerm>,
    here: &Here,
    names: &Env,
    env: &BoundEnv,
    next: &mut u32,
    bad: &mut Flaws,
) -> Result<Held<PTerm>, NameFault>
    requires { IsReady here.now.known.now }
    ensures { spec.Terms result next.new here.now.front bad.old bad.new
        (spec.second_paired which first (spec.termed of.now (spec.place here.now names.now env.now) next.old)) }
{
    let second = term(alloc, of.get(), here, names, env, next, bad)?;
    Ok(pair_term(alloc, which, first, second)?)
}

// A term over another one, with the unless of a step.
#[cycle(term)]
fn psp(
    alloc: Global,
    at: u64,
    of: &Held<Term>,
    by: &TextRef,
    here: &Here,
    names: &Env,
    env: &BoundEnv,
    next: &mut u32,
    bad: &mut Flaws,
) -> Result<Held<PTerm>, NameFault>
    requires { IsReady here.now.known.now }
    ensures { spec.Terms result next.new here.now.front bad.old bad.new
        (spec.termed (Psp at of.now by.now) (spec.place here.now names.now env.now) next.old) }
{
    let of = term(alloc, of.get(), here, names, env, next, bad)?;
    Ok(psp_term(alloc, of, by, here, names)?)
}

#[cycle(term)]
fn weaken(
    alloc: Global,
    of: &Held<Term>,
    p: &Expr,
    q: &Expr,
    here: &Here,
    names: &Env,
    env: &BoundEnv,
    next: &mut u32,
    bad: &mut Flaws,
) -> Result<Held<PTerm>, NameFault>
    requires { IsReady here.now.known.now }
    ensures { spec.Terms result next.new here.now.front bad.old bad.new
        (spec.weakened (scope here.now.known.now env.now) p.now q.now
        (spec.termed of.now (spec.place here.now names.now env.now) next.old)) }
{
    let (p, q) = imply(alloc, p, q, here, env, bad)?;
    weaken_by(alloc, of, p, q, here, names, env, next, bad)
}

#[cycle(term)]
fn weaken_by(
    alloc: Global,
    of: &Held<Term>,
    p: CForm,
    q: CForm,
    here: &Here,
    names: &Env,
    env: &BoundEnv,
    next: &mut u32,
    bad: &mut Flaws,
) -> Result<Held<PTerm>, NameFault>
    requires { IsReady here.now.known.now }
    ensures { spec.Terms result next.new here.now.front bad.old bad.new
        (spec.weakened_by p q (spec.termed of.now (spec.place here.now names.now env.now) next.old)) }
{
    let of = term(alloc, of.get(), here, names, env, next, bad)?;
    Ok(Held::new(alloc, PTerm::Weaken(p, q, of))?)
}

#[cycle(term)]
fn induct(
    alloc: Global,
    of: &Held<Term>,
    number: u32,
    name: &Name,
    range: &TextRange,
    measure: &Expr,
    p: &Expr,
    q: &Expr,
    here: &Here,
    names: &Env,
    env: &BoundEnv,
    next: &mut u32,
    bad: &mut Flaws,
) -> Result<Held<PTerm>, NameFault>
    requires { IsReady here.now.known.now }
    ensures { spec.Terms result next.new here.now.front bad.old bad.new
        (spec.inducted (scope here.now.known.now env.now) number range.now measure.now p.now q.now
        (spec.termed of.now
        (spec.with_bound_name (spec.place here.now names.now env.now) name.now.text number range.now)
        next.old)) }
{
    let shape = inductive_parts(alloc, number, range, measure, p, q, here, env, bad)?;
    induct_by(alloc, of, name, range, shape, here, names, env, next, bad)
}

#[cycle(term)]
fn induct_by(
    alloc: Global,
    of: &Held<Term>,
    name: &Name,
    range: &TextRange,
    shape: Induction,
    here: &Here,
    names: &Env,
    env: &BoundEnv,
    next: &mut u32,
    bad: &mut Flaws,
) -> Result<Held<PTerm>, NameFault>
    requires { IsReady here.now.known.now }
    ensures { spec.Terms result next.new here.now.front bad.old bad.new
        (spec.inducted_by shape (spec.termed of.now
        (spec.with_bound_name (spec.place here.now names.now env.now) name.now.text shape.number range.now) next.old)) }
{
    let of = inside(
        alloc,
        of,
        name,
        shape.number,
        range,
        here,
        names,
        env,
        next,
        bad,
    )?;
    Ok(induct_term(alloc, shape, of)?)
}

// The part of a term in which a name is bound.
#[cycle(term)]
fn inside(
    alloc: Global,
    of: &Held<Term>,
    name: &Name,
    number: u32,
    range: &TextRange,
    here: &Here,
    names: &Env,
    env: &BoundEnv,
    next: &mut u32,
    bad: &mut Flaws,
) -> Result<Held<PTerm>, NameFault>
    requires { IsReady here.now.known.now }
    ensures { spec.Terms result next.new here.now.front bad.old bad.new
        (spec.termed of.now
        (spec.with_bound_name (spec.place here.now names.now env.now) name.now.text number range.now)
        next.old) }
{
    let bound = param_bound(number, range)?;
    let inner_names = with_name(&*name, Meaning::Param(number as u64), &*names);
    let inner = with_bound(&*name, bound, &*env);
    term(alloc, of.get(), here, &inner_names, &inner, next, bad)
}
