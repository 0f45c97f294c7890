//! References, helpers and rules without formulas.

ghost use Rattle.std.specs.Prelude.{◌≡◌, ◌∷◌, ◌++◌, map, Option, IfOk, OnOk};
ghost use Rattle.std.specs.Option.{option_and_then};
ghost use Rattle.expand_expressions.specs.from_meaning_documents.Steps as steps;
ghost use Rattle.names_rules.specs.Scope.{bounds, entries};
ghost use Rattle.names_rules.specs.Declarations.{some_of};
ghost use Rattle.names_rules.specs.WellNamed.{param_number};
ghost use Rattle.expand_declarations.specs.WordNumbers.{word_number};
ghost use Rattle.expand_declarations.specs.References as spec;

use crate::numbers::{literal, offset};
use crate::words::WordTable;
use case_tables::{Kind, RuleName, Symbol, Word};
use core_terms::{Arg, CRule, Helper, Ref};
use names_rules::{Env, Meaning, ParamTable, bound, param};
use std::alloc::{AllocError, Global};
use unity_base::Seq;
use unity_syntax::{Claim, End, Inst, Name, Ref as TextRef};

fn number_in(meaning: Option<Meaning>) -> Option<u64>
    ensures { result ≡ option_and_then param_number meaning }
{
    match meaning {
        Some(Meaning::Param(number)) => Some(number),
        _ => None,
    }
}

// The number of a parameter, or of a name that a term binds.
fn param_named(name: &Name, params: &ParamTable, env: &Env) -> Option<u64>
    ensures { result ≡ spec.param_named (bounds env.now) (entries params.now) name.now.text }
{
    match number_in(bound(env, name)) {
        Some(number) => Some(number),
        None => param(params, name),
    }
}

// Fails where the number is not below 2^32: so many parameters are more than any memory holds.
fn small(number: u64) -> Result<u32, AllocError>
    ensures { IfOk result (λ n. n ≡ number) }
{
    if number > u32::MAX as u64 {
        return Err(AllocError);
    }
    Ok(number as u32)
}

fn word_arg(of: &Option<(Symbol, u64)>, number: Option<u64>) -> Result<Arg, AllocError>
    ensures { IfOk result (λ arg. arg ≡ spec.word_arg of.now number) }
{
    match number {
        None => Ok(Arg::Slot),
        Some(number) => {
            let number = small(number)?;
            let add = offset(of)?;
            Ok(Arg::Param { number, add })
        }
    }
}

/// What a reference or a helper gives for a parameter: a number, a parameter of the step or a name that
/// its term binds with a number added, or else a variable.
///
/// An error says that memory was refused, also where a number is past 2^62: no text has one.
pub fn core_arg(end: &End, params: &ParamTable, env: &Env) -> Result<Arg, AllocError>
    ensures { IfOk result (λ arg. arg ≡ spec.core_arg (bounds env.now) (entries params.now) end.now) }
{
    match end {
        End::Number {
            at: _,
            minus,
            number,
        } => Ok(Arg::Number(literal(*minus, *number)?)),
        End::Word {
            at: _,
            name,
            offset: of,
        } => word_arg(of, param_named(name, params, env)),
    }
}

fn add_args(
    ends: &[End],
    params: &ParamTable,
    env: &Env,
    args: &mut Seq<Arg>,
) -> Result<(), AllocError>
    ensures { OnOk result (args.new ≡ args.old ++ map (spec.core_arg (bounds env.now) (entries params.now)) ends.now) }
{
    for end in ends {
        args.push(core_arg(end, params, env)?)?;
    }
    Ok(())
}

fn core_args(
    alloc: Global,
    ends: &Option<(End, Seq<End>)>,
    params: &ParamTable,
    env: &Env,
) -> Result<Seq<Arg>, AllocError>
    ensures { IfOk result (λ args. args ≡ spec.core_args (bounds env.now) (entries params.now) ends.now) }
{
    let mut args = Seq::new(alloc);
    match ends {
        None => {}
        Some((first, rest)) => {
            args.push(core_arg(first, params, env)?)?;
            add_args(rest.as_slice(), params, env, &mut args)?;
        }
    }
    Ok(args)
}

fn ref_program(owner: &Name, r: &TextRef, words: &WordTable) -> u32
    ensures { result ≡ word_number words.now (spec.ref_program owner.now.text r.now.name r.now.step) }
{
    match &r.step {
        None => words.number(owner),
        Some(_) => words.number(&r.name),
    }
}

fn ref_step(r: &TextRef, words: &WordTable) -> u32
    ensures { result ≡ word_number words.now (spec.ref_step r.now.name r.now.step) }
{
    match &r.step {
        None => words.number(&r.name),
        Some(step) => words.number(step),
    }
}

/// A reference in a proof of the program `owner`. One that names no program means a step of this proof.
///
/// An error says that memory was refused, also where a number is past 2^62: no text has one.
pub fn core_ref(
    alloc: Global,
    r: &TextRef,
    owner: &Name,
    words: &WordTable,
    params: &ParamTable,
    env: &Env,
) -> Result<Ref, AllocError>
    ensures { IfOk result (λ c. c ≡
        spec.core_ref words.now owner.now.text (bounds env.now) (entries params.now) r.now) }
{
    let args = core_args(alloc, &r.args, params, env)?;
    Ok(Ref {
        program: ref_program(owner, r, words),
        step: ref_step(r, words),
        args,
    })
}

fn add_refs(
    alloc: Global,
    refs: &[TextRef],
    owner: &Name,
    words: &WordTable,
    params: &ParamTable,
    env: &Env,
    list: &mut Seq<Ref>,
) -> Result<(), AllocError>
    ensures { OnOk result (list.new ≡ list.old ++
        map (spec.core_ref words.now owner.now.text (bounds env.now) (entries params.now)) refs.now) }
{
    for r in refs {
        list.push(core_ref(alloc, r, owner, words, params, env)?)?;
    }
    Ok(())
}

/// The references after `using`, in the order of the text.
///
/// An error says that memory was refused, also where a number is past 2^62: no text has one.
pub fn core_refs(
    alloc: Global,
    refs: &Option<(TextRef, Seq<TextRef>)>,
    owner: &Name,
    words: &WordTable,
    params: &ParamTable,
    env: &Env,
) -> Result<Seq<Ref>, AllocError>
    ensures { IfOk result (λ list. list ≡
        map (spec.core_ref words.now owner.now.text (bounds env.now) (entries params.now)) (some_of refs.now)) }
{
    let mut list = Seq::new(alloc);
    match refs {
        None => {}
        Some((first, rest)) => {
            list.push(core_ref(alloc, first, owner, words, params, env)?)?;
            add_refs(alloc, rest.as_slice(), owner, words, params, env, &mut list)?;
        }
    }
    Ok(list)
}

/// The statement that helps.
///
/// An error says that memory was refused, also where a number is past 2^62: no text has one.
pub fn core_helper(
    alloc: Global,
    helper: &Inst,
    words: &WordTable,
    params: &ParamTable,
    env: &Env,
) -> Result<Helper, AllocError>
    ensures { IfOk result (λ h. h ≡ spec.core_helper words.now (bounds env.now) (entries params.now) helper.now) }
{
    let args = core_args(alloc, &helper.indices, params, env)?;
    Ok(Helper {
        label: words.number(&helper.label),
        args,
    })
}

/// The rule `text`, with the statement that helps where there is one.
///
/// An error says that memory was refused, also where a number is past 2^62: no text has one.
pub fn text_rule(
    alloc: Global,
    helper: &Option<Inst>,
    words: &WordTable,
    params: &ParamTable,
    env: &Env,
) -> Result<CRule, AllocError>
    ensures { IfOk result (λ rule. rule ≡
        spec.text_rule words.now (bounds env.now) (entries params.now) helper.now) }
{
    match helper {
        None => Ok(CRule::Text),
        Some(helper) => Ok(CRule::TextWith(core_helper(alloc, helper, words, params, env)?)),
    }
}

/// A rule of two premises, by its word.
pub fn pair_rule(which: Word, first: Ref, second: Ref) -> CRule
    ensures { result ≡ spec.pair_rule which first second }
{
    match which {
        Word::Conj => CRule::Pair(RuleName::Conj, first, second),
        Word::Simpleconj => CRule::Pair(RuleName::Simpleconj, first, second),
        Word::Disj => CRule::Pair(RuleName::Disj, first, second),
        Word::Simpledisj => CRule::Pair(RuleName::Simpledisj, first, second),
        Word::Until => CRule::Pair(RuleName::Until, first, second),
        Word::Detects => CRule::Pair(RuleName::Detects, first, second),
        Word::Constant => CRule::Pair(RuleName::Constant, first, second),
        Word::Union => CRule::Union(first, second),
        _ => CRule::Pair(RuleName::Cancel, first, second),
    }
}

fn between_kind(which: Word) -> Kind
    ensures { result ≡ steps.between_kind which }
{
    match which {
        Word::Unless => Kind::Unless,
        Word::Ensures => Kind::Ensures,
        Word::Until => Kind::Until,
        Word::Detects => Kind::Detects,
        _ => Kind::Leadsto,
    }
}

/// The kind of the property that a step claims.
pub fn claim_kind(claim: &Claim) -> Kind
    ensures { result ≡ steps.claim_kind claim.now }
{
    match claim {
        Claim::Defined { at: _ } => Kind::Defined,
        Claim::Invariant { at: _, of: _ } => Kind::Invariant,
        Claim::Stable { at: _, of: _ } => Kind::Unless,
        Claim::Constant { at: _, of: _ } => Kind::Constant,
        Claim::Fixed { at: _, of: _ } => Kind::Fixed,
        Claim::Between {
            at: _,
            p: _,
            which,
            q: _,
        } => between_kind(*which),
    }
}
