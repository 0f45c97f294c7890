//! Whether formulas that are not settled hold within the limits.
use crate::ends::{
    Ends, Truth, both, either, ends_divided, ends_left, ends_plus, ends_times, greater, known,
    lesser, linear_ends, truth_of,
};
use conflict_limits::{Limits, has_partner};
use conflict_tables::{
    Fact, Form, Part, Relation, Stop, Table, is_against, line_of, opposite, put, sides_of,
    without_quotient,
};
use std::alloc::Global;
use unity_base::Seq;

/// How deep a formula is looked into.
pub const DEPTH: u32 = 200;

/// What was seen of a formula. What is known holds until limits are taken back; that it is open, until there are
/// new ones.
#[derive(Clone, Copy)]
enum Seen {
    Nothing,
    Known(Truth),
    Open { at: u64 },
}

/// What was seen of all formulas, and of which something is known, in order.
#[derive(Drop)]
pub struct Looks {
    seen: Seq<Seen>,
    known: Seq<usize>,
}

/// Nothing was seen.
pub fn no_looks(alloc: Global) -> Looks {
    Looks {
        seen: Seq::new(alloc),
        known: Seq::new(alloc),
    }
}

impl Looks {
    /// Takes in formulas that are new.
    fn grow(&mut self, count: usize) -> Result<(), Stop> {
        for _ in self.seen.len()..count {
            self.seen.push(Seen::Nothing)?;
        }
        Ok(())
    }

    /// How many formulas something is known of.
    pub fn mark(&self) -> usize {
        self.known.len()
    }

    /// Forgets what was not known when so many were.
    pub fn take_back(&mut self, mark: usize) {
        for _ in mark..self.known.len() {
            if let Some(form) = self.known.pop() {
                put(&mut self.seen, form, Seen::Nothing);
            }
        }
    }

    /// What was seen of a formula, where it still holds.
    fn recall(&self, table: &Table, limits: &Limits, form: usize) -> Option<Truth> {
        match self.seen.get(form) {
            Some(Seen::Known(truth)) => Some(*truth),
            Some(Seen::Open { at }) if limits.is_unchanged(table.mask(form), *at) => Some(
                Truth::Open,
            ),
            _ => None,
        }
    }

    /// Keeps what was seen of a formula.
    fn keep(&mut self, limits: &Limits, form: usize, truth: Truth) -> Result<(), Stop> {
        if truth == Truth::Open {
            put(&mut self.seen, form, Seen::Open { at: limits.clock });
        } else {
            put(&mut self.seen, form, Seen::Known(truth));
            self.known.push(form)?;
        }
        Ok(())
    }
}

/// Whether a fact holds within the limits.
fn look_at_fact(table: &Table, limits: &mut Limits, fact: Fact) -> Result<Truth, Stop> {
    let Some(way) = fact.way else {
        return Ok(known(fact.constant >= 0, fact.constant < 0));
    };
    let factors = table.line_factors(line_of(way));
    let against = is_against(way);
    let own = limits
        .limit(way)
        .is_some_and(|limit| limit.bound >= fact.bound);
    let other = limits
        .limit(opposite(way))
        .is_some_and(|limit| fact.bound > limit.bound.saturating_neg());
    if own || other {
        return Ok(known(own, other));
    }
    let least = limits
        .greatest(factors, !against)
        .is_some_and(|most| most.saturating_neg() >= fact.bound);
    let beyond = limits
        .greatest(factors, against)
        .is_some_and(|most| most < fact.bound);
    if least || beyond {
        return Ok(known(least, beyond));
    }
    Ok(known(false, has_partner(table, limits, way, fact.bound)?))
}

/// The ends of a sum that is kept.
#[cycle(looking)]
fn term_ends(
    depth: u32,
    table: &mut Table,
    limits: &mut Limits,
    looks: &mut Looks,
    number: usize,
) -> Result<Ends, Stop> {
    let term = table.term(number)?;
    let mut ends = linear_ends(table, limits, term);
    for place in 0..table.term_parts(term).len() {
        let multiple = table.term_parts(term).get(place).copied().ok_or(Stop::Odd)?;
        let own = part_ends(depth, table, limits, looks, multiple.part)?;
        ends = ends_plus(ends, ends_times(own, multiple.times));
    }
    Ok(ends)
}

/// The ends of a part.
#[cycle(looking)]
fn part_ends(
    depth: u32,
    table: &mut Table,
    limits: &mut Limits,
    looks: &mut Looks,
    number: usize,
) -> Result<Ends, Stop> {
    if depth == 0 {
        return Ok(Ends {
            low: None,
            high: None,
        });
    }
    let rest = depth - 1;
    match table.part(number)? {
        Part::Quotient {
            of,
            divisor,
            rest: is_rest,
        } => {
            let ends = term_ends(rest, table, limits, looks, of)?;
            Ok(if is_rest {
                ends_left(ends, divisor)
            } else {
                ends_divided(ends, divisor)
            })
        }
        Part::Choice {
            yes,
            no,
            first,
            second,
        } => match look_at_condition(rest, table, limits, looks, yes, no)? {
            Truth::True => term_ends(rest, table, limits, looks, first),
            Truth::False => term_ends(rest, table, limits, looks, second),
            Truth::Open => either_ends(rest, table, limits, looks, first, second),
        },
    }
}

/// The ends of a sum that is one of two.
#[cycle(looking)]
fn either_ends(
    depth: u32,
    table: &mut Table,
    limits: &mut Limits,
    looks: &mut Looks,
    first: usize,
    second: usize,
) -> Result<Ends, Stop> {
    let one = term_ends(depth, table, limits, looks, first)?;
    let other = term_ends(depth, table, limits, looks, second)?;
    Ok(Ends {
        low: lesser(one.low, other.low),
        high: greater(one.high, other.high),
    })
}

/// Whether a condition holds, by it and its negation.
#[cycle(looking)]
fn look_at_condition(
    depth: u32,
    table: &mut Table,
    limits: &mut Limits,
    looks: &mut Looks,
    yes: usize,
    no: usize,
) -> Result<Truth, Stop> {
    let truth = look_into(depth, table, limits, looks, yes)?;
    if truth != Truth::Open {
        return Ok(truth);
    }
    match look_into(depth, table, limits, looks, no)? {
        Truth::True => Ok(Truth::False),
        Truth::False => Ok(Truth::True),
        Truth::Open => Ok(Truth::Open),
    }
}

/// Whether both of two formulas hold, or one of them: a first that is `ending` tells it alone.
#[cycle(looking)]
fn look_at_two(
    depth: u32,
    table: &mut Table,
    limits: &mut Limits,
    looks: &mut Looks,
    a: usize,
    b: usize,
    ending: Truth,
) -> Result<Truth, Stop> {
    let first = look_into(depth, table, limits, looks, a)?;
    if first == ending {
        return Ok(first);
    }
    let second = look_into(depth, table, limits, looks, b)?;
    if ending == Truth::False {
        Ok(both(first, second))
    } else {
        Ok(either(first, second))
    }
}

/// Whether a relation of a sum with an `Ite` holds: by the ends of the sum, else by its two sides.
#[cycle(looking)]
fn look_at_choice(
    depth: u32,
    table: &mut Table,
    limits: &mut Limits,
    looks: &mut Looks,
    form: usize,
    relation: Relation,
    term: usize,
) -> Result<Truth, Stop> {
    let truth = truth_of(relation, term_ends(depth, table, limits, looks, term)?);
    if truth != Truth::Open {
        return Ok(truth);
    }
    let (a, b) = sides_of(table, form)?;
    limits.grow(table)?;
    looks.grow(table.count_forms())?;
    look_at_two(depth, table, limits, looks, a, b, Truth::True)
}

/// Whether a relation of a sum with a quotient holds: by the ends of the sum, else by what it is without the quotient.
#[cycle(looking)]
fn look_at_quotient(
    depth: u32,
    table: &mut Table,
    limits: &mut Limits,
    looks: &mut Looks,
    form: usize,
    relation: Relation,
    term: usize,
) -> Result<Truth, Stop> {
    let truth = truth_of(relation, term_ends(depth, table, limits, looks, term)?);
    if truth != Truth::Open {
        return Ok(truth);
    }
    let rest = without_quotient(table, form)?.rest;
    limits.grow(table)?;
    looks.grow(table.count_forms())?;
    look_into(depth, table, limits, looks, rest)
}

/// Whether a formula holds, looked at anew.
#[cycle(looking)]
fn look_anew(
    depth: u32,
    table: &mut Table,
    limits: &mut Limits,
    looks: &mut Looks,
    number: usize,
    form: Form,
) -> Result<Truth, Stop> {
    match form {
        Form::True => Ok(Truth::True),
        Form::False => Ok(Truth::False),
        Form::Fact(fact) => {
            let fact = table.fact(fact)?;
            look_at_fact(table, limits, fact)
        }
        Form::Equal(a, b) => {
            let first = table.fact(a)?;
            let second = table.fact(b)?;
            let one = look_at_fact(table, limits, first)?;
            Ok(both(one, look_at_fact(table, limits, second)?))
        }
        Form::Both(a, b) => look_at_two(depth, table, limits, looks, a, b, Truth::False),
        Form::Either(a, b) => look_at_two(depth, table, limits, looks, a, b, Truth::True),
        Form::Choice(relation, term) => {
            look_at_choice(depth, table, limits, looks, number, relation, term)
        }
        Form::Quotient(relation, term) => {
            look_at_quotient(depth, table, limits, looks, number, relation, term)
        }
    }
}

/// Whether a formula holds.
#[cycle(looking)]
fn look_into(
    depth: u32,
    table: &mut Table,
    limits: &mut Limits,
    looks: &mut Looks,
    number: usize,
) -> Result<Truth, Stop> {
    if let Some(truth) = looks.recall(table, limits, number) {
        return Ok(truth);
    }
    if depth == 0 {
        return Ok(Truth::Open);
    }
    limits.count_step()?;
    let form = table.form(number)?;
    let truth = look_anew(depth - 1, table, limits, looks, number, form)?;
    looks.keep(limits, number, truth)?;
    Ok(truth)
}

/// Whether a formula holds within the limits.
pub fn look_at(
    table: &mut Table,
    limits: &mut Limits,
    looks: &mut Looks,
    form: usize,
) -> Result<Truth, Stop> {
    limits.grow(table)?;
    looks.grow(table.count_forms())?;
    look_into(DEPTH, table, limits, looks, form)
}
