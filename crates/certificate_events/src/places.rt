//! How far a section of certificates is read, and how a token leads on. Nodes stand before their subtrees, so no stack
//! is needed: it is enough to know how many subtrees are missing.
ghost use Rattle.std.specs.Prelude.{◌≡◌, ◌<◌, ◌^◌, ◌-◌};
ghost use Rattle.certificate_events.specs.Events.{number_of};
ghost use Rattle.certificate_events.specs.Steps as steps;

use crate::reader::Taken;
use crate::signs::Sign;
use unity_base::CertEvent;

/// The greatest number of a text.
const GREATEST_LITERAL: u64 = 4_611_686_018_427_387_904;

/// What a number without a sign is awaited for.
#[derive(Clone, Copy, Debug, PartialEq, Eq)]
pub enum Plain {
    /// The waiting formula of a `case`.
    Case,
    /// The variable of a `split`.
    Variable,
    /// The waiting formula of a `quot`.
    Quot,
    /// The fact or variable of a pair with this multiplier.
    Fact(i64),
}

/// What a number with a sign is awaited for.
#[derive(Clone, Copy, Debug, PartialEq, Eq)]
pub enum Signed {
    /// The bound of a `split` of this variable.
    Bound(u64),
    /// The divisor of a `round`.
    Divisor,
    /// The constant of a `share`.
    Constant,
    /// The multiplier of a pair.
    Multiplier,
}

/// What may follow.
#[derive(Clone, Copy, Debug, PartialEq, Eq)]
pub enum Stage {
    /// The number of a certificate, or the section's end.
    Between,
    /// The colon behind a certificate's number.
    Numbered,
    /// A node, or the certificate's end where no tree is missing.
    Nodes,
    /// A pair, or what may follow at `Nodes`.
    Pairs,
    /// A number.
    Plain(Plain),
    /// A number, or a minus before one.
    Signed(Signed),
    /// The number behind a minus.
    Negative(Signed),
    /// The sign between the two numbers of a pair, of which this is the first.
    Times(i64),
    /// Nothing: the section has ended.
    Done,
    /// Nothing: a token stood where it may not.
    Bad,
}

/// What may follow, how many trees are missing in the certificate that is open, and how many certificates have begun.
#[derive(Clone, Copy, Debug, PartialEq, Eq)]
pub struct Place {
    pub stage: Stage,
    pub missing: u64,
    pub number: u64,
}

/// A number with its sign.
#[inline(always)]
pub(crate) fn integer_of(minus: bool, number: u64) -> i64
    ensures { result ≡ number_of minus number }
{
    let number = number.min(GREATEST_LITERAL) as i64;
    if minus { -number } else { number }
}

#[inline(always)]
fn silent(place: &mut Place, stage: Stage) -> Taken
    ensures { (place.new, result) ≡ steps.silent place.old stage }
{
    place.stage = stage;
    Taken::Nothing
}

#[inline(always)]
fn telling(place: &mut Place, stage: Stage, event: CertEvent) -> Taken
    ensures { (place.new, result) ≡ steps.telling place.old stage event }
{
    place.stage = stage;
    Taken::Event(event)
}

#[inline(always)]
fn refused(place: &mut Place) -> Taken
    ensures { (place.new, result) ≡ steps.refused place.old }
{
    place.stage = Stage::Bad;
    Taken::Unexpected
}

/// Behind a certificate, or before the first.
#[inline(always)]
fn between(place: &mut Place, sign: Sign) -> Taken
    requires { place.old.number < 2 ^ 64 - 1 }
    ensures { (place.new, result) ≡ steps.between place.old sign }
{
    let next = place.number + 1;
    match sign {
        Sign::Number(number) if number == next => {
            place.number = next;
            silent(place, Stage::Numbered)
        }
        Sign::End => telling(place, Stage::Done, CertEvent::Last),
        _ => refused(place),
    }
}

/// Behind a certificate's number.
#[inline(always)]
fn numbered(place: &mut Place, sign: Sign) -> Taken
    ensures { (place.new, result) ≡ steps.numbered place.old sign }
{
    match sign {
        Sign::Colon => {
            place.missing = 1;
            telling(place, Stage::Nodes, CertEvent::Begin)
        }
        _ => refused(place),
    }
}

/// At the word of a node, beside which and below which so many trees are missing.
#[inline(always)]
fn word(place: &mut Place, missing: u64, stage: Stage) -> Taken
    ensures { (place.new, result) ≡ steps.silent (record place.old { missing = missing }) stage }
{
    place.missing = missing;
    silent(place, stage)
}

/// At a node, beside which so many trees are missing.
#[inline(always)]
fn node(place: &mut Place, others: u64, sign: Sign) -> Taken
    requires { others < 2 ^ 64 - 2 }
    ensures { (place.new, result) ≡ steps.node place.old others sign }
{
    match sign {
        Sign::Case => word(place, others + 2, Stage::Plain(Plain::Case)),
        Sign::Split => word(place, others + 2, Stage::Plain(Plain::Variable)),
        Sign::Sum => {
            place.missing = others;
            telling(place, Stage::Pairs, CertEvent::Sum)
        }
        Sign::Round => word(place, others + 1, Stage::Signed(Signed::Divisor)),
        Sign::Quot => word(place, others + 1, Stage::Plain(Plain::Quot)),
        Sign::Share => word(place, others + 2, Stage::Signed(Signed::Constant)),
        _ => refused(place),
    }
}

/// Where no tree is missing.
#[inline(always)]
fn closing(place: &mut Place, sign: Sign) -> Taken
    ensures { (place.new, result) ≡ steps.closing place.old sign }
{
    match sign {
        Sign::Semicolon => telling(place, Stage::Between, CertEvent::End),
        _ => refused(place),
    }
}

/// Where a node may stand.
#[inline(always)]
fn nodes(place: &mut Place, sign: Sign) -> Taken
    requires { place.old.missing < 2 ^ 64 - 1 }
    ensures { (place.new, result) ≡ steps.nodes place.old sign }
{
    if place.missing == 0 {
        closing(place, sign)
    } else {
        node(place, place.missing - 1, sign)
    }
}

/// Where a pair may stand.
#[inline(always)]
fn pairs(place: &mut Place, sign: Sign) -> Taken
    requires { place.old.missing < 2 ^ 64 - 1 }
    ensures { (place.new, result) ≡ steps.pairs place.old sign }
{
    match sign {
        Sign::Minus => silent(place, Stage::Negative(Signed::Multiplier)),
        Sign::Number(number) => signed_read(place, Signed::Multiplier, integer_of(false, number)),
        _ => nodes(place, sign),
    }
}

/// With the number that was awaited.
#[inline(always)]
fn plain_read(place: &mut Place, awaited: Plain, number: u64) -> Taken
    ensures { (place.new, result) ≡ steps.plain_read place.old awaited number }
{
    match awaited {
        Plain::Case => telling(place, Stage::Nodes, CertEvent::Case(number)),
        Plain::Variable => silent(place, Stage::Signed(Signed::Bound(number))),
        Plain::Quot => telling(place, Stage::Nodes, CertEvent::Quot(number)),
        Plain::Fact(by) => telling(place, Stage::Pairs, CertEvent::Pair(by, number)),
    }
}

/// Where a number is awaited.
#[inline(always)]
fn with_number(place: &mut Place, awaited: Plain, sign: Sign) -> Taken
    ensures { (place.new, result) ≡ steps.with_number place.old awaited sign }
{
    match sign {
        Sign::Number(number) => plain_read(place, awaited, number),
        _ => refused(place),
    }
}

/// With the number with a sign that was awaited.
#[inline(always)]
fn signed_read(place: &mut Place, awaited: Signed, number: i64) -> Taken
    ensures { (place.new, result) ≡ steps.signed_read place.old awaited number }
{
    match awaited {
        Signed::Bound(variable) => {
            telling(place, Stage::Nodes, CertEvent::Split(variable, number))
        }
        Signed::Divisor => telling(place, Stage::Pairs, CertEvent::Round(number)),
        Signed::Constant => telling(place, Stage::Pairs, CertEvent::Share(number)),
        Signed::Multiplier => silent(place, Stage::Times(number)),
    }
}

/// Where a number or a minus is awaited.
#[inline(always)]
fn with_sign(place: &mut Place, awaited: Signed, sign: Sign) -> Taken
    ensures { (place.new, result) ≡ steps.with_sign place.old awaited sign }
{
    match sign {
        Sign::Minus => silent(place, Stage::Negative(awaited)),
        Sign::Number(number) => signed_read(place, awaited, integer_of(false, number)),
        _ => refused(place),
    }
}

/// Behind a minus.
#[inline(always)]
fn negative(place: &mut Place, awaited: Signed, sign: Sign) -> Taken
    ensures { (place.new, result) ≡ steps.negative place.old awaited sign }
{
    match sign {
        Sign::Number(number) => signed_read(place, awaited, integer_of(true, number)),
        _ => refused(place),
    }
}

/// Behind the first number of a pair.
#[inline(always)]
fn times(place: &mut Place, by: i64, sign: Sign) -> Taken
    ensures { (place.new, result) ≡ steps.times place.old by sign }
{
    match sign {
        Sign::Times => silent(place, Stage::Plain(Plain::Fact(by))),
        _ => refused(place),
    }
}

/// Where a token leads, and what it tells.
#[inline(always)]
pub fn step(place: &mut Place, sign: Sign) -> Taken
    requires missing { place.old.missing < 2 ^ 64 - 1 }
    requires number { place.old.number < 2 ^ 64 - 1 }
    ensures { (place.new, result) ≡ steps.step place.old sign }
{
    match place.stage {
        Stage::Between => between(place, sign),
        Stage::Numbered => numbered(place, sign),
        Stage::Nodes => nodes(place, sign),
        Stage::Pairs => pairs(place, sign),
        Stage::Plain(awaited) => with_number(place, awaited, sign),
        Stage::Signed(awaited) => with_sign(place, awaited, sign),
        Stage::Negative(awaited) => negative(place, awaited, sign),
        Stage::Times(by) => times(place, by, sign),
        Stage::Done => refused(place),
        Stage::Bad => refused(place),
    }
}
