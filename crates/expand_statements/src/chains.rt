//! The lists around an item.

ghost use Rattle.std.specs.Prelude.{◌≡◌, [], map, length, OnOk};
ghost use Rattle.expand_statements.specs.Chains.{chain_end, chain_range, is_minus, last_place};

use case_tables::Symbol;
use expand_counting::{NestEnd, NestRange};
use std::alloc::{AllocError, Global};
use unity_base::Seq;
use unity_syntax::{End, Name, Range};

/// The lists around an item, the outermost first: the name that each binds, and its range, whose ends may be
/// the numbers of the lists around it.
#[derive(Drop)]
pub struct Chain<'a> {
    pub names: Seq<&'a Name>,
    pub ranges: Seq<NestRange>,
}

fn is_minus(symbol: Symbol) -> bool
    ensures { result ≡ is_minus symbol }
{
    match symbol {
        Symbol::Minus => true,
        _ => false,
    }
}

/// The innermost list that binds a name, as its place from the outermost on.
fn level_of(names: &[&Name], name: &Name) -> Option<usize>
    ensures { result ≡ last_place name.now.text (map (λ n. n.now.text) names.now) }
{
    let mut level = None;
    for (place, bound) in names.iter().enumerate() {
        if name.text.as_slice() == bound.text.as_slice() {
            level = Some(place);
        }
    }
    level
}

/// An end of a range inside lists that bind these names.
pub fn nest_end(names: &[&Name], end: &End) -> NestEnd
    ensures { result ≡ chain_end (map (λ n. n.now.text) names.now) end.now }
{
    match end {
        End::Number {
            at: _,
            minus,
            number,
        } => NestEnd {
            level: None,
            minus: *minus,
            number: *number,
        },
        End::Word {
            at: _,
            name,
            offset: None,
        } => NestEnd {
            level: level_of(names, name),
            minus: false,
            number: 0,
        },
        End::Word {
            at: _,
            name,
            offset: Some((symbol, number)),
        } => NestEnd {
            level: level_of(names, name),
            minus: is_minus(*symbol),
            number: *number,
        },
    }
}

/// A range inside lists that bind these names.
pub fn nest_range(names: &[&Name], range: &Range) -> NestRange
    ensures { result ≡ chain_range (map (λ n. n.now.text) names.now) range.now }
{
    NestRange {
        low: nest_end(names, &range.low),
        high: nest_end(names, &range.high),
    }
}

impl<'a> Chain<'a> {
    ghost use Rattle.expand_statements.specs.Standing.{IsInside, standing_in};
    ghost use Rattle.expand_rules.specs.Lists.{inside};

    /// No list.
    pub fn new(alloc: Global) -> Chain<'a>
        ensures names { result.names ≡ [] }
        ensures ranges { result.ranges ≡ [] }
    {
        Chain {
            names: Seq::new(alloc),
            ranges: Seq::new(alloc),
        }
    }

    /// Goes into a list. Where memory is refused the chain is of no more use.
    #[tactic(auto, using(crate::proofs::StandingLaws::standing_inside))]
    pub fn enter(&mut self, name: &'a Name, range: &Range) -> Result<(), AllocError>
        requires { length self.old.names ≡ length self.old.ranges }
        ensures paired { OnOk result (length self.new.names ≡ length self.new.ranges) }
        ensures items { OnOk result (standing_in self.new ≡ inside name.now.text range.now (standing_in self.old)) }
        ensures back { OnOk result (IsInside self.old self.new) }
    {
        let nested = nest_range(self.names.as_slice(), range);
        self.names.push(name)?;
        self.ranges.push(nested)?;
        Ok(())
    }

    /// Goes out of the innermost list.
    #[tactic(auto, using(crate::proofs::StandingLaws::left_chain))]
    pub fn leave(&mut self)
        ensures { (outer : Chain) → IsInside outer self.old → self.new ≡ outer }
    {
        self.names.pop();
        self.ranges.pop();
    }
}
