//! How large assignments are, from how large their parts are.

ghost use Rattle.std.specs.Prelude.{◌≡◌, ◌+◌, ◌*◌, ◌^◌, ◌<◌, ◌≤◌, ◌||◌, max, not, nat_le, Ok, Err};
ghost use Rattle.std.specs.Int.RustNames.{unsigned_abs};
ghost use Rattle.expand_rules.specs.Measures.{counted};
ghost use Rattle.expand_rules.specs.Counts as parts;
ghost use Rattle.expand_rules.specs.Assigning as spec;
ghost use Rattle.expand_assignments.specs.Adding.{CountsPart, one_node};

use core_terms::Range;
use expand_expressions::Refusal;
use expand_rules::{Count, Effect, Flaws, Measure};

// A size, counted up to one past its limit.
fn counted(size: u64) -> u64
    ensures { result ≡ counted size }
{
    size.min(65_537)
}

/// Both counts together.
pub fn both_counts(a: Count, b: Count) -> Count
    ensures { result ≡ parts.both_counts a b }
{
    Count {
        size: counted(a.size.saturating_add(b.size)),
        most: a.most.max(b.most),
        flaws: a.flaws.and(b.flaws),
    }
}

/// One node more.
pub fn one_node_more(count: Count) -> Count
    ensures { result ≡ parts.one_node_more count }
{
    Count {
        size: counted(count.size.saturating_add(1)),
        most: count.most,
        flaws: count.flaws,
    }
}

fn whole(m: Measure) -> u64
    ensures { result ≡ parts.whole m }
{
    m.size.max(m.quantified)
}

/// A condition and a value.
pub fn write_count(c: Measure, v: Measure) -> Count
    ensures { result ≡ spec.write_count c v }
{
    Count {
        size: counted(whole(c).saturating_add(whole(v))),
        most: c.most.max(v.most),
        flaws: c.flaws.and(v.flaws),
    }
}

/// An index that is no part of the core.
pub fn index_count(i: Measure) -> Count
    ensures { result ≡ parts.index_count i }
{
    Count {
        size: counted(i.quantified),
        most: i.most,
        flaws: i.flaws,
    }
}

/// An index where there is no array, or a condition of which there is no write.
pub fn stray_count(i: Measure) -> Count
    ensures { result ≡ parts.stray_count i }
{
    Count {
        size: counted(whole(i)),
        most: i.most,
        flaws: i.flaws,
    }
}

fn times(count: u64, nodes: u128) -> u128
    requires few { count ≤ 2 ^ 32 }
    requires light { nodes < 2 ^ 70 }
    ensures value { result ≡ count * nodes }
    ensures bound { result < 2 ^ 102 }
{
    count as u128 * nodes
}

fn spread_nodes(count: u64, i: u64, c: u64, v: u64) -> u64
    requires { count ≤ 2 ^ 32 }
    ensures { result ≡ counted (spec.spread_nodes count i c v) }
{
    let writes = times(count, c as u128 + i as u128 + v as u128 + 4);
    let outside = times(count, i as u128 + 4) + c as u128 + 1;
    (writes + outside).min(65_537) as u64
}

/// An index that may be each of so many, from one to another.
pub fn spread_count(count: u64, ends: Range, i: Measure, c: Measure, v: Measure) -> Count
    requires few { count ≤ 2 ^ 32 }
    requires light { i.own < 2 ^ 63 }
    ensures { result ≡ spec.spread_count count (ends.lo, ends.hi) i c v }
{
    let own = i.own + ends.lo.unsigned_abs().max(ends.hi.unsigned_abs());
    Count {
        size: spread_nodes(count.max(1), whole(i), whole(c), whole(v)),
        most: own.max(i.most.max(c.most.max(v.most))),
        flaws: i.flaws.and(c.flaws.and(v.flaws)),
    }
}

/// With what fails beside it.
pub fn flawed_count(flaws: Flaws, count: Count) -> Count
    ensures { result ≡ parts.flawed_count flaws count }
{
    Count {
        size: count.size,
        most: count.most,
        flaws: flaws.and(count.flaws),
    }
}

/// Whether an assignment is too large.
pub fn is_large(count: &Count) -> bool
    ensures { result ≡ (not (nat_le count.now.most (2 ^ 62)) || not (nat_le count.now.size 65536)) }
{
    count.most > 1 << 62 || count.size > 65_536
}

/// Counts a part. `TooLarge` exactly where the whole is too large.
pub fn count_in(part: Count, effect: &mut Effect) -> Result<(), Refusal>
    ensures { CountsPart result effect.old effect.new part }
{
    effect.count = both_counts(effect.count, part);
    if is_large(&effect.count) {
        Err(Refusal::TooLarge)
    } else {
        Ok(())
    }
}

/// Counts one node more.
pub fn count_one(effect: &mut Effect) -> Result<(), Refusal>
    ensures { CountsPart result effect.old effect.new one_node }
{
    let one = Count {
        size: 1,
        most: 0,
        flaws: Flaws::none(),
    };
    count_in(one, effect)
}
