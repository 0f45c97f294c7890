// How long counting takes, which no clause says: the ranges have up to 10^18 numbers, and few of these count.
use expand_counting::{NestEnd, NestRange, is_ever_empty, is_ever_large, room_and_turns};
use std::alloc::{AllocError, Global};
use std::test::Fail;

const MOST: u64 = 1_000_000_000;

fn constant(number: u64) -> NestEnd {
    NestEnd {
        level: None,
        minus: false,
        number,
    }
}

fn named(level: usize, number: u64) -> NestEnd {
    NestEnd {
        level: Some(level),
        minus: false,
        number,
    }
}

fn below(level: usize, number: u64) -> NestEnd {
    NestEnd {
        level: Some(level),
        minus: true,
        number,
    }
}

fn range(low: NestEnd, high: NestEnd) -> NestRange {
    NestRange { low, high }
}

#[test]
fn finds_one_number_among_many(rt: HostRuntime) -> Result<(), Fail> {
    let alloc = rt.alloc();
    let wide = range(constant(1), constant(MOST));
    let outer = [wide, wide];

    // Only i = 10^9 with j = 1 is so far above j.
    let far = range(named(0, 0), named(1, 999_999_998));
    assert!(rt; is_ever_empty(alloc, &outer, &far)?);

    // 1 - 10^9 - 1 is not too large, and 1 - 10^9 - 2 is.
    assert!(rt; !is_ever_large(alloc, &outer, &below(1, 1_000_000_001))?);
    assert!(rt; is_ever_large(alloc, &outer, &below(1, 1_000_000_002))?);
    Ok(())
}

// Whether nested ranges have so many instances, and at most one turn is taken for each of them at each range.
fn turns_are_few(alloc: Global, ranges: &[NestRange], instances: u64) -> Result<bool, AllocError> {
    let counted = room_and_turns(alloc, ranges, 4_096)?;
    let most = (ranges.len() as u64)
        .saturating_mul(instances)
        .saturating_add(1);
    let left = 4_096_u64.checked_sub(instances);
    Ok(counted.left == left && counted.turns <= most)
}

#[test]
fn takes_no_turn_without_an_instance(rt: HostRuntime) -> Result<(), Fail> {
    let alloc = rt.alloc();
    let wide = range(constant(1), constant(MOST));

    // Each number is 999999999 or 10^9, and none is above the one before it; or it is 1 or 2, and none is below.
    let mut falling = [wide; 6];
    let mut rising = [wide; 6];
    for level in 0..5 {
        falling[level + 1] = range(constant(999_999_999), named(level, 0));
        rising[level + 1] = range(named(level, 0), constant(2));
    }
    for depth in 2..=6 {
        let few = depth as u64 + 1;
        assert!(rt; turns_are_few(alloc, &falling[..depth], few)?);
        assert!(rt; turns_are_few(alloc, &rising[..depth], few)?);
    }
    Ok(())
}

#[test]
fn takes_no_turn_where_the_last_range_is_empty(rt: HostRuntime) -> Result<(), Fail> {
    let alloc = rt.alloc();
    let wide = range(constant(1), constant(MOST));

    // Steps of so much leave one instance more than there are ranges, and the last number ties the first.
    let step = 499_999_999;
    let steps = [
        wide,
        range(named(0, step), constant(MOST)),
        range(named(1, step), constant(MOST)),
    ];
    assert!(rt; turns_are_few(alloc, &steps, 4)?);

    // Where the last range is empty, no number is tried.
    let mut none = [wide; 6];
    none[5] = range(constant(5), constant(4));
    assert!(rt; turns_are_few(alloc, &none, 0)?);
    Ok(())
}

#[test]
fn stops_at_the_first_instance_too_many(rt: HostRuntime) -> Result<(), Fail> {
    let alloc = rt.alloc();
    let wide = range(constant(1), constant(MOST));

    // With 10^18 instances, one more than the room is counted, and one number i is tried.
    let counted = room_and_turns(alloc, &[wide, wide], 4_096)?;
    assert!(rt; counted.left == None);
    assert!(rt; counted.turns == 4_099);
    Ok(())
}
