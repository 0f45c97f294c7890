// Facts over three variables, and the chains that are found to close them. That each chain closes them is proved.
ghost use Rattle.std.specs.Prelude.{◌≡◌, true, IfOk, OnOk};
ghost use Rattle.std.specs.List.{list_all};
ghost use Rattle.linear_prover.specs.Exact.{is_fact};

use linear_prover::close;
use obligations::{Fact, Factors};
use std::alloc::{AllocError, Global};
use std::test::Fail;
use unity_base::Seq;

// That x, y and z times the first three numbers and the last number add up to 0 at least.
#[derive(Clone, Copy)]
struct Row(i64, i64, i64, i64);

// A row's fact. Its factors are not in the order of their variables, and some may be 0.
fn fact_of(alloc: Global, row: &Row) -> Result<Fact, AllocError>
    ensures { IfOk result (λ f. is_fact 3 f ≡ true) }
{
    let mut factors = Factors::new(alloc);
    factors.push((2, row.2 as i128))?;
    factors.push((0, row.0 as i128))?;
    factors.push((1, row.1 as i128))?;
    Ok(Fact {
        factors,
        constant: row.3 as i128,
    })
}

// Adds the facts of rows.
fn add_facts(alloc: Global, rows: &[Row], facts: &mut Seq<Fact>) -> Result<(), AllocError>
    requires { list_all (is_fact 3) facts.old ≡ true }
    ensures { OnOk result (list_all (is_fact 3) facts.new ≡ true) }
{
    for row in rows {
        facts.push(fact_of(alloc, row)?)?;
    }
    Ok(())
}

// How many nodes the chain has that is found where x, y and z are from 0 to the greatest number and the rows hold; 0
// where none is found.
fn closing(alloc: Global, greatest: i64, rows: &[Row]) -> Result<usize, AllocError> {
    let ranges = [
        Row(1, 0, 0, 0),
        Row(-1, 0, 0, greatest),
        Row(0, 1, 0, 0),
        Row(0, -1, 0, greatest),
        Row(0, 0, 1, 0),
        Row(0, 0, -1, greatest),
    ];
    let mut facts = Seq::new(alloc);
    add_facts(alloc, ranges.as_slice(), &mut facts)?;
    add_facts(alloc, rows, &mut facts)?;
    match close(alloc, facts.as_slice(), 3)? {
        Some(nodes) => Ok(nodes.len()),
        None => Ok(0),
    }
}

// One fact that the bounds of its variables refute, or that has none: a sum.
#[test]
fn closes_by_bounds(rt: HostRuntime) -> Result<(), Fail> {
    assert!(rt; closing(rt.alloc(), 10, [Row(1, 1, 1, -31)].as_slice())? == 1);
    assert!(rt; closing(rt.alloc(), 10, [Row(2, -1, 0, -21)].as_slice())? == 1);
    assert!(rt; closing(rt.alloc(), 10, [Row(0, 0, 0, -1)].as_slice())? == 1);
    Ok(())
}

// Two facts of which each says the opposite of the other, once both are divided: two rounds and a sum.
#[test]
fn closes_by_a_clash(rt: HostRuntime) -> Result<(), Fail> {
    for greatest in [10, 1_000_000_000] {
        let halves = [Row(2, -2, 0, -1), Row(-2, 2, 0, 1)];
        assert!(rt; closing(rt.alloc(), greatest, halves.as_slice())? == 3);
    }
    Ok(())
}

// Three facts of which no two clash. In the second case numbers that are not whole would meet them, so each chain
// has a round.
#[test]
fn closes_by_elimination(rt: HostRuntime) -> Result<(), Fail> {
    let ring = [Row(-1, 1, 0, -1), Row(0, -1, 1, -1), Row(1, 0, -1, -1)];
    assert!(rt; closing(rt.alloc(), 1_000_000_000, ring.as_slice())? >= 1);
    let halves = [Row(2, -2, 0, -1), Row(0, 1, -1, 0), Row(-2, 0, 2, 1)];
    assert!(rt; closing(rt.alloc(), 1_000_000_000, halves.as_slice())? >= 2);
    Ok(())
}

// Facts that some values meet: 0 and 0 and 0, or 10 and 10 and 10.
#[test]
fn leaves_what_can_be_met(rt: HostRuntime) -> Result<(), Fail> {
    let met = [Row(1, 1, 1, -30), Row(1, -1, 0, 0)];
    assert!(rt; closing(rt.alloc(), 10, [].as_slice())? == 0);
    assert!(rt; closing(rt.alloc(), 10, met.as_slice())? == 0);
    Ok(())
}
