//! Chains that an elimination finds: a round of each fact that is divided, and a sum.
ghost use Rattle.std.specs.Prelude.{◌≡◌, ◌<◌, ◌^◌, length, true, IfOk, IfSome};
ghost use Rattle.linear_prover.specs.Chains.{Closes};

use crate::bounds::bounds_of;
use crate::columns::{Column, Columns, columns_of, rows_of};
use crate::judging::is_closing;
use obligations::{Fact, Node};
use search_simplex::{Multiple, multipliers};
use std::alloc::{AllocError, Global};
use unity_base::Seq;

/// The most rounds before a sum.
const ROUNDS: usize = 63;

/// The most cells of a matrix.
const CELLS: usize = 1 << 16;

/// The number of a place, from 1.
fn number_of(place: usize) -> u64 {
    (place as u64).saturating_add(1)
}

/// A chain that is being made: its rounds, the pairs of its sum, and the number of the next fact.
#[derive(Drop)]
struct Chain {
    rounds: Seq<Node>,
    pairs: Seq<(i64, u64)>,
    next: usize,
}

/// Adds the round of a column, and the pair of the new fact.
fn add_round(
    alloc: Global,
    times: i64,
    column: &Column,
    chain: &mut Chain,
) -> Result<(), AllocError> {
    let mut pairs = Seq::new(alloc);
    pairs.push((1, number_of(column.place)))?;
    chain.rounds.push(Node::Round(column.divisor, pairs))?;
    chain.pairs.push((times, number_of(chain.next)))?;
    chain.next = chain.next.saturating_add(1);
    Ok(())
}

/// Adds a multiple of a column.
fn add_multiple(
    alloc: Global,
    multiple: &Multiple,
    columns: &[Column],
    chain: &mut Chain,
) -> Result<(), AllocError> {
    match columns.get(multiple.column as usize) {
        Some(column) => {
            if column.divisor > 1 {
                add_round(alloc, multiple.times, column, chain)
            } else {
                chain.pairs.push((multiple.times, number_of(column.place)))
            }
        }
        None => Ok(()),
    }
}

/// The chain of multiples among so many facts. `None` where it has too many rounds.
fn chain_of(
    alloc: Global,
    total: usize,
    columns: &[Column],
    multiples: &[Multiple],
) -> Result<Option<Seq<Node>>, AllocError> {
    let mut chain = Chain {
        rounds: Seq::new(alloc),
        pairs: Seq::new(alloc),
        next: total,
    };
    for multiple in multiples {
        add_multiple(alloc, multiple, columns, &mut chain)?;
    }
    let Chain {
        rounds: mut nodes,
        pairs,
        next: _,
    } = chain;
    if nodes.len() > ROUNDS {
        return Ok(None);
    }
    nodes.push(Node::Sum(pairs))?;
    Ok(Some(nodes))
}

/// A chain that the simplex method finds.
fn candidate(
    alloc: Global,
    facts: &[Fact],
    columns: &Columns,
) -> Result<Option<Seq<Node>>, AllocError> {
    if columns
        .variables
        .len()
        .saturating_add(2)
        .saturating_mul(columns.columns.len())
        > CELLS
    {
        return Ok(None);
    }
    match multipliers(
        alloc,
        rows_of(alloc, facts, columns)?,
        columns.columns.len(),
    )? {
        Some(multiples) => chain_of(
            alloc,
            facts.len(),
            columns.columns.as_slice(),
            multiples.as_slice(),
        ),
        None => Ok(None),
    }
}

/// A chain, where it refutes the facts.
fn judged_chain(
    alloc: Global,
    facts: &[Fact],
    count: u32,
    chain: Seq<Node>,
) -> Result<Option<Seq<Node>>, AllocError>
    ensures { IfOk result (λ o. IfSome o (Closes count facts.now)) }
{
    if is_closing(alloc, facts, count, chain.as_slice())? {
        Ok(Some(chain))
    } else {
        Ok(None)
    }
}

/// The columns of facts, with the tightest bounds of their variables.
fn bounded_columns(alloc: Global, facts: &[Fact], count: u32) -> Result<Columns, AllocError>
    requires { length facts.now < 2 ^ 62 }
{
    let bounds = bounds_of(alloc, facts, count)?;
    columns_of(alloc, facts, count, &bounds)
}

/// A chain that the simplex method finds.
fn found_chain(alloc: Global, facts: &[Fact], count: u32) -> Result<Option<Seq<Node>>, AllocError>
    requires { length facts.now < 2 ^ 62 }
{
    let columns = bounded_columns(alloc, facts, count)?;
    candidate(alloc, facts, &columns)
}

/// A chain that refutes the facts, found by elimination. `None` says only that none was found.
pub fn eliminate(alloc: Global, facts: &[Fact], count: u32) -> Result<Option<Seq<Node>>, AllocError>
    requires { length facts.now < 2 ^ 62 }
    ensures { IfOk result (λ o. IfSome o (Closes count facts.now)) }
{
    match found_chain(alloc, facts, count)? {
        Some(chain) => judged_chain(alloc, facts, count, chain),
        None => Ok(None),
    }
}
