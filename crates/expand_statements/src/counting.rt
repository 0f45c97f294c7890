//! How many statements items have, and whether a program has too many.

ghost use Rattle.std.specs.Prelude.{◌≡◌, map, length, IfOk, OnOk};
ghost use Rattle.expand_counting.specs.Nests.{LeavesRoom};
ghost use Rattle.expand_rules.specs.Lists.{item_count, items_count, total};
ghost use Rattle.names_rules.specs.Answers.{Demands};
ghost use Rattle.expand_statements.specs.Standing.{standing_in};
ghost use Rattle.expand_statements.specs.Counts.{statements_fault};

use crate::chains::Chain;
use case_tables::Code;
use expand_counting::room_after;
use names_rules::NameFault;
use std::alloc::{AllocError, Global};
use unity_base::Seq;
use unity_syntax::{Item, Items, Name};

#[cycle(count)]
fn room_after_item<'a>(
    alloc: Global,
    item: &'a Item,
    chain: &mut Chain<'a>,
    room: u64,
) -> Result<Option<u64>, AllocError>
    requires { length chain.old.names ≡ length chain.old.ranges }
    ensures count { IfOk result (λ r. LeavesRoom r room (item_count item.now (standing_in chain.old))) }
    ensures chain { OnOk result (chain.new ≡ chain.old) }
{
    match item {
        Item::Statement {
            at: _,
            label: _,
            assign: _,
        } => room_after(alloc, chain.ranges.as_slice(), room),
        Item::Quantified {
            at: _,
            name,
            range,
            of,
        } => {
            chain.enter(name, range)?;
            let left = room_after_items(alloc, of.get(), chain, room)?;
            chain.leave();
            Ok(left)
        }
    }
}

/// How much of a room for statements is left by those of items inside lists. `None` exactly where there are more of
/// them. An error says that memory was refused, and then the chain is of no more use.
#[cycle(count)]
pub fn room_after_items<'a>(
    alloc: Global,
    items: &'a Items,
    chain: &mut Chain<'a>,
    room: u64,
) -> Result<Option<u64>, AllocError>
    requires { length chain.old.names ≡ length chain.old.ranges }
    ensures count { IfOk result (λ r. LeavesRoom r room (items_count items.now (standing_in chain.old))) }
    ensures chain { OnOk result (chain.new ≡ chain.old) }
{
    match room_after_item(alloc, &items.first, chain, room)? {
        None => Ok(None),
        Some(left) => room_after_further(alloc, &items.rest, chain, left),
    }
}

#[cycle(count)]
fn room_after_further<'a>(
    alloc: Global,
    list: &'a Seq<Item>,
    chain: &mut Chain<'a>,
    room: u64,
) -> Result<Option<u64>, AllocError>
    requires { length chain.old.names ≡ length chain.old.ranges }
    ensures count { IfOk result (λ r. LeavesRoom r room
        (total (map (λ i. item_count i (standing_in chain.old)) list.now))) }
    ensures chain { OnOk result (chain.new ≡ chain.old) }
{
    let mut left = room;
    for item in list.as_slice() {
        match room_after_item(alloc, item, chain, left)? {
            Some(fewer) => left = fewer,
            None => return Ok(None),
        }
    }
    Ok(Some(left))
}

/// How many statements a program may have.
const MOST_STATEMENTS: u64 = 4_096;

/// `TooLarge` at the name of a program where its statements are more than 4,096. `Memory` says that memory was
/// refused.
pub fn check_count(alloc: Global, name: &Name, items: &Items) -> Result<(), NameFault>
    ensures { Demands result (statements_fault name.now items.now) }
{
    let mut chain = Chain::new(alloc);
    match room_after_items(alloc, items, &mut chain, MOST_STATEMENTS)? {
        None => Err(NameFault::Fault {
            code: Code::TooLarge,
            at: name.at,
        }),
        Some(_) => Ok(()),
    }
}
