//! What is asked of nested ranges.

ghost use Rattle.std.specs.Prelude.{◌≡◌, ◌∷◌, [], length, not, IfOk};
ghost use Rattle.std.specs.List.{list_any};
ghost use Rattle.expand_counting.specs.Nests.{LeavesRoom, TakesTurns, end_number, instances, is_nest_empty, end_fits};
ghost use Rattle.expand_counting.specs.Conditions.{all_hold, empty_conditions, meeting};

use crate::conditions::{above_limit, below_limit, over, push_fit};
use crate::plans::plan;
use crate::ranges::{Condition, Counted, NestEnd, NestRange};
use crate::walk::{count, do_hold, push_instances};
use std::alloc::{AllocError, Global};
use unity_base::Seq;

/// The room that is left by the instances that meet the conditions, with the turns that are taken.
#[tactic(auto, using(crate::proofs::PlanLaws::none_meets))]
fn counted(
    alloc: Global,
    ranges: &[NestRange],
    leaf: &[Condition],
    room: u64,
) -> Result<Counted, AllocError>
    ensures left { IfOk result (λ c. LeavesRoom c.left room (meeting ranges.now leaf.now [])) }
    ensures turns { IfOk result (λ c. TakesTurns c.left room 0 c.turns) }
{
    let mut plans = Seq::new(alloc);
    let needed = plan(alloc, ranges, 0, leaf, &mut plans)?;
    let mut values = Seq::new(alloc);
    let mut turns = 0;
    let left = if do_hold(values.as_slice(), needed.as_slice()) {
        count(
            ranges,
            plans.as_slice(),
            leaf,
            &mut values,
            room,
            &mut turns,
        )?
    } else {
        Some(room)
    };
    Ok(Counted { left, turns })
}

/// How much of a room for instances is left by those of nested ranges, the outermost first, and in how many turns this
/// was counted. A turn is taken for each number of a range that is tried, and one for all of them; each instance that
/// took room had one. An error says that memory was refused.
#[tactic(auto, using(crate::proofs::QuestionLaws::meeting_all))]
pub fn room_and_turns(alloc: Global, ranges: &[NestRange], room: u64) -> Result<Counted, AllocError>
    ensures left { IfOk result (λ c. LeavesRoom c.left room (length (instances ranges.now []))) }
    ensures turns { IfOk result (λ c. TakesTurns c.left room 0 c.turns) }
{
    counted(alloc, ranges, &[], room)
}

/// How much of a room for instances is left by those of nested ranges, the outermost first. `None` exactly where
/// there are more of them. An error says that memory was refused.
///
/// The time taken is a small multiple of the room, whatever the sizes of the ranges.
pub fn room_after(alloc: Global, ranges: &[NestRange], room: u64) -> Result<Option<u64>, AllocError>
    ensures { IfOk result (λ r. LeavesRoom r room (length (instances ranges.now []))) }
{
    Ok(room_and_turns(alloc, ranges, room)?.left)
}

/// Whether an instance meets the conditions.
#[tactic(auto, using(crate::proofs::QuestionLaws::met_without_room))]
fn is_ever(alloc: Global, ranges: &[NestRange], leaf: &[Condition]) -> Result<bool, AllocError>
    ensures { IfOk result (λ b. b ≡ list_any (λ vs. all_hold vs leaf.now) (instances ranges.now [])) }
{
    Ok(counted(alloc, ranges, leaf, 0)?.left.is_none())
}

fn empty_conditions(alloc: Global, range: &NestRange) -> Result<Seq<Condition>, AllocError>
    ensures { IfOk result (λ list. list ≡ empty_conditions range.now) }
{
    let mut list = Seq::new(alloc);
    list.push(over(range))?;
    push_fit(&range.low, &mut list)?;
    push_fit(&range.high, &mut list)?;
    Ok(list)
}

/// Whether a range has its low end above its high end, with both within plus or minus 1,000,000,000, in an instance
/// of the ranges around it. An error says that memory was refused.
pub fn is_ever_empty(
    alloc: Global,
    outer: &[NestRange],
    range: &NestRange,
) -> Result<bool, AllocError>
    ensures { IfOk result (λ b. b ≡ list_any (λ vs. is_nest_empty vs range.now) (instances outer.now [])) }
{
    let leaf = empty_conditions(alloc, range)?;
    is_ever(alloc, outer, leaf.as_slice())
}

/// Whether an end lies outside plus or minus 1,000,000,000 in an instance of the ranges around it. An error says that
/// memory was refused.
pub fn is_ever_large(alloc: Global, outer: &[NestRange], end: &NestEnd) -> Result<bool, AllocError>
    ensures { IfOk result (λ b. b ≡ list_any (λ vs. not (end_fits (end_number vs end.now))) (instances outer.now [])) }
{
    Ok(is_ever(alloc, outer, &[above_limit(end)])? || is_ever(alloc, outer, &[below_limit(end)])?)
}

/// The instances of nested ranges, each with the numbers of all ranges, the outermost first. An error says that memory
/// was refused.
///
/// There is a turn for each number of a range inside others, also where the ranges in it have none.
pub fn all_instances(alloc: Global, ranges: &[NestRange]) -> Result<Seq<Seq<i64>>, AllocError>
    ensures { IfOk result (λ list. list ≡ instances ranges.now []) }
{
    let mut list = Seq::new(alloc);
    let mut values = Seq::new(alloc);
    push_instances(alloc, ranges, &mut values, &mut list)?;
    Ok(list)
}
