//! The first fault of a program's statements.

ghost use Rattle.std.specs.Prelude.{◌≡◌, ◌∷◌, [], map, length, OnOk};
ghost use Rattle.names_rules.specs.Answers.{Demands};
ghost use Rattle.expand_rules.specs.Assigning.{among, effect_of};
ghost use Rattle.expand_rules.specs.Lists as lists;
ghost use Rattle.expand_expressions.specs.Places.{IsReady};
ghost use Rattle.expand_statements.specs.Chains.{bound_inside};
ghost use Rattle.expand_statements.specs.Standing.{standing_in};
ghost use Rattle.expand_statements.specs.Visiting.{GivesFault, scope_among};

use crate::chains::Chain;
use crate::places::check_range;
use crate::visiting::instance_flaws;
use case_tables::Code;
use expand_counting::all_instances;
use expand_expressions::{Known, Refusal};
use expand_rules::Flaws;
use names_rules::NameFault;
use std::alloc::Global;
use unity_base::Seq;
use unity_syntax::{Assign, Item, Items, Name};

// What fails in these instances.
#[tactic(auto, using(crate::proofs::FaultLaws::fault_next, crate::proofs::FaultLaws::fault_large))]
fn all_flaws(
    alloc: Global,
    label: &Name,
    a: &Assign,
    names: &[&Name],
    list: &[Seq<i64>],
    known: &Known,
) -> Result<Flaws, NameFault>
    requires { IsReady known.now }
    ensures { GivesFault result (lists.statement_fault label.now (map (λ vs. effect_of a.now
        (among (scope_among known.now []) (bound_inside [] (map (λ n. n.now.text) names.now) vs))) list.now)) }
{
    let mut flaws = Flaws::none();
    for values in list {
        match instance_flaws(alloc, names, values.as_slice(), a, known) {
            Ok(found) => flaws = flaws.and(found),
            Err(Refusal::TooLarge) => {
                return Err(NameFault::Fault {
                    code: Code::TooLarge,
                    at: label.at,
                });
            }
            Err(Refusal::Memory) => return Err(NameFault::Memory),
        }
    }
    Ok(flaws)
}

fn check_statement(
    alloc: Global,
    label: &Name,
    a: &Assign,
    chain: &Chain,
    known: &Known,
) -> Result<(), NameFault>
    requires { IsReady known.now }
    ensures { Demands result (lists.statement_fault label.now
        (map (λ b. effect_of a.now (among (scope_among known.now []) b)) (standing_in chain.now))) }
{
    let list = all_instances(alloc, chain.ranges.as_slice())?;
    let flaws = all_flaws(
        alloc,
        label,
        a,
        chain.names.as_slice(),
        list.as_slice(),
        known,
    )?;
    flaws.check()
}

#[cycle(check)]
fn check_item<'a>(
    alloc: Global,
    item: &'a Item,
    chain: &mut Chain<'a>,
    known: &Known,
) -> Result<(), NameFault>
    requires ready { IsReady known.now }
    requires paired { length chain.old.names ≡ length chain.old.ranges }
    ensures fault { Demands result (lists.item_fault (scope_among known.now []) item.now (standing_in chain.old)) }
    ensures chain { OnOk result (chain.new ≡ chain.old) }
{
    match item {
        Item::Statement {
            at: _,
            label,
            assign,
        } => check_statement(alloc, label, assign, chain, known),
        Item::Quantified {
            at: _,
            name,
            range,
            of,
        } => {
            check_range(alloc, range, chain)?;
            chain.enter(name, range)?;
            check_all(alloc, of.get(), chain, known)?;
            chain.leave();
            Ok(())
        }
    }
}

#[cycle(check)]
fn check_all<'a>(
    alloc: Global,
    items: &'a Items,
    chain: &mut Chain<'a>,
    known: &Known,
) -> Result<(), NameFault>
    requires ready { IsReady known.now }
    requires paired { length chain.old.names ≡ length chain.old.ranges }
    ensures fault { Demands result (lists.items_fault (scope_among known.now []) items.now (standing_in chain.old)) }
    ensures chain { OnOk result (chain.new ≡ chain.old) }
{
    check_item(alloc, &items.first, chain, known)?;
    check_further(alloc, &items.rest, chain, known)
}

#[cycle(check)]
fn check_further<'a>(
    alloc: Global,
    list: &'a Seq<Item>,
    chain: &mut Chain<'a>,
    known: &Known,
) -> Result<(), NameFault>
    requires ready { IsReady known.now }
    requires paired { length chain.old.names ≡ length chain.old.ranges }
    ensures fault { Demands result (lists.first_fault (map
        (λ i. lists.item_fault (scope_among known.now []) i (standing_in chain.old)) list.now)) }
    ensures chain { OnOk result (chain.new ≡ chain.old) }
{
    for item in list.as_slice() {
        check_item(alloc, item, chain, known)?;
    }
    Ok(())
}

/// The first fault of a program's statements, in the order of the text. It is `BadRange` at the range of a list that is
/// empty in an instance, or at an end of it that is too large in one; `TooLarge` at the label of a statement that is
/// too large in an instance; and, at what of these stands first in a statement, `BadRange` at an end of a range inside
/// it that is too large in one, and `BadDivisor` at a divisor that is below 1 in one. `Memory` says that memory was
/// refused. There is a turn for each instance of a statement, so it is first to be seen that they are not too many.
pub fn check_items(alloc: Global, items: &Items, known: &Known) -> Result<(), NameFault>
    requires { IsReady known.now }
    ensures { Demands result (lists.items_fault (scope_among known.now []) items.now ([] ∷ [])) }
{
    let mut chain = Chain::new(alloc);
    check_all(alloc, items, &mut chain, known)
}
