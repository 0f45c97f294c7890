//! The statements of a program in core form, in the order of its instances.

ghost use Rattle.std.specs.Prelude.{◌≡◌, ◌∷◌, [], ◌++◌, ◌^◌, ◌≤◌, ◌<◌, ◌+ℤ◌, pos, map, None, IfOk, OnOk};
ghost use Rattle.std.specs.List.{flat_map};
ghost use Rattle.std.specs.Int.RustNames.{unsigned_abs};
ghost use Rattle.meaning_executions.specs.Counting.{count_up};
ghost use Rattle.expand_declarations.specs.WordNumbers.{word_number};
ghost use Rattle.expand_rules.specs.Assigning as spec;
ghost use Rattle.expand_rules.specs.Assigning.{statements};
ghost use Rattle.expand_rules.specs.Forming.{numbers};
ghost use Rattle.expand_rules.specs.Lists.{items_fault};
ghost use Rattle.expand_rules.specs.Programs.{core_statement};
ghost use Rattle.expand_expressions.specs.Places.{IsReady, bound_names};
ghost use Rattle.expand_statements.specs.Visiting.{scope_among};
ghost use Rattle.expand_statements.specs.Building.{SiteIsReady, fit_item, fit_items, instance_of, made_at};
ghost use Rattle.expand_statements.specs.Building.{site_numbers};

use crate::visiting::nothing;
use core_terms::CStmt;
use expand_assignments::effect_in;
use expand_declarations::WordTable;
use expand_expressions::{Env, Known, Numbers, outside, range_numbers, with_bound};
use expand_rules::{Bound, Effect};
use std::alloc::{AllocError, Global};
use unity_base::{Seq, Shared};
use unity_syntax::{Assign, Item, Items, Name};

fn copied(alloc: Global, numbers: &[i64]) -> Result<Seq<i64>, AllocError>
    ensures { IfOk result (λ list. list ≡ numbers.now) }
{
    let mut list = Seq::new(alloc);
    for number in numbers {
        list.push(*number)?;
    }
    Ok(list)
}

// These numbers, with one more inside.
fn with_index(alloc: Global, numbers: &[i64], inner: i64) -> Result<Seq<i64>, AllocError>
    ensures { IfOk result (λ list. list ≡ numbers.now ++ inner ∷ []) }
{
    let mut list = copied(alloc, numbers)?;
    list.push(inner)?;
    Ok(list)
}

// What statements are built from: the bound names and their numbers, the outermost first, what the document declares,
// and its words.
#[derive(Clone, Copy)]
struct Site<'s, 'a> {
    env: &'s Env<'s, 'a>,
    indices: &'s [i64],
    known: &'s Known<'s, 'a>,
    words: &'s WordTable<'a>,
}

// What an assignment becomes. It is not too large where the statements were found without a fault.
fn effect_of(alloc: Global, a: &Assign, site: &Site) -> Result<Effect, AllocError>
    requires { IsReady site.now.known.now }
    ensures outside { IfOk result (λ e. e.outside ≡
        (spec.effect_of a.now (scope_among site.now.known.now (bound_names site.now.env.now))).outside) }
    ensures writes { IfOk result (λ e. e.writes ≡
        (spec.effect_of a.now (scope_among site.now.known.now (bound_names site.now.env.now))).writes) }
{
    let mut effect = nothing(alloc);
    match effect_in(alloc, a, site.env, site.known, &mut effect) {
        Ok(()) => Ok(effect),
        Err(_) => Err(AllocError),
    }
}

fn push_statement(
    alloc: Global,
    label: &Name,
    a: &Assign,
    site: &Site,
    list: &mut Seq<Shared<CStmt>>,
) -> Result<(), AllocError>
    requires { SiteIsReady site.now }
    ensures { OnOk result (list.new ≡ list.old ++ made_at site.now
        (instance_of label.now (site_numbers site.now) a.now) ∷ []) }
{
    let indices = copied(alloc, site.indices)?;
    let Effect {
        outside,
        writes,
        exact: _,
        count: _,
    } = effect_of(alloc, a, site)?;
    let statement = CStmt {
        label: site.words.number(label),
        indices,
        outside,
        writes,
    };
    list.push(Shared::new(alloc, statement)?)
}

fn number_at(numbers: &Numbers, i: u64) -> i64
    requires first { unsigned_abs numbers.now.first ≤ 2 ^ 30 }
    requires within { i < 2 ^ 31 }
    ensures { result ≡ numbers.now.first +ℤ pos i }
{
    numbers.first + i as i64
}

#[cycle(build)]
fn push_item(
    alloc: Global,
    item: &Item,
    site: &Site,
    list: &mut Seq<Shared<CStmt>>,
) -> Result<(), AllocError>
    requires { SiteIsReady site.now }
    ensures { OnOk result (list.new ≡ list.old ++ map (made_at site.now) (fit_item item.now (site_numbers site.now))) }
{
    match item {
        Item::Statement {
            at: _,
            label,
            assign,
        } => push_statement(alloc, label, assign, site, list),
        Item::Quantified {
            at: _,
            name,
            range,
            of,
        } => {
            let numbers = range_numbers(range, site.env);
            push_numbers(alloc, name, &numbers, of.get(), site, list)
        }
    }
}

#[cycle(build)]
fn push_numbers(
    alloc: Global,
    name: &Name,
    taken: &Numbers,
    of: &Items,
    site: &Site,
    list: &mut Seq<Shared<CStmt>>,
) -> Result<(), AllocError>
    requires site { SiteIsReady site.now }
    requires first { unsigned_abs taken.now.first ≤ 1000000000 }
    requires count { taken.now.count ≤ 2000000001 }
    ensures { OnOk result (list.new ≡ list.old ++ map (made_at site.now)
        (flat_map (λ z. fit_items of.now ((name.now.text, z) ∷ site_numbers site.now))
        (count_up taken.now.first taken.now.count))) }
{
    for i in 0..taken.count {
        let number = number_at(taken, i);
        push_number(alloc, name, number, of, site, list)?;
    }
    Ok(())
}

#[cycle(build)]
fn push_number(
    alloc: Global,
    name: &Name,
    number: i64,
    of: &Items,
    site: &Site,
    list: &mut Seq<Shared<CStmt>>,
) -> Result<(), AllocError>
    requires { SiteIsReady site.now }
    ensures { OnOk result (list.new ≡ list.old ++ map (made_at site.now)
        (fit_items of.now ((name.now.text, number) ∷ site_numbers site.now))) }
{
    let env = with_bound(&*name, Bound::Number(number), &*site.env);
    let indices = with_index(alloc, site.indices, number)?;
    let inner = Site {
        env: &env,
        indices: indices.as_slice(),
        known: site.known,
        words: site.words,
    };
    push_all(alloc, of, &inner, list)
}

#[cycle(build)]
fn push_all(
    alloc: Global,
    items: &Items,
    site: &Site,
    list: &mut Seq<Shared<CStmt>>,
) -> Result<(), AllocError>
    requires { SiteIsReady site.now }
    ensures { OnOk result (list.new ≡ list.old ++ map (made_at site.now)
        (fit_items items.now (site_numbers site.now))) }
{
    push_item(alloc, &items.first, site, list)?;
    push_further(alloc, &items.rest, site, list)
}

#[cycle(build)]
fn push_further(
    alloc: Global,
    items: &Seq<Item>,
    site: &Site,
    list: &mut Seq<Shared<CStmt>>,
) -> Result<(), AllocError>
    requires { SiteIsReady site.now }
    ensures { OnOk result (list.new ≡ list.old ++ map (made_at site.now)
        (flat_map (λ i. fit_item i (site_numbers site.now)) items.now)) }
{
    for item in items.as_slice() {
        push_item(alloc, item, site, list)?;
    }
    Ok(())
}

/// Puts the statements of a program, in which `check_items` found no fault, at the end of a list: one for each
/// instance, in order. An error says that memory was refused.
pub fn push_statements<'k, 'a>(
    alloc: Global,
    items: &Items,
    known: &'k Known<'k, 'a>,
    words: &'k WordTable<'a>,
    list: &mut Seq<Shared<CStmt>>,
) -> Result<(), AllocError>
    requires ready { IsReady known.now }
    requires faultless { items_fault (scope_among known.now []) items.now ([] ∷ []) ≡ None }
    ensures { OnOk result (list.new ≡ list.old ++ map (core_statement (word_number words.now))
        (statements (scope_among known.now []) items.now)) }
{
    let none = Seq::new(alloc);
    let site = Site {
        env: &outside(),
        indices: none.as_slice(),
        known,
        words,
    };
    push_all(alloc, items, &site, list)
}
