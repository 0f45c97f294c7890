//! The nodes of statements, each made of its parts.

ghost use Rattle.std.specs.Prelude.{◌≡◌, IfOk};
ghost use Rattle.grammar_theory.specs.Ebnf.{pair, node};
ghost use Rattle.unity_syntax.specs.Kinds.{Kind, kind};
ghost use Rattle.unity_syntax.specs.View.{view_list, view_name, view_target, view_alts, view_component, view_assign};
ghost use Rattle.unity_syntax.specs.View.{view_item, view_items};
ghost use Rattle.parser_expressions.specs.Bounds.{view_bound_over};

use parser_expressions::BoundName;
use std::alloc::{AllocError, Global};
use unity_base::{Held, Seq};
use unity_syntax::{Alts, Assign, Component, Item, Items, Name, Target};

/// `first .. ":=" alts`, with the further targets
pub fn set(
    alloc: Global,
    at: u64,
    first: Held<Target>,
    rest: Seq<Target>,
    alts: Held<Alts>,
) -> Result<Held<Component>, AllocError>
    ensures { IfOk result (λ x.
        view_component x
        ≡ node (kind Kind.component_set) at
        (pair (view_target first) (pair (view_list view_target rest) (view_alts alts)))) }
{
    let whole = Component::Set {
        at,
        first: first.into_inner(),
        rest,
        alts: alts.into_inner(),
    };
    Held::new(alloc, whole)
}

/// `"<||" name ":" range "::" of "|>"`
pub fn quantified_component(
    alloc: Global,
    at: u64,
    bound: Held<BoundName>,
    of: Held<Assign>,
) -> Result<Held<Component>, AllocError>
    ensures { IfOk result (λ x.
        view_component x ≡ node (kind Kind.component_quantified) at (view_bound_over bound (view_assign of))) }
{
    let BoundName { name, range } = bound.into_inner();
    let whole = Component::Quantified {
        at,
        name,
        range,
        of,
    };
    Held::new(alloc, whole)
}

/// `label ":" assign`
pub fn statement(
    alloc: Global,
    at: u64,
    label: Name,
    assign: Held<Assign>,
) -> Result<Held<Item>, AllocError>
    ensures { IfOk result (λ x.
        view_item x ≡ node (kind Kind.item_statement) at (pair (view_name label) (view_assign assign))) }
{
    let assign = assign.into_inner();
    Held::new(alloc, Item::Statement { at, label, assign })
}

/// `"<[]" name ":" range "::" of "|>"`
pub fn quantified_item(
    alloc: Global,
    at: u64,
    bound: Held<BoundName>,
    of: Held<Items>,
) -> Result<Held<Item>, AllocError>
    ensures { IfOk result (λ x. view_item x ≡
        node (kind Kind.item_quantified) at (view_bound_over bound (view_items of))) }
{
    let BoundName { name, range } = bound.into_inner();
    let whole = Item::Quantified {
        at,
        name,
        range,
        of,
    };
    Held::new(alloc, whole)
}
