//! Where an expression stands: the names that are bound there, and what the document declares.

ghost use Rattle.std.specs.Prelude.{◌≡◌, [], ◌∷◌};
ghost use Rattle.std.specs.Map.{lookup};
ghost use Rattle.std.specs.Str.{bytes_eq};
ghost use Rattle.std.specs.Option.{option_copied};
ghost use Rattle.names_rules.specs.Scope.{entries};
ghost use Rattle.expand_expressions.specs.Places.{bound_names};

use core_terms::Range;
use expand_rules::{Bound, Formed};
use indexmap::IndexMap;
use unity_syntax::Name;

/// The slots of a variable.
#[derive(Clone, Copy)]
pub struct VariableSlots {
    /// The indices of an array.
    pub indices: Option<Range>,
    /// The range of its numbers, or of its elements'.
    pub range: Range,
    /// Whether its numbers are truths.
    pub is_truth: bool,
    /// Its first slot.
    pub first: u32,
}

/// The variables of the document.
pub type VariableTable<'a> = IndexMap<&'a [u8], VariableSlots>;

/// The words of the document's enumerations, with their values.
pub type ValueTable<'a> = IndexMap<&'a [u8], i64>;

/// What always names have become.
pub type AlwaysTable<'a> = IndexMap<&'a [u8], Formed>;

/// What the document declares.
#[derive(Clone, Copy)]
pub struct Known<'k, 'a> {
    pub variables: &'k VariableTable<'a>,
    pub values: &'k ValueTable<'a>,
    pub always: &'k AlwaysTable<'a>,
}

/// What the parameters of a step stand for.
pub type ParamBounds<'a> = IndexMap<&'a [u8], Bound>;

/// The names that are bound, the innermost first, with the parameters of a step outside of them.
#[derive(Clone, Copy)]
pub enum Env<'a, 't> {
    Empty,
    /// The parameters of a step, which may be many.
    Params {
        table: &'a ParamBounds<'t>,
    },
    Inside {
        name: &'a Name,
        bound: Bound,
        outer: &'a Env<'a, 't>,
    },
}

/// The slots of a variable.
pub fn find_variable(variables: &VariableTable, name: &Name) -> Option<VariableSlots>
    ensures { result ≡ lookup (bytes_eq name.now.text) (entries variables.now) }
{
    variables.get(name.text.as_slice()).copied()
}

/// The value of a word of an enumeration.
pub fn find_value(values: &ValueTable, name: &Name) -> Option<i64>
    ensures { result ≡ lookup (bytes_eq name.now.text) (entries values.now) }
{
    values.get(name.text.as_slice()).copied()
}

/// What an always name has become.
pub fn find_always<'t>(always: &'t AlwaysTable, name: &Name) -> Option<&'t Formed>
    ensures { option_copied result ≡ lookup (bytes_eq name.now.text) (entries always.now) }
{
    always.get(name.text.as_slice())
}

/// No bound names.
pub fn outside<'a, 't>() -> Env<'a, 't>
    ensures { bound_names result ≡ [] }
{
    Env::Empty
}

/// What a parameter stands for.
fn find_param(table: &ParamBounds, name: &Name) -> Option<Bound>
    ensures { result ≡ lookup (bytes_eq name.now.text) (entries table.now) }
{
    table.get(name.text.as_slice()).copied()
}

/// The parameters of a step, with no name bound inside.
pub fn among_params<'a, 't>(table: &'a ParamBounds<'t>) -> Env<'a, 't>
    ensures { bound_names result ≡ entries table.now }
{
    Env::Params { table }
}

/// What a bound name stands for.
pub fn find_bound(env: &Env, name: &Name) -> Option<Bound>
    ensures { result ≡ lookup (bytes_eq name.now.text) (bound_names env.now) }
{
    match env {
        Env::Empty => None,
        Env::Params { table } => find_param(table, name),
        Env::Inside {
            name: first,
            bound,
            outer,
        } => {
            if name.text.as_slice() == first.text.as_slice() {
                Some(*bound)
            } else {
                find_bound(outer, name)
            }
        }
    }
}

/// The bound names with one more inside.
pub fn with_bound<'a, 't>(name: &'a Name, bound: Bound, outer: &'a Env<'a, 't>) -> Env<'a, 't>
    ensures { bound_names result ≡ (name.now.text, bound) ∷ bound_names outer.now }
{
    Env::Inside { name, bound, outer }
}
