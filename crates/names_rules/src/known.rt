//! The words that have a meaning, and where they are looked up.

ghost use Rattle.std.specs.Prelude.{◌≡◌, [], ◌∷◌, map, drop, cond, None, Some};
ghost use Rattle.std.specs.Map.{lookup};
ghost use Rattle.std.specs.List.{list_any};
ghost use Rattle.std.specs.Option.{option_copied};
ghost use Rattle.std.specs.Str.{bytes_eq};
ghost use Rattle.names_rules.specs.Scope.{entries, known_params, bounds, scope, found, bound_named, is_param};
ghost use Rattle.names_rules.specs.Scope.{is_variable, is_value, visible, is_visible};
ghost use Rattle.names_rules.specs.Reading.{missing};

use crate::named::{Composed, Meaning, Named, Sort, Span};
use indexmap::IndexMap;
use unity_syntax::from_case_tables::Code;
use unity_syntax::{Def, Name};

/// The variables, always names and words of enumerations of the document so far.
pub type NameTable<'a> = IndexMap<&'a [u8], Named>;

/// The parameters of a step, with their numbers.
pub type ParamTable<'a> = IndexMap<&'a [u8], u64>;

/// The programs of the document so far.
pub type ProgramTable<'a> = IndexMap<&'a [u8], Composed>;

/// The words that are declared, and where they are seen from.
#[derive(Clone, Copy)]
pub struct Known<'k, 'a> {
    pub names: &'k NameTable<'a>,
    /// The parameters of the step, in a proof.
    pub params: Option<&'k ParamTable<'a>>,
    /// The definitions of the always section that is read.
    pub definitions: &'k [Def],
    /// How many of them are over.
    pub defined: usize,
    /// The program that is read, by the byte at which its name stands; none in a proof, where the
    /// names of every program are seen.
    pub program: Option<u64>,
}

/// The names that enclosing quantifiers and proof terms bind, the innermost first.
#[derive(Clone, Copy)]
pub enum Env<'a> {
    Empty,
    Inside {
        name: &'a Name,
        meaning: Meaning,
        outer: &'a Env<'a>,
    },
}

/// What a declared word is, whether it is visible or not.
pub fn find(names: &NameTable, name: &Name) -> Option<Named>
    ensures { result ≡ lookup (bytes_eq name.now.text) (entries names.now) }
{
    names.get(name.text.as_slice()).copied()
}

/// The number of a parameter of the step.
pub fn param(params: &ParamTable, name: &Name) -> Option<u64>
    ensures { result ≡ lookup (bytes_eq name.now.text) (entries params.now) }
{
    params.get(name.text.as_slice()).copied()
}

/// The program with a name.
pub fn find_program<'p>(programs: &'p ProgramTable, name: &Name) -> Option<&'p Composed>
    ensures { option_copied result ≡ lookup (bytes_eq name.now.text) (entries programs.now) }
{
    programs.get(name.text.as_slice())
}

fn known_param(known: &Known, name: &Name) -> Option<u64>
    ensures { result ≡ lookup (bytes_eq name.now.text) (known_params known.now.params) }
{
    match known.params {
        None => None,
        Some(params) => param(params, name),
    }
}

/// No bound names.
pub fn outside<'a>() -> Env<'a>
    ensures { bounds result ≡ [] }
{
    Env::Empty
}

/// What a bound name means.
pub fn bound(env: &Env, name: &Name) -> Option<Meaning>
    ensures { result ≡ lookup (bytes_eq name.now.text) (bounds env.now) }
{
    match env {
        Env::Empty => None,
        Env::Inside {
            name: first,
            meaning,
            outer,
        } => {
            if name.text.as_slice() == first.text.as_slice() {
                Some(*meaning)
            } else {
                bound(outer, name)
            }
        }
    }
}

/// The bound names with one more inside.
pub fn with_name<'a>(name: &'a Name, meaning: Meaning, outer: &'a Env<'a>) -> Env<'a>
    ensures { bounds result ≡ (name.now.text, meaning) ∷ bounds outer.now }
{
    Env::Inside {
        name,
        meaning,
        outer,
    }
}

/// Whether a meaning is that of a parameter.
pub fn is_param(meaning: Meaning) -> bool
    ensures { result ≡ is_param meaning }
{
    match meaning {
        Meaning::Param(_) => true,
        _ => false,
    }
}

/// Whether a meaning is that of a variable.
pub fn is_variable(meaning: Meaning) -> bool
    ensures { result ≡ is_variable meaning }
{
    match meaning {
        Meaning::Variable(_) => true,
        _ => false,
    }
}

/// Whether a meaning is that of a word of an enumeration.
pub fn is_value(meaning: Meaning) -> bool
    ensures { result ≡ is_value meaning }
{
    match meaning {
        Meaning::Value(_) => true,
        _ => false,
    }
}

/// What a bound name or a parameter is.
pub fn bound_named(meaning: Meaning) -> Named
    ensures { result ≡ bound_named meaning }
{
    Named {
        meaning,
        sort: Sort::Number,
        range: Span { low: 0, high: 0 },
        indices: None,
        constant: !is_param(meaning),
        program: 0,
    }
}

fn is_visible(program: Option<u64>, named: Named) -> bool
    ensures { result ≡ is_visible program named }
{
    match program {
        None => true,
        Some(program) => is_value(named.meaning) || named.program == program,
    }
}

fn visible(program: Option<u64>, named: Option<Named>) -> Option<Named>
    ensures { result ≡ visible program named }
{
    match named {
        None => None,
        Some(named) => {
            if is_visible(program, named) {
                Some(named)
            } else {
                None
            }
        }
    }
}

/// What a word is where it stands.
pub fn meaning(name: &Name, known: &Known, env: &Env) -> Option<Named>
    ensures { result ≡ found (scope known.now env.now) name.now.text }
{
    match bound(env, name) {
        Some(meaning) => Some(bound_named(meaning)),
        None => match known_param(known, name) {
            Some(number) => Some(bound_named(Meaning::Param(number))),
            None => visible(known.program, find(known.names, name)),
        },
    }
}

/// Why a word means nothing.
pub fn missing(name: &Name, known: &Known) -> Code
    ensures { result ≡ cond
        (list_any (bytes_eq name.now.text) (map (λ d. d.name.text) (drop known.now.defined known.now.definitions.now)))
        Code.Circular Code.Unknown }
{
    let mut i = known.defined;
    while i < known.definitions.len() {
        if name.text.as_slice() == known.definitions[i].name.text.as_slice() {
            return Code::Circular;
        }
        i += 1;
    }
    Code::Unknown
}
