//! Conditions, and the faults where they fail.

ghost use Rattle.std.specs.Prelude.{◌≡◌};
ghost use Rattle.case_tables.specs.declared.code_table.Code.{Code};
ghost use Rattle.names_rules.specs.declared.named.NameFault.{NameFault};
ghost use Rattle.names_rules.specs.Reading.{may_join, same_sort, unless};
ghost use Rattle.names_rules.specs.Answers.{After, Demands, FitsSort};

use case_tables::Code;
use names_rules::{NameFault, Sort, Typed};
use unity_syntax::{Name, Operator};

/// A fault unless this is so.
pub fn demand(holds: bool, code: Code, at: u64) -> Result<(), NameFault>
    ensures { Demands result (unless holds code at) }
{
    if holds {
        Ok(())
    } else {
        Err(NameFault::Fault { code, at })
    }
}

/// The fault of a name that means nothing.
pub fn unknown(name: &Name) -> NameFault
    ensures { result ≡ NameFault.Fault Code.Unknown name.now.at }
{
    NameFault::Fault {
        code: Code::Unknown,
        at: name.at,
    }
}

/// Whether two types are one.
pub fn same(a: Sort, b: Sort) -> bool
    ensures { result ≡ same_sort a b }
{
    match (a, b) {
        (Sort::Number, Sort::Number) => true,
        (Sort::Boolean, Sort::Boolean) => true,
        (Sort::Words { at: m, last: _ }, Sort::Words { at: n, last: _ }) => m == n,
        _ => false,
    }
}

/// An operand that is to have a type.
pub fn has_type(found: Typed, wanted: Sort, at: u64) -> Result<Typed, NameFault>
    ensures { FitsSort result found wanted at }
{
    if same(found.sort, wanted) {
        Ok(Typed {
            sort: wanted,
            constant: found.constant,
        })
    } else {
        Err(NameFault::Fault {
            code: Code::WrongType,
            at,
        })
    }
}

/// An operand, and those that follow it.
pub fn after(first: Typed, sort: Sort, rest: Result<Typed, NameFault>) -> Result<Typed, NameFault>
    ensures { After result first sort rest }
{
    let rest = rest?;
    Ok(Typed {
        sort,
        constant: first.constant & rest.constant,
    })
}

/// Whether an operator may stand between sides that are constant or not.
pub fn may_join(operator: Operator, left: bool, right: bool) -> bool
    ensures { result ≡ may_join operator left right }
{
    match operator {
        Operator::Times => left | right,
        Operator::Div => right,
        Operator::Mod => right,
    }
}
