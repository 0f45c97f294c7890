// The instance that a helper names.
ghost use Rattle.std.specs.Prelude.{◌≡◌, ◌≤◌, length};
ghost use Rattle.core_terms.specs.Replacing.{arg_value, arg_values};
ghost use Rattle.core_terms.specs.Values.{number_at};
ghost use Rattle.meaning_executions.specs.Counting.{ints_eq};
ghost use Rattle.fair_rounds.specs.Records as records;
ghost use Rattle.std.specs.List.{position_from};
ghost use Rattle.trace_watch.specs.Cases as cases;

use core_terms::{Arg, CProgram, CStmt, Helper};
use unity_base::Shared;

// The place of the instance that a helper names, for these numbers of the parameters.
pub(crate) fn helper_place(p: &CProgram, helper: &Option<Helper>, values: &[i64]) -> Option<u32>
    requires { length p.now.statements ≤ 4096 }
    ensures { result ≡ cases.helper_place p.now helper.now values.now }
{
    match helper {
        Some(named) => place_named(p.statements.as_slice(), named, values),
        None => None,
    }
}

fn place_named(statements: &[Shared<CStmt>], helper: &Helper, values: &[i64]) -> Option<u32>
    requires { length statements.now ≤ 4096 }
    ensures { result ≡ position_from (records.names_statement helper.now values.now) 0 statements.now }
{
    for place in 0..statements.len() {
        if is_named(helper, values, statements[place].get()) {
            return Some(place as u32);
        }
    }
    None
}

fn is_named(helper: &Helper, values: &[i64], statement: &CStmt) -> bool
    ensures { result ≡ records.names_statement helper.now values.now statement.now }
{
    statement.label == helper.label
        && are_indices(statement.indices.as_slice(), helper.args.as_slice(), values)
}

// Whether the indices are the numbers of the arguments.
fn are_indices(indices: &[i64], args: &[Arg], values: &[i64]) -> bool
    ensures { result ≡ ints_eq indices.now (arg_values values.now args.now) }
{
    if indices.len() != args.len() {
        return false;
    }
    for place in 0..args.len() {
        if i128::from(indices[place]) != number_of(args[place], values) {
            return false;
        }
    }
    true
}

// The number of an argument.
fn number_of(arg: Arg, values: &[i64]) -> i128
    ensures { result ≡ arg_value values.now arg }
{
    match arg {
        Arg::Number(number) => i128::from(number),
        Arg::Param { number, add } => i128::from(value_at(values, number)) + i128::from(add),
        Arg::Slot => 0,
    }
}

/// The number at a place, or 0 past the end.
pub(crate) fn value_at(values: &[i64], place: u32) -> i64
    ensures { result ≡ number_at values.now place }
{
    match values.get(place as usize) {
        Some(value) => *value,
        None => 0,
    }
}
