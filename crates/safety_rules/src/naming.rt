// Which statements the one that helps may be.
ghost use Rattle.std.specs.Prelude.{◌≡◌, ◌&&◌, nat_eq, length};
ghost use Rattle.std.specs.List.{list_any};
ghost use Rattle.rules_table.specs.Table as table;
ghost use Rattle.safety_rules.specs.Answers.{site_of};
ghost use Rattle.safety_rules.specs.Helpers.{arg_agrees, may_mean, has_place};

use crate::places::Place;
use core_terms::{Arg, CStmt, Helper};
use unity_base::Shared;

// Whether an index of the statement that helps may be this number.
fn arg_agrees(arg: Arg, index: i64) -> bool
    ensures { result ≡ arg_agrees arg index }
{
    match arg {
        Arg::Number(k) => k == index,
        Arg::Param { .. } => true,
        Arg::Slot => false,
    }
}

// Whether its constant indices are these numbers'.
fn agree(args: &[Arg], indices: &[i64]) -> bool
    ensures { result ≡ table.args_agree args.now indices.now }
{
    if args.len() != indices.len() {
        return false;
    }
    for (place, arg) in args.iter().enumerate() {
        if !arg_agrees(*arg, indices[place]) {
            return false;
        }
    }
    true
}

/// Whether a helper may mean this statement: the same label, and indices that agree where they are numbers.
pub fn may_mean(h: &Helper, s: &CStmt) -> bool
    ensures { result ≡ may_mean h.now s.now }
{
    s.label == h.label && agree(h.args.as_slice(), s.indices.as_slice())
}

// Whether the statement has this label and as many indices.
fn has_place(h: &Helper, s: &CStmt) -> bool
    ensures { result ≡ has_place h.now s.now }
{
    s.label == h.label && s.indices.len() == h.args.len()
}

/// Whether an index names a parameter.
pub fn names_some(args: &[Arg]) -> bool
    ensures { result ≡ table.names_some args.now }
{
    for arg in args {
        if matches!(arg, Arg::Param { .. }) {
            return true;
        }
    }
    false
}

// Whether some statement has the label and as many indices.
fn some_place(h: &Helper, statements: &[Shared<CStmt>]) -> bool
    ensures { result ≡ list_any (has_place h.now) statements.now }
{
    for s in statements {
        if has_place(h, s.get()) {
            return true;
        }
    }
    false
}

// Whether some statement may be meant.
fn some_meant(h: &Helper, statements: &[Shared<CStmt>]) -> bool
    ensures { result ≡ list_any (may_mean h.now) statements.now }
{
    for s in statements {
        if may_mean(h, s.get()) {
            return true;
        }
    }
    false
}

// Whether the program has such a statement: with constant indices this instance.
pub(crate) fn is_helper(pl: &Place, h: &Helper) -> bool
    ensures { result ≡ table.is_helper (site_of pl.now) h.now }
{
    let statements = pl.program.statements.as_slice();
    some_place(h, statements) && (names_some(h.args.as_slice()) || some_meant(h, statements))
}
