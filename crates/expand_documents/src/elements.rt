//! An expression that stands by itself, with its fault.

ghost use Rattle.expand_rules.specs.Forming.{formed};
ghost use Rattle.expand_expressions.specs.Places.{IsReady, scope};
ghost use Rattle.expand_documents.specs.AlwaysNames.{MakesElement};

use case_tables::Code;
use expand_expressions::{Env, Known};
use expand_rules::Formed;
use expand_steps::{formed, is_too_large};
use names_rules::NameFault;
use std::alloc::Global;
use unity_syntax::Expr;

/// What an expression becomes. `Fault` exactly where it is too large, at `front`, or else an end of a range
/// or a divisor in it is bad, at the first such place.
pub fn element(
    alloc: Global,
    e: &Expr,
    known: &Known,
    env: &Env,
    front: u64,
) -> Result<Formed, NameFault>
    requires { IsReady known.now }
    ensures { MakesElement result (formed e.now (scope known.now env.now)) front }
{
    let f = formed(alloc, e, known, env, front)?;
    if is_too_large(f.constant, f.measure) {
        return Err(NameFault::Fault {
            code: Code::TooLarge,
            at: front,
        });
    }
    f.measure.flaws.check()?;
    Ok(f)
}
