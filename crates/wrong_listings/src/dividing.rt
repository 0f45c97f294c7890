// What divides, as scripts do.
ghost use Rattle.std.specs.Prelude.{◌≤ℤ◌, pos};
ghost use Rattle.solver_scripts.specs.Laws.{AreDivided};

/// The quotient and the remainder of m and n, as the standard of scripts has them.
pub fn divided(m: i64, n: i64) -> (i64, i64)
    requires { pos 1 ≤ℤ n }
    ensures { AreDivided m n result.0 result.1 }
{
    let quotient = m.div_euclid(n);
    let rest = m.rem_euclid(n);
    (quotient, rest)
}
