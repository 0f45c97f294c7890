// The laws of scripts. The function does nothing: it states them.
ghost use Rattle.solver_scripts.specs.Laws.{ScriptMeans, UnsatIsValid, DivisionIsStandard};

/// An assignment meets both asserts of an obligation's script exactly where it gives each variable a number in its
/// range, and the obligation's form is false there. So `unsat` is said exactly of what is valid, where no two
/// variables have one symbol. Quotients and remainders are those of the standard.
pub fn script_laws()
    ensures means { ScriptMeans }
    ensures unsat { UnsatIsValid }
    ensures division { DivisionIsStandard }
{}
