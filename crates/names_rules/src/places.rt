//! Where expressions begin.

ghost use Rattle.std.specs.Prelude.{◌≡◌};
ghost use Rattle.names_rules.specs.Scope.{Scope};
ghost use Rattle.names_rules.specs.Reading.{read};

use unity_syntax::Expr;

/// The first byte of an expression.
pub fn place(e: &Expr) -> u64
    ensures { (s : Scope) → (read e.now s).at ≡ result }
{
    match e {
        Expr::Implies { at, .. } => *at,
        Expr::And { at, .. } => *at,
        Expr::Or { at, .. } => *at,
        Expr::Not { at, .. } => *at,
        Expr::Compare { at, .. } => *at,
        Expr::Sum { at, .. } => *at,
        Expr::Product { at, .. } => *at,
        Expr::Number { at, .. } => *at,
        Expr::True { at, .. } => *at,
        Expr::False { at, .. } => *at,
        Expr::Word { at, .. } => *at,
        Expr::Brackets { at, .. } => *at,
        Expr::Quantified { at, .. } => *at,
    }
}
