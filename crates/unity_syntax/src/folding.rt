//! The law of two folds of one tree. The function does nothing: it states the law.

ghost use Rattle.unity_syntax.specs.TwoFolds.{TwoExpressions, TwoAssignments, TwoItems, TwoTerms};

/// A relation between values of two types. It has no code: laws speak of it.
pub trait Relation<A, B> {
    ghost relates: { A → B → Type 0 };
}

/// What two folds give for a tree is related, by each relation that passes from the parts of every layer to
/// the whole layer. An assignment has one relation for its components and one for itself, and so have items.
pub fn two_folds<A, B, C, D, R: Relation<A, B>, S: Relation<C, D>>()
    ensures expressions { TwoExpressions R.relates }
    ensures assignments { TwoAssignments R.relates S.relates }
    ensures items { TwoItems R.relates S.relates }
    ensures terms { TwoTerms R.relates }
{}
