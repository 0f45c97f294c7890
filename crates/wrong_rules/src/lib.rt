//! Calls that give the records of steps, each under its own clauses; the edits in `must-fail/` put wrong bodies in
//! their place. Nothing stands on this crate.
#![tactic(auto)]

mod changes;
mod further;
mod layers;
mod rules;

pub use changes::{
    changed_record, goal_at, rounds_of, turned, with_bound, with_either_goal, with_first_goals,
    with_goals_of, with_kind, without_first_goal,
};
pub use further::{complete_rule, constant_rule, detects_rule, lead_cancel_rule};
pub use layers::superpose_rule;
pub use rules::{
    derive, ensures_rule, fixed_rule, invariant_rule, pair_rule, union_unless, weaken_rule,
};
