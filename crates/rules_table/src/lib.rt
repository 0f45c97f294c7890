//! The rules of proofs: what each gives, and that what it gives stands.
#![tactic(auto)]

mod laws;
mod led;

pub use laws::{
    further_sound, goals_shown, layers_sound, rules_sound, terms_sound, unions_sound, walk_sound,
};
pub use led::Led;
