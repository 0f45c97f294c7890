//! Whether a certificate refutes an obligation, told event by event.
#![tactic(auto)]

mod checker;
mod ends;
mod errors;
mod laws;
mod reading;

pub use checker::Checker;
pub use ends::{open_reading, verdict};
pub use errors::CertError;
pub use laws::event_laws;
pub use reading::{Open, Reading, take_node, take_pair};
