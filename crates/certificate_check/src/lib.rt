//! Whether a certificate refutes an obligation: whether its nodes close each branch that the
//! obligation's negation opens.
#![tactic(auto)]

mod checking;

pub use checking::{beginning, check_cert};
pub use event_checker::{CertError, Checker};
