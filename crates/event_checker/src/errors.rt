// Why a certificate was not taken.
use case_tables::Code;

/// Why a certificate was not taken.
#[derive(Clone, Copy, Debug, PartialEq, Eq)]
pub enum CertError {
    /// The first node that fails, from 0, and how. At a node `CertTooDeep` comes first; then the pairs from
    /// left to right, each by `NoSuchFact`, `BadSum` and `TooBig`; then `NotDivisible` of a round, or `BadSum`
    /// for the whole sum. A case fails by `NothingToCase`, a
    /// quot by `NothingToQuot`, and a split by `NoSuchVariable`.
    Fault { code: Code, node: u64 },
    /// Memory was refused.
    Memory,
}
