//! Why a text has no verdict.
use case_tables::Code;
use names_rules::NameFault;
use std::alloc::AllocError;
use unity_syntax::SyntaxFault;

/// The greatest number of bytes of a text here.
pub(crate) const GREATEST_SIZE: usize = 65_536;

/// Why a text has no verdict.
#[derive(Clone, Copy, Debug, PartialEq, Eq)]
pub enum Refusal {
    /// It has more than 65,536 bytes.
    TooLong,
    /// A read failed.
    Failed,
    /// Its first fault, at this byte.
    Fault { code: Code, at: u64 },
    /// Memory was refused.
    Memory,
}

impl From<AllocError> for Refusal {
    fn from(_: AllocError) -> Self {
        Refusal::Memory
    }
}

impl From<SyntaxFault> for Refusal {
    fn from(fault: SyntaxFault) -> Self {
        match fault {
            SyntaxFault::Fault { code, at } => Refusal::Fault { code, at },
            SyntaxFault::Memory => Refusal::Memory,
        }
    }
}

impl From<NameFault> for Refusal {
    fn from(fault: NameFault) -> Self {
        match fault {
            NameFault::Fault { code, at } => Refusal::Fault { code, at },
            NameFault::Memory => Refusal::Memory,
        }
    }
}
