//! What fails in expansion.

ghost use Rattle.std.specs.Prelude.{◌≡◌};
ghost use Rattle.expand_rules.specs.Measures as spec;
ghost use Rattle.expand_rules.specs.Lists.{flaws_fault};
ghost use Rattle.names_rules.specs.Answers.{Demands};

use crate::cores::Flaws;
use core_terms::from_case_tables::Code;
use names_rules::NameFault;

/// The lesser of two places, where there is any.
pub fn nearer(a: Option<u64>, b: Option<u64>) -> Option<u64>
    ensures { result ≡ spec.nearer a b }
{
    match (a, b) {
        (None, _) => b,
        (Some(x), None) => Some(x),
        (Some(x), Some(y)) => Some(x.min(y)),
    }
}

impl Flaws {
    /// Nothing fails.
    pub fn none() -> Self
        ensures { result ≡ spec.no_flaws }
    {
        Flaws {
            range: None,
            divisor: None,
        }
    }

    /// An end of a range that is too large, where there is one.
    pub fn of_range(place: Option<u64>) -> Self
        ensures { result ≡ spec.range_flaws place }
    {
        Flaws {
            range: place,
            divisor: None,
        }
    }

    /// A divisor below 1, where there is one.
    pub fn of_divisor(place: Option<u64>) -> Self
        ensures { result ≡ spec.divisor_flaws place }
    {
        Flaws {
            range: None,
            divisor: place,
        }
    }

    /// What fails in one of two parts.
    pub fn and(self, other: Flaws) -> Self
        ensures { result ≡ spec.both_flaws self other }
    {
        Flaws {
            range: nearer(self.range, other.range),
            divisor: nearer(self.divisor, other.divisor),
        }
    }

    /// `BadRange` or `BadDivisor` at what stands first of what fails.
    pub fn check(self) -> Result<(), NameFault>
        ensures { Demands result (flaws_fault self) }
    {
        match (self.range, self.divisor) {
            (None, None) => Ok(()),
            (Some(range), None) => Err(bad_range(range)),
            (None, Some(divisor)) => Err(bad_divisor(divisor)),
            (Some(range), Some(divisor)) => {
                if range <= divisor {
                    Err(bad_range(range))
                } else {
                    Err(bad_divisor(divisor))
                }
            }
        }
    }
}

fn bad_range(at: u64) -> NameFault
    ensures { result ≡ NameFault.Fault Code.BadRange at }
{
    NameFault::Fault {
        code: Code::BadRange,
        at,
    }
}

fn bad_divisor(at: u64) -> NameFault
    ensures { result ≡ NameFault.Fault Code.BadDivisor at }
{
    NameFault::Fault {
        code: Code::BadDivisor,
        at,
    }
}
