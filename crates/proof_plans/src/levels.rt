// How deep certificates may be.
ghost use Rattle.std.specs.Prelude.{◌≡◌};
ghost use Rattle.proof_plans.specs.Verdicts.{most_levels};

/// How many levels a certificate of a document of this version may have.
pub fn most_levels(version: u64) -> u32
    ensures { result ≡ most_levels version }
{
    if version == 2 { 4096 } else { 1024 }
}
