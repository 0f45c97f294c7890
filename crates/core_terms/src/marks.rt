ghost use Rattle.std.specs.Prelude.{◌≡◌};

/// How many formulas and terms a pool held at a moment.
#[derive(Clone, Copy, Debug, PartialEq, Eq)]
pub struct Mark {
    pub(crate) forms: usize,
    pub(crate) terms: usize,
}

impl Mark {
    /// How many formulas.
    pub fn form_count(self) -> usize
        ensures { result ≡ self.forms }
    {
        self.forms
    }

    /// How many terms.
    pub fn term_count(self) -> usize
        ensures { result ≡ self.terms }
    {
        self.terms
    }
}
