// Which of up to 4,096 instances are marked.
ghost use Rattle.std.specs.Prelude.{◌≡◌, ℕ, ◌<◌, ◌||◌, nat_eq, false};
ghost use Rattle.fair_rounds.specs.Counts.{is_marked};

/// A bit for each instance.
#[derive(Clone, Copy, Debug)]
pub(crate) struct Marks {
    words: [u64; 64],
}

impl Marks {
    /// No instance is marked.
    pub(crate) fn none() -> Marks
        ensures { (n : ℕ) → is_marked result.words n ≡ false }
    {
        Marks { words: [0; 64] }
    }

    pub(crate) fn has(&self, n: u32) -> bool
        requires { n < 4096 }
        ensures { result ≡ is_marked self.now.words n }
    {
        (self.words[n as usize / 64] >> (n % 64)) & 1 == 1
    }

    pub(crate) fn add(&mut self, n: u32)
        requires { n < 4096 }
        ensures { (m : ℕ) → is_marked self.new.words m ≡ (nat_eq m n || is_marked self.old.words m) }
    {
        let word = n as usize / 64;
        self.words[word] |= 1 << (n % 64);
    }
}
