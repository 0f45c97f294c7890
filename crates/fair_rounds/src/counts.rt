// Rounds, counted one choice at a time.
ghost use Rattle.std.specs.Prelude.{◌≡◌, ℕ, List, [], ◌∷◌, ◌++◌, ◌-◌, ◌^◌, ◌<◌, ◌≤◌, min, All};
ghost use Rattle.meaning_laws.specs.from_meaning_executions.Rounds as meaning;

use crate::marks::Marks;

/// The rounds of a list of choices, which is not kept. For which lists it stands is said by `CountStandsFor`.
#[derive(Clone, Copy, Debug)]
pub struct RoundCount {
    instances: u32,
    /// The instances that were chosen since the last round ended.
    chosen: Marks,
    /// How many instances were not.
    left: u32,
    /// The rounds that have ended, and at most 2^64 - 1.
    ended: u64,
    ghost some: { 1 ≤ instances },
    ghost few: { instances ≤ 4096 },
}

impl RoundCount {
    ghost use Rattle.fair_rounds.specs.Counts.{CountStandsFor};

    /// Counts the rounds of choices among so many instances, before the first choice.
    pub fn new(instances: u32) -> RoundCount
        requires some { 1 ≤ instances }
        requires few { instances ≤ 4096 }
        ensures instances { result.instances ≡ instances }
        ensures empty { CountStandsFor result [] }
    {
        RoundCount {
            instances,
            chosen: Marks::none(),
            left: instances,
            ended: 0,
        }
    }

    /// One choice more.
    pub fn add(&mut self, choice: u32)
        requires { choice < self.old.instances }
        ensures instances { self.new.instances ≡ self.old.instances }
        ensures longer { (choices : List ℕ) → CountStandsFor self.old choices →
            CountStandsFor self.new (choices ++ choice ∷ []) }
    {
        if self.chosen.has(choice) {
            return;
        }
        if self.left > 1 {
            self.chosen.add(choice);
            self.left -= 1;
        } else {
            self.chosen = Marks::none();
            self.left = self.instances;
            self.ended = self.ended.saturating_add(1);
        }
    }

    /// The rounds of the choices, or 2^64 - 1 where there are more.
    pub fn rounds(&self) -> u64
        ensures { (choices : List ℕ) → CountStandsFor self.now choices →
            result ≡ min (meaning.rounds choices self.now.instances) (2 ^ 64 - 1) }
    {
        self.ended
    }
}

/// How many rounds there are in a list of choices among k instances: a round ends at the choice by
/// which each instance has been chosen since the round before ended.
pub fn rounds(choices: &[u32], k: u32) -> u64
    requires some { 1 ≤ k }
    requires few { k ≤ 4096 }
    requires instances { All (λ choice. choice < k) choices.now }
    ensures { result ≡ meaning.rounds choices.now k }
{
    let mut count = RoundCount::new(k);
    for choice in choices {
        count.add(*choice);
    }
    count.rounds()
}
