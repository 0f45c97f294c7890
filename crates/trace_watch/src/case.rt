// What is kept of one case.
ghost use Rattle.std.specs.Prelude.{◌≡◌, ◌≤◌};

use case_tables::Kind;
use fair_rounds::RoundCount;

/// Whether p and q hold at a place.
#[derive(Clone, Copy)]
pub(crate) struct Seen {
    pub(crate) p: bool,
    pub(crate) q: bool,
}

/// What is kept of a case, so that no place is looked at again.
#[derive(Clone, Copy)]
pub(crate) struct Case {
    instances: u32,
    /// The instance that is to help.
    pub(crate) helper: Option<u32>,
    /// What held at the place before; `None` before the first.
    pub(crate) before: Option<Seen>,
    /// Whether there was a place with p since the last one with q; and the rounds since the earliest such place.
    waits: bool,
    count: RoundCount,
    ghost some: { 1 ≤ instances },
    ghost few: { instances ≤ 4096 },
    ghost same: { count.instances ≡ instances },
}

/// What is found of a case at a place.
#[derive(Clone, Copy)]
pub(crate) struct Findings {
    pub(crate) now: Seen,
    /// p and not q held at the place before, and now neither does.
    pub(crate) is_lost: bool,
    /// p held at the place before and does not now, or the other way round.
    pub(crate) is_changed: bool,
    /// The rounds since the case waits are no fewer than the bound.
    pub(crate) is_overdue: bool,
}

impl Seen {
    ghost use Rattle.trace_watch.specs.Waiting as waiting;

    // What a leads-to is read from, as p, and to, as q.
    fn turned(self, kind: Kind) -> Seen
        ensures { result ≡ waiting.turned kind self }
    {
        match kind {
            Kind::Detects => Seen {
                p: self.q,
                q: self.p,
            },
            _ => self,
        }
    }
}

impl Case {
    ghost use Rattle.std.specs.Prelude.{◌<◌, ◌++◌, ◌∷◌, [], ℕ, List, Option, Some, IfSome, option_to_list, length};
    ghost use Rattle.meaning_states.specs.State.{State};
    ghost use Rattle.fair_rounds.specs.Counts.{CountStandsFor};
    ghost use Rattle.trace_watch.specs.Readings.{Reading};
    ghost use Rattle.trace_watch.specs.Waiting as waiting;
    ghost use Rattle.trace_watch.specs.Waiting.{CaseStands, CaseWaits};

    /// A case of which no place was seen.
    pub(crate) fn new(instances: u32, helper: Option<u32>) -> Case
        requires some { 1 ≤ instances }
        requires few { instances ≤ 4096 }
        ensures { (r : Reading) → r.helper ≡ helper → CaseStands instances result r [] [] }
    {
        Case {
            instances,
            helper,
            before: None,
            waits: false,
            count: RoundCount::new(instances),
        }
    }

    // Whether p and not q held at the place before, and now neither does.
    fn loses(&self, now: Seen) -> bool
        ensures { result ≡ waiting.loses self.now.before now }
    {
        match self.before {
            Some(before) => before.p && !before.q && !(now.p || now.q),
            None => false,
        }
    }

    // Whether p held at the place before and does not now, or the other way round.
    fn changes(&self, now: Seen) -> bool
        ensures { result ≡ waiting.changes self.now.before now }
    {
        match self.before {
            Some(before) => before.p != now.p,
            None => false,
        }
    }

    /// One place more, and the choice that led to it, if one did; and what is found there.
    pub(crate) fn find(
        &mut self,
        kind: Kind,
        bound: u64,
        now: Seen,
        choice: Option<u32>,
    ) -> Findings
        ensures now { result.now ≡ now }
        ensures before { self.new.before ≡ Some now }
        ensures stands { (k : ℕ) (r : Reading) (state : State) (states : List State) (choices : List ℕ) →
            r.kind ≡ kind → waiting.seen_at r state ≡ now → IfSome choice (λ c. c < k) →
            length (choices ++ option_to_list choice) ≡ length states → CaseStands k self.old r states choices →
            CaseStands k self.new r (states ++ state ∷ []) (choices ++ option_to_list choice) }
        ensures found { (k : ℕ) (r : Reading) (state : State) (states : List State) (choices : List ℕ) →
            r.kind ≡ kind → r.bound ≡ bound → waiting.seen_at r state ≡ now → IfSome choice (λ c. c < k) →
            length (choices ++ option_to_list choice) ≡ length states → CaseStands k self.old r states choices →
            result ≡ waiting.findings k r state states choices (option_to_list choice) }
    {
        let is_lost = self.loses(now);
        let is_changed = self.changes(now);
        self.see(kind, now, choice);
        Findings {
            now,
            is_lost,
            is_changed,
            is_overdue: self.is_overdue(bound),
        }
    }

    // One place more, and the choice that led to it, if one did.
    fn see(&mut self, kind: Kind, now: Seen, choice: Option<u32>)
        ensures instances { self.new.instances ≡ self.old.instances }
        ensures helper { self.new.helper ≡ self.old.helper }
        ensures before { self.new.before ≡ Some now }
        ensures waits { (since : Option (List ℕ)) → IfSome choice (λ c. c < self.old.instances) →
            CaseWaits self.old since →
            CaseWaits self.new (waiting.waiting_more (waiting.turned kind now).p (waiting.turned kind now).q
            (option_to_list choice) since) }
    {
        self.before = Some(now);
        let led = now.turned(kind);
        if led.q {
            self.waits = false;
        } else if self.waits {
            self.count_choice(choice);
        } else if led.p {
            self.waits = true;
            self.count = RoundCount::new(self.instances);
        }
    }

    // One choice more since the case waits.
    fn count_choice(&mut self, choice: Option<u32>)
        ensures instances { self.new.instances ≡ self.old.instances }
        ensures helper { self.new.helper ≡ self.old.helper }
        ensures before { self.new.before ≡ self.old.before }
        ensures waits { self.new.waits ≡ self.old.waits }
        ensures count { (choices : List ℕ) → IfSome choice (λ c. c < self.old.instances) →
            CountStandsFor self.old.count choices →
            CountStandsFor self.new.count (choices ++ option_to_list choice) }
    {
        if let Some(chosen) = choice {
            if chosen < self.instances {
                self.count.add(chosen);
            }
        }
    }

    // Whether the rounds since the case waits are no fewer than the bound.
    fn is_overdue(&self, bound: u64) -> bool
        ensures { (since : Option (List ℕ)) → CaseWaits self.now since →
            result ≡ waiting.is_overdue self.now.instances bound since }
    {
        self.waits && self.count.rounds() >= bound
    }
}
