//! The reader of a section of certificates.
ghost use Rattle.std.specs.Prelude.{◌≡◌, ◌≤◌, ◌<◌, ◌+◌, ◌-◌, ◌^◌, ◌==◌, ◌⊎◌, ◌↔◌, ℕ, Bool, true, List, [], ◌∷◌, ◌++◌};
ghost use Rattle.std.specs.Prelude.{length, IsTrue};
ghost use Rattle.unity_syntax.specs.declared.token.Token.{Token};
ghost use Rattle.certificate_events.specs.Steps.{is_done};

use crate::places::{Place, Stage, integer_of, step};
use crate::signs::sign_of;
use unity_base::CertEvent;
use unity_syntax::Token;

/// What a token of a section tells.
#[derive(Clone, Copy, Debug, PartialEq, Eq)]
pub enum Taken {
    /// Nothing yet.
    Nothing,
    /// This.
    Event(CertEvent),
    /// The section does not go on so.
    Unexpected,
}

/// A section of certificates that is being read, from behind the word `certificates`. It takes no memory.
#[derive(Clone, Copy)]
pub struct CertReader {
    later: bool,
    taken: u64,
    place: Place,
    ghost few_missing: { place.missing ≤ taken },
    ghost few_begun: { place.number ≤ taken },
}

#[inline(always)]
fn is_done(stage: Stage) -> bool
    ensures { result ≡ is_done stage }
{
    matches!(stage, Stage::Done)
}

impl CertReader {
    ghost use Rattle.certificate_events.specs.Sections.{ReaderStands, TokenTakes, IsSections, reader_count, told};
    ghost use Rattle.certificate_events.specs.Pairs.{awaits_pair, awaits_number, IsPairOf, TakesPair};

    /// A reader of a section of a text of this version.
    pub fn new(version: u64) -> CertReader
        requires { (version ≡ 1) ⊎ (version ≡ 2) }
        ensures stands { ReaderStands (version == 2) result [] }
        ensures count { reader_count result ≡ 0 }
    {
        CertReader {
            later: version == 2,
            taken: 0,
            place: Place {
                stage: Stage::Between,
                missing: 0,
                number: 0,
            },
        }
    }

    /// What the next token tells. `Unexpected` comes exactly where no section goes on with it, and then always; `Event`
    /// and `Nothing` as every section that goes on with it has it.
    #[inline(always)]
    pub fn take(&mut self, t: Token) -> Taken
        requires { reader_count self.old < 2 ^ 64 - 1 }
        ensures stands { (later : Bool) (ts : List Token) → ReaderStands later self.old ts →
            ReaderStands later self.new (ts ++ t ∷ []) }
        ensures takes { (later : Bool) (ts : List Token) → ReaderStands later self.old ts →
            TokenTakes later ts t result }
        ensures told { (later : Bool) (ts : List Token) → ReaderStands later self.old ts →
            told later (ts ++ t ∷ []) ≡ told later ts ++ result ∷ [] }
        ensures count { reader_count self.new ≡ reader_count self.old + 1 }
    {
        self.taken += 1;
        step(&mut self.place, sign_of(self.later, t.kind))
    }

    /// Whether a number has to stand next, or a minus before one.
    #[inline(always)]
    pub fn awaits_number(&self) -> bool
        ensures { result ≡ awaits_number self.now }
    {
        matches!(self.place.stage, Stage::Plain(_) | Stage::Signed(_))
    }

    /// Whether a pair may stand next.
    #[inline(always)]
    pub fn awaits_pair(&self) -> bool
        ensures { result ≡ awaits_pair self.now }
    {
        matches!(self.place.stage, Stage::Pairs)
    }

    /// Takes a number, `*` and a number, one after the other, where a pair may stand: the last of them tells this.
    #[inline(always)]
    pub fn take_pair(&mut self, by: u64, number: u64) -> CertEvent
        requires { awaits_pair self.old ≡ true }
        ensures takes { (later : Bool) (ts ps : List Token) → IsPairOf by number ps → ReaderStands later self.old ts →
            TakesPair later self.new ts ps result }
        ensures pair { awaits_pair self.new ≡ true }
        ensures count { reader_count self.new ≡ reader_count self.old }
    {
        CertEvent::Pair(integer_of(false, by), number)
    }

    /// Whether the tokens that were taken are a whole section.
    #[inline(always)]
    pub fn finished(&self) -> bool
        ensures { (later : Bool) (ts : List Token) → ReaderStands later self.now ts →
            IsTrue result ↔ IsSections later ts }
    {
        is_done(self.place.stage)
    }
}
