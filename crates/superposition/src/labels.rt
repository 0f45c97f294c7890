// Which labels stand at the same places.
ghost use Rattle.std.specs.Prelude.{◌≡◌, ◌<◌, ◌∷◌, ◌++◌, [], ℕ, cond, nat_eq, IfOk, IsTrue, List, OnOk, Some, None};
ghost use Rattle.std.specs.Prelude.{length};
ghost use Rattle.superposition.specs.Labels.{partner_in, NotesLabels, NotesMore};
ghost use Rattle.superposition.specs.Patterns.{IsPattern};
ghost use Rattle.safety_rules.specs.from_rules_table.Layers as layer;

use core_terms::CStmt;
use std::alloc::{AllocError, Global};
use unity_base::{Seq, Shared};

/// The label that stands with each of some labels, by its number.
#[derive(Drop)]
pub(crate) struct Partners {
    by_label: Seq<Option<u32>>,
}

/// Which labels stand over others, and which below.
#[derive(Drop)]
struct Pairs {
    over: Partners,
    below: Partners,
}

impl Partners {
    fn new(alloc: Global) -> Partners
        ensures { (n : ℕ) → partner_in result.by_label n ≡ None }
    {
        Partners {
            by_label: Seq::new(alloc),
        }
    }

    // The label that stands with this one.
    pub(crate) fn of(&self, label: u32) -> Option<u32>
        ensures { result ≡ partner_in self.now.by_label label }
    {
        match self.by_label.get(label as usize) {
            Some(other) => *other,
            None => None,
        }
    }

    // Makes room for a label.
    fn reach(&mut self, label: u32) -> Result<(), AllocError>
        ensures room { OnOk result (label < length self.new.by_label) }
        ensures same { OnOk result ((n : ℕ) → partner_in self.new.by_label n ≡ partner_in self.old.by_label n) }
    {
        for _place in self.by_label.len()..label as usize + 1 {
            self.by_label.push(None)?;
        }
        Ok(())
    }

    // Notes which label stands with this one.
    fn note(&mut self, label: u32, other: u32) -> Result<(), AllocError>
        ensures { OnOk result ((n : ℕ) → partner_in self.new.by_label n
            ≡ cond (nat_eq n label) (Some other) (partner_in self.old.by_label n)) }
    {
        self.reach(label)?;
        let _ = self.by_label.replace(label as usize, Some(other));
        Ok(())
    }
}

impl Pairs {
    // Whether two labels stand together wherever one of them does. Notes them, where neither stood before.
    fn agree(&mut self, label: u32, other: u32) -> Result<bool, AllocError>
        ensures { (pairs : List (ℕ × ℕ)) → IsTrue (layer.same_pattern pairs) →
            NotesLabels pairs self.old.over.by_label self.old.below.by_label →
            IfOk result (NotesMore pairs (label, other) self.new.over.by_label self.new.below.by_label) }
    {
        match self.over.of(label) {
            None => match self.below.of(other) {
                None => {
                    self.over.note(label, other)?;
                    self.below.note(other, label)?;
                    Ok(true)
                }
                Some(_) => Ok(false),
            },
            Some(over) => match self.below.of(other) {
                None => Ok(false),
                Some(below) => Ok(over == other && below == label),
            },
        }
    }
}

// The labels of the layer's instances, each with the one below it, where two stand together wherever one does.
pub(crate) fn pattern(
    alloc: Global,
    fs: &[Shared<CStmt>],
    hs: &[Shared<CStmt>],
) -> Result<Option<Partners>, AllocError>
    requires { length fs.now ≡ length hs.now }
    ensures { IfOk result (IsPattern fs.now hs.now) }
{
    let mut pairs = Pairs {
        over: Partners::new(alloc),
        below: Partners::new(alloc),
    };
    for (place, s) in fs.iter().enumerate() {
        if !pairs.agree(s.get().label, hs[place].get().label)? {
            return Ok(None);
        }
    }
    let Pairs { over: _over, below } = pairs;
    Ok(Some(below))
}
