// Whether a program is a layer over another.
ghost use Rattle.std.specs.Prelude.{◌≡◌, IfOk, List, ℕ};
ghost use Rattle.std.specs.List.{list_all};
ghost use Rattle.safety_rules.specs.from_rules_table.Layers as layer;
ghost use Rattle.superposition.specs.Labels.{TellsTaken};

use crate::extending::{all_extend, writes_above};
use crate::labels::{Partners, pattern};
use crate::shown::Shown;
use core_terms::{CProgram, CStmt};
use std::alloc::{AllocError, Global};
use unity_base::Shared;

// Whether an added instance has a label of its own, and writes no slot that is shown below.
fn is_beside(below: &Shown, taken: &Partners, t: &CStmt) -> bool
    ensures { (labels : List ℕ) → TellsTaken taken.now.by_label labels →
        result ≡ layer.is_beside below.now.slots.now labels t.now }
{
    taken.of(t.label).is_none() && writes_above(below, t)
}

// Whether all added instances do.
fn all_beside(below: &Shown, taken: &Partners, added: &[Shared<CStmt>]) -> bool
    ensures { (labels : List ℕ) → TellsTaken taken.now.by_label labels →
        result ≡ list_all (layer.is_beside below.now.slots.now labels) added.now }
{
    for t in added {
        if !is_beside(below, taken, t.get()) {
            return false;
        }
    }
    true
}

// Whether a program is a layer over one that shows these slots.
pub(crate) fn is_layer(
    alloc: Global,
    below: &Shown,
    h: &CProgram,
    f: &CProgram,
) -> Result<bool, AllocError>
    requires { below.now.slots.now ≡ f.now.shown }
    ensures { IfOk result (λ b. b ≡ layer.is_layer h.now f.now) }
{
    let fs = f.statements.as_slice();
    let hs = h.statements.as_slice();
    if hs.len() < fs.len() {
        return Ok(false);
    }
    let standing = &hs[..fs.len()];
    if !all_extend(below, fs, standing) {
        return Ok(false);
    }
    match pattern(alloc, fs, standing)? {
        Some(taken) => Ok(all_beside(below, &taken, &hs[fs.len()..])),
        None => Ok(false),
    }
}
