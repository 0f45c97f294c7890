// Whether an instance of a layer does what the one under it does.
ghost use Rattle.std.specs.Prelude.{◌≡◌, length, not};
ghost use Rattle.std.specs.List.{list_all};
ghost use Rattle.core_terms.specs.Conditions.{is_shown};
ghost use Rattle.core_terms.specs.Trees as trees;
ghost use Rattle.meaning_executions.specs.Counting.{ints_eq};
ghost use Rattle.safety_rules.specs.from_rules_table.Layers as layer;

use crate::shown::Shown;
use core_terms::{CForm, CStmt, CTerm, CWrite, same_term};
use safety_rules::is_same;
use unity_base::Shared;

// Whether two terms are equal trees.
fn is_same_term(t: &CTerm, u: &CTerm) -> bool
    ensures { result ≡ trees.same_term t.now u.now }
{
    same_term(t, u)
}

// Whether two writes give the same value to the same slot, under the same condition.
fn same_write(v: &CWrite, w: &CWrite) -> bool
    ensures { result ≡ layer.same_write v.now w.now }
{
    v.slot == w.slot && is_same(&v.when, &w.when) && is_same_term(&v.value, &w.value)
}

// Whether two instances have the same indices.
fn same_indices(s: &[i64], t: &[i64]) -> bool
    ensures { result ≡ ints_eq s.now t.now }
{
    s == t
}

// Whether these are an instance's writes to slots that are shown below.
fn are_writes_below(below: &Shown, writes: &[CWrite], t: &CStmt) -> bool
    ensures { result ≡ layer.all_two layer.same_write writes.now (layer.writes_below below.now.slots.now t.now) }
{
    let mut place = 0;
    for w in t.writes.as_slice() {
        if below.has(w.slot) {
            if place >= writes.len() || !same_write(&writes[place], w) {
                return false;
            }
            place += 1;
        }
    }
    place == writes.len()
}

// Whether the second list begins with the first.
fn is_prefix(fs: &[CForm], gs: &[CForm]) -> bool
    ensures { result ≡ layer.is_prefix fs.now gs.now }
{
    for (place, f) in fs.iter().enumerate() {
        if place >= gs.len() || !is_same(f, &gs[place]) {
            return false;
        }
    }
    true
}

// Whether an instance makes the writes of the one below it, and more to other slots alone.
fn extends(below: &Shown, s: &CStmt, t: &CStmt) -> bool
    ensures { result ≡ layer.extends below.now.slots.now s.now t.now }
{
    same_indices(s.indices.as_slice(), t.indices.as_slice())
        && are_writes_below(below, s.writes.as_slice(), t)
        && is_prefix(s.outside.as_slice(), t.outside.as_slice())
}

// Whether each of these instances does so, at the same place.
pub(crate) fn all_extend(below: &Shown, fs: &[Shared<CStmt>], hs: &[Shared<CStmt>]) -> bool
    requires { length fs.now ≡ length hs.now }
    ensures { result ≡ layer.all_two (layer.extends below.now.slots.now) fs.now hs.now }
{
    for (place, s) in fs.iter().enumerate() {
        if !extends(below, s.get(), hs[place].get()) {
            return false;
        }
    }
    true
}

// Whether an instance writes no slot that is shown below.
pub(crate) fn writes_above(below: &Shown, t: &CStmt) -> bool
    ensures { result ≡ list_all (λ w. not (is_shown below.now.slots.now w.slot)) t.now.writes }
{
    for w in t.writes.as_slice() {
        if below.has(w.slot) {
            return false;
        }
    }
    true
}
