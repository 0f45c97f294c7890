// How high an obligation's tree can be, and how many units a search for it can need.
ghost use Rattle.std.specs.Prelude.{◌≡◌, ℕ, ◌+◌, ◌*◌, ◌^◌, ◌≤◌, ◌<◌, min, max, length, MatchOption};
ghost use Rattle.core_terms.specs.declared.trees.CTerm.TheVariants.{Ite};
ghost use Rattle.core_terms.specs.declared.trees.CForm.TheVariants.{AtLeast, Zero, Not, And, Or};
ghost use Rattle.obligations.specs.Shapes.{term_shape, shapes, count_of, count_of_case, count_of_quotient};
ghost use Rattle.obligations.specs.Plain.{range_size, volume, halvings, cuts_of, ranges_of, height_of, leaf_units};
ghost use Rattle.obligations.specs.Plain.{need_of};
ghost use Rattle.obligations.specs.Obligations.{IsObligation};

use crate::branches::{Obligation, Variable};
use core_terms::from_unity_base::Shared;
use core_terms::{CForm, CTerm, Range};

/// The number at which numbers of leaves and units stop.
const MANY: u128 = 1 << 127;

// The sum, or 2^63 where it is more.
fn plus(a: u64, b: u64) -> u64
    ensures { result ≡ min (a + b) (2 ^ 63) }
{
    a.saturating_add(b).min(1 << 63)
}

// What is counted on one path: the cases, or else the quotients that are taken. The functions have it as a const
// parameter, and not as an argument, so that the frames are small.
const OF_CASES: bool = true;

const OF_QUOTIENTS: bool = false;

// What one case more counts.
fn of_case<const CASES: bool>() -> u64
    ensures { result ≡ count_of_case CASES }
{
    if CASES { 1 } else { 0 }
}

// What one quotient more counts.
fn of_quotient<const CASES: bool>() -> u64
    ensures { result ≡ count_of_quotient CASES }
{
    if CASES { 3 } else { 1 }
}

// The greater of two counts, with one case more.
fn either<const CASES: bool>(a: u64, b: u64) -> u64
    ensures { result ≡ min (count_of_case CASES + max a b) (2 ^ 63) }
{
    plus(of_case::<CASES>(), a.max(b))
}

// The count of a formula and that of its negation, or 2^63 where it is more.
#[cycle(counts)]
#[tactic(auto, using(crate::proofs::ShapeLaws::count_laws))]
fn form_counts<const CASES: bool>(f: &CForm) -> (u64, u64)
    ensures yes { result.0 ≡ min (count_of CASES (shapes f.now).yes) (2 ^ 63) }
    ensures no { result.1 ≡ min (count_of CASES (shapes f.now).no) (2 ^ 63) }
{
    match f {
        CForm::Top => (0, 0),
        CForm::Bottom => (0, 0),
        CForm::AtLeast(t) => {
            let count = term_count::<CASES>(t);
            (count, count)
        }
        CForm::Zero(t) => {
            let count = term_count::<CASES>(t);
            (count, plus(of_case::<CASES>(), count))
        }
        CForm::Not(g) => {
            let counts = form_counts::<CASES>(g.get());
            (counts.1, counts.0)
        }
        CForm::And(g, h) => {
            let first = form_counts::<CASES>(g.get());
            let second = form_counts::<CASES>(h.get());
            (plus(first.0, second.0), either::<CASES>(first.1, second.1))
        }
        CForm::Or(g, h) => {
            let first = form_counts::<CASES>(g.get());
            let second = form_counts::<CASES>(h.get());
            (either::<CASES>(first.0, second.0), plus(first.1, second.1))
        }
    }
}

// The count of a term, or 2^63 where it is more.
#[cycle(counts)]
#[tactic(auto, using(crate::proofs::ShapeLaws::count_laws))]
fn term_count<const CASES: bool>(t: &CTerm) -> u64
    ensures { result ≡ min (count_of CASES (term_shape t.now)) (2 ^ 63) }
{
    match t {
        CTerm::Const(_) => 0,
        CTerm::Slot(_) => 0,
        CTerm::Param(_) => 0,
        CTerm::Add(a, b) => plus(term_count::<CASES>(a.get()), term_count::<CASES>(b.get())),
        CTerm::Sub(a, b) => plus(term_count::<CASES>(a.get()), term_count::<CASES>(b.get())),
        CTerm::Scale(_, a) => term_count::<CASES>(a.get()),
        CTerm::Div(a, _) => plus(of_quotient::<CASES>(), term_count::<CASES>(a.get())),
        CTerm::Mod(a, _) => plus(of_quotient::<CASES>(), term_count::<CASES>(a.get())),
        CTerm::Ite(c, a, b) => {
            let when = form_counts::<CASES>(c.get());
            let yes = plus(when.0, term_count::<CASES>(a.get()));
            let no = plus(when.1, term_count::<CASES>(b.get()));
            either::<CASES>(yes, no)
        }
    }
}

/// How often the range is halved until one value is left.
fn halvings_of(range: Range) -> u64
    ensures value { result ≡ halvings range }
    ensures bound { result ≤ 64 }
{
    let size = size_of_range(range);
    for e in 0..64_u32 {
        if size <= 1_u128 << e {
            return e as u64;
        }
    }
    64
}

/// The number of values of a range.
fn size_of_range(range: Range) -> u128
    ensures value { result ≡ range_size range }
    ensures bound { result ≤ 2 ^ 64 }
{
    if range.lo <= range.hi {
        (range.hi as i128 - range.lo as i128).unsigned_abs() + 1
    } else {
        0
    }
}

// How often all ranges are halved, or 2^63 where it is more.
#[tactic(auto, using(crate::proofs::PlainLaws::cuts_laws))]
fn halvings_of_all(vs: &[Variable]) -> u64
    ensures { result ≡ min (cuts_of (ranges_of vs.now)) (2 ^ 63) }
{
    let mut total = 0;
    for v in vs {
        total = plus(total, halvings_of(v.range));
    }
    total
}

// The height, or 2^63 where it is more.
pub fn capped_height(form: &CForm, vs: &[Variable]) -> u64
    ensures { result ≡ min ((shapes form.now).no.cases + cuts_of (ranges_of vs.now)) (2 ^ 63) }
{
    plus(form_counts::<OF_CASES>(form).1, halvings_of_all(vs))
}

/// The height of an obligation: how many cases its negation can ask for on one path, and how often
/// all ranges are halved until each variable has one value.
pub fn height(o: &Obligation) -> u64
    requires { IsObligation o.now }
    ensures { result ≡ height_of o.now }
{
    capped_height(&o.form, o.variables.as_slice())
}

// The product, or 2^127 where it is more.
fn times(a: u128, b: u128) -> u128
    ensures { result ≡ min (a * b) (2 ^ 127) }
{
    a.saturating_mul(b).min(MANY)
}

// The sum, or 2^127 where it is more.
fn add(a: u128, b: u128) -> u128
    ensures { result ≡ min (a + b) (2 ^ 127) }
{
    a.saturating_add(b).min(MANY)
}

// The leaves of a formula and of its negation, or 2^127 where there are more. Nodes have functions of
// their own, so that the frames are small.
#[cycle(leaves)]
fn form_leaves(f: &CForm) -> (u128, u128)
    ensures yes { result.0 ≡ min (shapes f.now).yes.leaves (2 ^ 127) }
    ensures no { result.1 ≡ min (shapes f.now).no.leaves (2 ^ 127) }
{
    match f {
        CForm::Top => (1, 1),
        CForm::Bottom => (1, 1),
        CForm::AtLeast(t) => least_leaves(t),
        CForm::Zero(t) => zero_leaves(t),
        CForm::Not(g) => not_leaves(g),
        CForm::And(g, h) => and_leaves(g, h),
        CForm::Or(g, h) => or_leaves(g, h),
    }
}

#[cycle(leaves)]
#[inline(never)]
fn least_leaves(t: &CTerm) -> (u128, u128)
    ensures yes { result.0 ≡ min (shapes (AtLeast t.now)).yes.leaves (2 ^ 127) }
    ensures no { result.1 ≡ min (shapes (AtLeast t.now)).no.leaves (2 ^ 127) }
{
    let leaves = term_leaves(t);
    (leaves, leaves)
}

#[cycle(leaves)]
#[inline(never)]
fn zero_leaves(t: &CTerm) -> (u128, u128)
    ensures yes { result.0 ≡ min (shapes (Zero t.now)).yes.leaves (2 ^ 127) }
    ensures no { result.1 ≡ min (shapes (Zero t.now)).no.leaves (2 ^ 127) }
{
    let leaves = term_leaves(t);
    (leaves, add(leaves, leaves))
}

#[cycle(leaves)]
#[inline(never)]
fn not_leaves(g: &Shared<CForm>) -> (u128, u128)
    ensures yes { result.0 ≡ min (shapes (Not g.now)).yes.leaves (2 ^ 127) }
    ensures no { result.1 ≡ min (shapes (Not g.now)).no.leaves (2 ^ 127) }
{
    let leaves = form_leaves(g.get());
    (leaves.1, leaves.0)
}

#[cycle(leaves)]
#[inline(never)]
fn and_leaves(g: &Shared<CForm>, h: &Shared<CForm>) -> (u128, u128)
    ensures yes { result.0 ≡ min (shapes (And g.now h.now)).yes.leaves (2 ^ 127) }
    ensures no { result.1 ≡ min (shapes (And g.now h.now)).no.leaves (2 ^ 127) }
{
    let first = form_leaves(g.get());
    let second = form_leaves(h.get());
    (times(first.0, second.0), add(first.1, second.1))
}

#[cycle(leaves)]
#[inline(never)]
fn or_leaves(g: &Shared<CForm>, h: &Shared<CForm>) -> (u128, u128)
    ensures yes { result.0 ≡ min (shapes (Or g.now h.now)).yes.leaves (2 ^ 127) }
    ensures no { result.1 ≡ min (shapes (Or g.now h.now)).no.leaves (2 ^ 127) }
{
    let first = form_leaves(g.get());
    let second = form_leaves(h.get());
    (add(first.0, second.0), times(first.1, second.1))
}

// The leaves of a term, or 2^127 where there are more.
#[cycle(leaves)]
fn term_leaves(t: &CTerm) -> u128
    ensures { result ≡ min (term_shape t.now).leaves (2 ^ 127) }
{
    match t {
        CTerm::Const(_) => 1,
        CTerm::Slot(_) => 1,
        CTerm::Param(_) => 1,
        CTerm::Add(a, b) => times(term_leaves(a.get()), term_leaves(b.get())),
        CTerm::Sub(a, b) => times(term_leaves(a.get()), term_leaves(b.get())),
        CTerm::Scale(_, a) => term_leaves(a.get()),
        CTerm::Div(a, _) => term_leaves(a.get()),
        CTerm::Mod(a, _) => term_leaves(a.get()),
        CTerm::Ite(c, a, b) => choice_leaves(c, a, b),
    }
}

#[cycle(leaves)]
#[inline(never)]
fn choice_leaves(c: &Shared<CForm>, a: &Shared<CTerm>, b: &Shared<CTerm>) -> u128
    ensures { result ≡ min (term_shape (Ite c.now a.now b.now)).leaves (2 ^ 127) }
{
    let when = form_leaves(c.get());
    let yes = times(when.0, term_leaves(a.get()));
    let no = times(when.1, term_leaves(b.get()));
    add(yes, no)
}

// The number of values of all variables together, or 2^127 where it is more.
fn volume_of(vs: &[Variable]) -> u128
    ensures { result ≡ min (volume (ranges_of vs.now)) (2 ^ 127) }
{
    let mut total = 1;
    for v in vs {
        total = times(total, size_of_range(v.range));
    }
    total
}

// The units that closing one leaf may take, or 2^127 where there are more; of so many quotients, or of 2^63 or more.
#[tactic(auto, using(crate::proofs::ShapeLaws::unit_laws))]
fn capped_units(variables: usize, quotients: u64) -> u128
    requires { quotients ≤ 2 ^ 63 }
    ensures { (q : ℕ) → quotients ≡ min q (2 ^ 63) → result ≡ min (leaf_units variables q) (2 ^ 127) }
{
    let quotients = quotients as u128;
    times(2 * quotients + 1, variables as u128 + quotients + 256)
}

// The need, or 2^127 where it is more.
fn capped_need(o: &Obligation) -> u128
    ensures { result ≡ min (need_of o.now) (2 ^ 127) }
{
    let vs = o.variables.as_slice();
    let leaves = times(form_leaves(&o.form).1, volume_of(vs));
    times(
        leaves,
        capped_units(vs.len(), form_counts::<OF_QUOTIENTS>(&o.form).1),
    )
}

/// The units that always suffice for a search: the leaves of the form's negation, times the values of
/// all variables together, times the units that closing one leaf may take. `None` exactly where that is
/// 2^127 or more.
pub fn need(o: &Obligation) -> Option<u128>
    ensures { MatchOption result (2 ^ 127 ≤ need_of o.now) (λ n. (n ≡ need_of o.now) × (n < 2 ^ 127)) }
{
    let units = capped_need(o);
    if units < MANY { Some(units) } else { None }
}
