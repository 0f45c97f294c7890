// Trees of the greatest depth, through each call on core trees that goes down a tree. A call that took too much stack
// would end the test; that it answers rightly is proved.
ghost use Rattle.std.specs.Prelude.{◌≡◌, pos, All, IfOk, OnOk};
ghost use Rattle.core_terms.specs.declared.trees.CForm.TheVariants.{Top, Bottom};
ghost use Rattle.core_terms.specs.declared.trees.CTerm.TheVariants.{Const};
ghost use Rattle.examples_limits.specs.Deep.{IsDeepTerm, IsDeepForm};

use core_terms::{
    Arg, CForm, CSlot, CTerm, Print, Range, copy_form, copy_term, holds, owned_form, same, size_of,
    size_within, weight_of, with_params, zero_form,
};
use std::alloc::{AllocError, Global};
use std::test::Fail;
use unity_base::{Seq, Shared};

/// How many nodes a formula has at most.
pub const NODES: u32 = 65536;

/// How a formula is put around another.
#[derive(Clone, Copy)]
pub enum Around {
    Not,
    And,
    AndSecond,
    Or,
    OrSecond,
}

/// How a term is put around another.
#[derive(Clone, Copy)]
pub enum TermAround {
    Scale,
    Add,
    AddSecond,
    Sub,
    SubSecond,
    Branch,
    Last,
    Condition,
    Quotient,
    Remainder,
}

/// Each way to put a formula around another, with the greatest number of levels around `0 <= x`.
const FORMS: [(Around, u32); 5] = [
    (Around::Not, NODES - 2),
    (Around::And, (NODES - 2) / 2),
    (Around::AndSecond, (NODES - 2) / 2),
    (Around::Or, (NODES - 2) / 2),
    (Around::OrSecond, (NODES - 2) / 2),
];

/// Each further way to put a term around another, with the greatest number of levels around x, in a formula that it is 0.
pub const TERMS: [(TermAround, u32); 8] = [
    (TermAround::Scale, NODES - 2),
    (TermAround::Add, (NODES - 2) / 2),
    (TermAround::AddSecond, (NODES - 2) / 2),
    (TermAround::Sub, (NODES - 2) / 2),
    (TermAround::SubSecond, (NODES - 2) / 2),
    (TermAround::Branch, (NODES - 2) / 3),
    (TermAround::Last, (NODES - 2) / 3),
    (TermAround::Condition, (NODES - 2) / 4),
];

/// The same of quotients and remainders.
const QUOTIENTS: [(TermAround, u32); 2] = [
    (TermAround::Quotient, NODES - 2),
    (TermAround::Remainder, (NODES - 2) / 2),
];

// A level around a formula, with what always or never holds beside it.
fn joined_form(
    which: Around,
    inner: Shared<CForm>,
    top: Shared<CForm>,
    bottom: Shared<CForm>,
) -> CForm
    requires inner { IsDeepForm inner }
    requires top { top ≡ Top }
    requires bottom { bottom ≡ Bottom }
    ensures { IsDeepForm result }
{
    match which {
        Around::Not => CForm::Not(inner),
        Around::And => CForm::And(inner, top),
        Around::AndSecond => CForm::And(top, inner),
        Around::Or => CForm::Or(inner, bottom),
        Around::OrSecond => CForm::Or(bottom, inner),
    }
}

/// One more level around a formula.
fn form_around(alloc: Global, which: Around, f: CForm) -> Result<CForm, AllocError>
    requires { IsDeepForm f }
    ensures { IfOk result IsDeepForm }
{
    let inner = Shared::new(alloc, f)?;
    let top = Shared::new(alloc, CForm::Top)?;
    let bottom = Shared::new(alloc, CForm::Bottom)?;
    Ok(joined_form(which, inner, top, bottom))
}

// A level around a term, with 0 and what always holds beside it.
fn joined_term(
    which: TermAround,
    inner: Shared<CTerm>,
    zero: Shared<CTerm>,
    top: Shared<CForm>,
) -> CTerm
    requires inner { IsDeepTerm inner }
    requires zero { zero ≡ Const (pos 0) }
    requires top { top ≡ Top }
    ensures { IsDeepTerm result }
{
    match which {
        TermAround::Add => CTerm::Add(inner, zero),
        TermAround::AddSecond => CTerm::Add(zero, inner),
        TermAround::Sub => CTerm::Sub(inner, zero),
        TermAround::SubSecond => CTerm::Sub(zero, inner),
        TermAround::Branch => CTerm::Ite(top, inner, zero),
        TermAround::Last => CTerm::Ite(top, zero, inner),
        TermAround::Quotient => CTerm::Div(inner, 1),
        _ => CTerm::Scale(1, inner),
    }
}

// A choice on a term.
fn choice_on(alloc: Global, t: CTerm) -> Result<CTerm, AllocError>
    requires { IsDeepTerm t }
    ensures { IfOk result IsDeepTerm }
{
    let condition = Shared::new(alloc, CForm::Zero(t))?;
    let first = Shared::new(alloc, CTerm::Const(0))?;
    let second = Shared::new(alloc, CTerm::Const(0))?;
    Ok(CTerm::Ite(condition, first, second))
}

// A remainder of a term. Its weight is twice that of its term and more, so the term is a multiple by 0.
fn remainder_of(alloc: Global, t: CTerm) -> Result<CTerm, AllocError>
    requires { IsDeepTerm t }
    ensures { IfOk result IsDeepTerm }
{
    let none = CTerm::Scale(0, Shared::new(alloc, t)?);
    Ok(CTerm::Mod(Shared::new(alloc, none)?, 1))
}

/// One more level around a term.
pub fn term_around(alloc: Global, which: TermAround, t: CTerm) -> Result<CTerm, AllocError>
    requires { IsDeepTerm t }
    ensures { IfOk result IsDeepTerm }
{
    match which {
        TermAround::Condition => choice_on(alloc, t),
        TermAround::Remainder => remainder_of(alloc, t),
        which => {
            let inner = Shared::new(alloc, t)?;
            let zero = Shared::new(alloc, CTerm::Const(0))?;
            let top = Shared::new(alloc, CForm::Top)?;
            Ok(joined_term(which, inner, zero, top))
        }
    }
}

// A formula of this many levels around `0 <= x`.
fn deep_form(alloc: Global, which: Around, levels: u32) -> Result<CForm, AllocError>
    ensures { IfOk result IsDeepForm }
{
    let mut f = CForm::AtLeast(CTerm::Slot(0));
    for _ in 0..levels {
        f = form_around(alloc, which, f)?;
    }
    Ok(f)
}

// A term of this many levels around another.
fn deep_term(
    alloc: Global,
    which: TermAround,
    levels: u32,
    inside: CTerm,
) -> Result<CTerm, AllocError>
    requires { IsDeepTerm inside }
    ensures { IfOk result IsDeepTerm }
{
    let mut t = inside;
    for _ in 0..levels {
        t = term_around(alloc, which, t)?;
    }
    Ok(t)
}

// The formula that a deep term around a copy of another is 0.
fn deep_zero(
    alloc: Global,
    which: TermAround,
    levels: u32,
    inside: &CTerm,
) -> Result<CForm, AllocError>
    requires { IsDeepTerm inside.now }
    ensures { IfOk result IsDeepForm }
{
    let copy = copy_term(alloc, inside)?;
    Ok(CForm::Zero(deep_term(alloc, which, levels, copy)?))
}

/// Adds formulas that deep terms around copies of a term are 0.
pub fn add_terms(
    alloc: Global,
    ways: &[(TermAround, u32)],
    inside: &CTerm,
    forms: &mut Seq<CForm>,
) -> Result<(), AllocError>
    requires inside { IsDeepTerm inside.now }
    requires forms { All IsDeepForm forms.old }
    ensures { OnOk result (All IsDeepForm forms.new) }
{
    for (which, levels) in ways {
        forms.push(deep_zero(alloc, *which, *levels, inside)?)?;
    }
    Ok(())
}

/// The deepest formulas of each form.
pub fn deep_forms(alloc: Global) -> Result<Seq<CForm>, AllocError>
    ensures { IfOk result (All IsDeepForm) }
{
    let mut forms = Seq::new(alloc);
    for (which, levels) in FORMS {
        forms.push(deep_form(alloc, which, levels)?)?;
    }
    Ok(forms)
}

/// The deepest formulas of each form, and of each form of a term.
pub fn deep_trees(alloc: Global) -> Result<Seq<CForm>, AllocError>
    ensures { IfOk result (All IsDeepForm) }
{
    let mut forms = deep_forms(alloc)?;
    add_terms(alloc, TERMS.as_slice(), &CTerm::Slot(0), &mut forms)?;
    add_terms(alloc, QUOTIENTS.as_slice(), &CTerm::Slot(0), &mut forms)?;
    Ok(forms)
}

/// A slot of the numbers 0 and 1.
pub fn bit() -> CSlot
    ensures low { result.range.lo ≡ pos 0 }
    ensures high { result.range.hi ≡ pos 1 }
{
    CSlot {
        name: 0,
        index: None,
        range: Range { lo: 0, hi: 1 },
        print: Print::Number,
    }
}

// Whether the formula equals its copy, and all its nodes, which are many, are counted.
fn goes_down(alloc: Global, f: &CForm) -> Result<bool, AllocError>
    requires { IsDeepForm f.now }
{
    let copy = copy_form(alloc, f)?;
    let truth = holds(f, [0].as_slice(), [].as_slice());
    let size = size_of(f);
    let most = u64::from(NODES);
    Ok(same(f, &copy) && most - 4 < size && size_within(f, most) == Some(size) && (truth || !truth))
}

// Whether parameters are put into the formula, and it has no more nodes then; and it weighs at most 1, where slot 0
// is 0 or 1.
fn takes_arguments(alloc: Global, f: &CForm) -> Result<bool, AllocError>
    requires { IsDeepForm f.now }
{
    let none: &[Arg] = [].as_slice();
    let filled = with_params(alloc, f, none)?;
    let slots = [bit()];
    Ok(size_of(&filled) <= size_of(f) && weight_of(f, slots.as_slice(), [].as_slice()) <= 1)
}

#[test]
fn takes_deep_trees(rt: HostRuntime) -> Result<(), Fail> {
    let forms = deep_trees(rt.alloc())?;
    for f in forms.as_slice() {
        assert!(rt; goes_down(rt.alloc(), f)? && takes_arguments(rt.alloc(), f)?);
    }
    Ok(())
}

// Folding looks down a whole term once.
#[test]
fn folds_deep_terms(rt: HostRuntime) -> Result<(), Fail> {
    for ways in [TERMS.as_slice(), QUOTIENTS.as_slice()] {
        for (which, levels) in ways {
            let t = deep_term(rt.alloc(), *which, *levels, CTerm::Slot(0))?;
            assert!(rt; size_of(&zero_form(t)) <= u64::from(NODES));
        }
    }
    Ok(())
}

// A formula of this many levels, both parts of each of which are one tree.
fn doubled(alloc: Global, levels: u32) -> Result<CForm, AllocError> {
    let mut f = CForm::Top;
    for _ in 0..levels {
        let first = Shared::new(alloc, f)?;
        let second = first.share()?;
        f = CForm::And(first, second);
    }
    Ok(f)
}

// A formula that is opened where it has another owner, and one of 2^61 - 1 nodes in 61 places.
#[test]
fn shares_trees(rt: HostRuntime) -> Result<(), Fail> {
    let f = deep_form(rt.alloc(), Around::Not, NODES - 2)?;
    let whole = Shared::new(rt.alloc(), f)?;
    let opened = owned_form(rt.alloc(), whole.share()?)?;
    drop(whole);
    assert!(rt; size_of(&opened) == u64::from(NODES));
    for (levels, size) in [(10, Some(2047)), (15, Some(65535)), (16, None), (60, None)] {
        let f = doubled(rt.alloc(), levels)?;
        assert!(rt; size_within(&f, u64::from(NODES)) == size);
    }
    Ok(())
}
