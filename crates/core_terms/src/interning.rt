// A tree put into the tables of a pool, part by part. Each kind of node has a function of its own, and each kind of
// entry, so that the frames are small.
ghost use Rattle.std.specs.Prelude.{◌≡◌, Some, slice_get, IfOk};
ghost use Rattle.core_terms.specs.declared.trees.CTerm.TheVariants as term;
ghost use Rattle.core_terms.specs.declared.trees.CForm.TheVariants as form;
ghost use Rattle.core_terms.specs.Pools.{pooled, IsPool, Grows};
ghost use Rattle.core_terms.specs.Senses.{pair_node, divided_node, sense_node, joined_node};

use crate::known::{Dividing, Joining, Pairing, Sense};
use crate::nodes::{FormId, TermId};
use crate::placing;
use crate::tables::Tables;
use crate::trees::{CForm, CTerm};
use std::alloc::AllocError;
use unity_base::Shared;

/// The place of a formula, where it is put if it has none.
///
/// An error says that memory was refused; all that the tables held stays.
#[cycle(interning)]
pub fn put_form(tables: &mut Tables, f: &CForm) -> Result<FormId, AllocError>
    requires whole { IsPool (pooled tables.old) }
    ensures tree { IfOk result (λ id. slice_get (pooled tables.new).forms id.place ≡ Some f.now) }
    ensures whole { IsPool (pooled tables.new) }
    ensures kept { Grows (pooled tables.old) (pooled tables.new) }
{
    match f {
        CForm::Top => placing::place_truth(tables, true),
        CForm::Bottom => placing::place_truth(tables, false),
        CForm::AtLeast(t) => put_sense(tables, Sense::AtLeast, t),
        CForm::Zero(t) => put_sense(tables, Sense::Zero, t),
        CForm::Not(g) => put_not(tables, g),
        CForm::And(g, h) => put_joined(tables, Joining::Both, g, h),
        CForm::Or(g, h) => put_joined(tables, Joining::Either, g, h),
    }
}

#[cycle(interning)]
#[inline(never)]
#[tactic(auto, using(crate::proofs::PoolLaws::grown))]
fn put_sense(tables: &mut Tables, sense: Sense, t: &CTerm) -> Result<FormId, AllocError>
    requires whole { IsPool (pooled tables.old) }
    ensures tree { IfOk result (λ id. slice_get (pooled tables.new).forms id.place ≡ Some (sense_node sense t.now)) }
    ensures whole { IsPool (pooled tables.new) }
    ensures kept { Grows (pooled tables.old) (pooled tables.new) }
{
    let part = put_term(tables, t)?;
    placing::place_sense(tables, sense, part)
}

#[cycle(interning)]
#[inline(never)]
#[tactic(auto, using(crate::proofs::PoolLaws::grown))]
fn put_not(tables: &mut Tables, g: &Shared<CForm>) -> Result<FormId, AllocError>
    requires whole { IsPool (pooled tables.old) }
    ensures tree { IfOk result (λ id. slice_get (pooled tables.new).forms id.place ≡ Some (form.Not g.now)) }
    ensures whole { IsPool (pooled tables.new) }
    ensures kept { Grows (pooled tables.old) (pooled tables.new) }
{
    let part = put_form(tables, g.get())?;
    placing::place_not(tables, part)
}

#[cycle(interning)]
#[inline(never)]
#[tactic(auto, using(crate::proofs::PoolLaws::grown))]
fn put_joined(
    tables: &mut Tables,
    joining: Joining,
    g: &Shared<CForm>,
    h: &Shared<CForm>,
) -> Result<FormId, AllocError>
    requires whole { IsPool (pooled tables.old) }
    ensures tree { IfOk result (λ id. slice_get (pooled tables.new).forms id.place ≡
        Some (joined_node joining g.now h.now)) }
    ensures whole { IsPool (pooled tables.new) }
    ensures kept { Grows (pooled tables.old) (pooled tables.new) }
{
    let first = put_form(tables, g.get())?;
    let second = put_form(tables, h.get())?;
    placing::place_joined(tables, joining, first, second)
}

/// The place of a term, where it is put if it has none.
///
/// An error says that memory was refused; all that the tables held stays.
#[cycle(interning)]
pub fn put_term(tables: &mut Tables, t: &CTerm) -> Result<TermId, AllocError>
    requires whole { IsPool (pooled tables.old) }
    ensures tree { IfOk result (λ id. slice_get (pooled tables.new).terms id.place ≡ Some t.now) }
    ensures whole { IsPool (pooled tables.new) }
    ensures kept { Grows (pooled tables.old) (pooled tables.new) }
{
    match t {
        CTerm::Const(c) => placing::place_constant(tables, *c),
        CTerm::Slot(n) => placing::place_slot(tables, *n),
        CTerm::Param(n) => placing::place_param(tables, *n),
        CTerm::Add(a, b) => put_pair(tables, Pairing::Sum, a, b),
        CTerm::Sub(a, b) => put_pair(tables, Pairing::Difference, a, b),
        CTerm::Scale(k, a) => put_multiple(tables, *k, a),
        CTerm::Div(a, k) => put_divided(tables, Dividing::Quotient, a, *k),
        CTerm::Mod(a, k) => put_divided(tables, Dividing::Remainder, a, *k),
        CTerm::Ite(c, a, b) => put_choice(tables, c, a, b),
    }
}

#[cycle(interning)]
#[inline(never)]
#[tactic(auto, using(crate::proofs::PoolLaws::grown))]
fn put_pair(
    tables: &mut Tables,
    which: Pairing,
    a: &Shared<CTerm>,
    b: &Shared<CTerm>,
) -> Result<TermId, AllocError>
    requires whole { IsPool (pooled tables.old) }
    ensures tree { IfOk result (λ id. slice_get (pooled tables.new).terms id.place ≡
        Some (pair_node which a.now b.now)) }
    ensures whole { IsPool (pooled tables.new) }
    ensures kept { Grows (pooled tables.old) (pooled tables.new) }
{
    let first = put_term(tables, a.get())?;
    let second = put_term(tables, b.get())?;
    placing::place_pair(tables, which, first, second)
}

#[cycle(interning)]
#[inline(never)]
#[tactic(auto, using(crate::proofs::PoolLaws::grown))]
fn put_multiple(tables: &mut Tables, k: i64, a: &Shared<CTerm>) -> Result<TermId, AllocError>
    requires whole { IsPool (pooled tables.old) }
    ensures tree { IfOk result (λ id. slice_get (pooled tables.new).terms id.place ≡ Some (term.Scale k a.now)) }
    ensures whole { IsPool (pooled tables.new) }
    ensures kept { Grows (pooled tables.old) (pooled tables.new) }
{
    let part = put_term(tables, a.get())?;
    placing::place_multiple(tables, k, part)
}

#[cycle(interning)]
#[inline(never)]
#[tactic(auto, using(crate::proofs::PoolLaws::grown))]
fn put_divided(
    tables: &mut Tables,
    which: Dividing,
    a: &Shared<CTerm>,
    k: i64,
) -> Result<TermId, AllocError>
    requires whole { IsPool (pooled tables.old) }
    ensures tree { IfOk result (λ id. slice_get (pooled tables.new).terms id.place ≡
        Some (divided_node which a.now k)) }
    ensures whole { IsPool (pooled tables.new) }
    ensures kept { Grows (pooled tables.old) (pooled tables.new) }
{
    let part = put_term(tables, a.get())?;
    placing::place_divided(tables, which, part, k)
}

#[cycle(interning)]
#[inline(never)]
#[tactic(auto, using(crate::proofs::PoolLaws::grown))]
fn put_choice(
    tables: &mut Tables,
    c: &Shared<CForm>,
    a: &Shared<CTerm>,
    b: &Shared<CTerm>,
) -> Result<TermId, AllocError>
    requires whole { IsPool (pooled tables.old) }
    ensures tree { IfOk result (λ id. slice_get (pooled tables.new).terms id.place ≡
        Some (term.Ite c.now a.now b.now)) }
    ensures whole { IsPool (pooled tables.new) }
    ensures kept { Grows (pooled tables.old) (pooled tables.new) }
{
    let condition = put_form(tables, c.get())?;
    let first = put_term(tables, a.get())?;
    let second = put_term(tables, b.get())?;
    placing::place_choice(tables, condition, first, second)
}
