// That the indices that name parameters are a statement's.
ghost use Rattle.std.specs.Prelude.{◌≡◌, ◌≤◌, ◌^◌, ◌++◌, All, IfOk, OnOk, Some};
ghost use Rattle.std.specs.Int.RustNames.{unsigned_abs};
ghost use Rattle.core_terms.specs.Conditions.{ArgFits};
ghost use Rattle.core_terms.specs.Folding as fold;
ghost use Rattle.core_terms.specs.Replacing.{shifted, arg_term};
ghost use Rattle.core_terms.specs.Weights.{plain_weights};
ghost use Rattle.core_terms.specs.declared.trees.CTerm.TheVariants.{Const};
ghost use Rattle.rules_table.specs.Table as table;
ghost use Rattle.safety_rules.specs.Helpers.{equation_of};
ghost use Rattle.safety_rules.specs.Foldable.{IsFoldable};

use core_terms::{Arg, CForm, CTerm, difference_term, owned_form, owned_term, zero_form};
use std::alloc::{AllocError, Global};
use unity_base::{Seq, Shared};

// A parameter with a number added.
fn shifted_param(alloc: Global, number: u32, add: i64) -> Result<Shared<CTerm>, AllocError>
    requires { unsigned_abs add ≤ 2 ^ 62 }
    ensures tree { IfOk result (λ t. t ≡ shifted number add) }
    ensures own { IfOk result (λ t. (plain_weights t).own ≤ 2 ^ 63) }
    ensures most { IfOk result (λ t. (plain_weights t).most ≤ 2 ^ 63) }
{
    if add == 0 {
        return Shared::new(alloc, CTerm::Param(number));
    }
    let param = Shared::new(alloc, CTerm::Param(number))?;
    if add > 0 {
        let more = Shared::new(alloc, CTerm::Const(add))?;
        Shared::new(alloc, CTerm::Add(param, more))
    } else {
        let less = Shared::new(alloc, CTerm::Const(-add))?;
        Shared::new(alloc, CTerm::Sub(param, less))
    }
}

// That a parameter with a number added is the index.
fn equation(alloc: Global, number: u32, add: i64, index: i64) -> Result<Shared<CForm>, AllocError>
    requires { unsigned_abs add ≤ 2 ^ 62 }
    ensures tree { IfOk result (λ f. f ≡ fold.zero_form (fold.difference_term (shifted number add) (Const index))) }
    ensures foldable { IfOk result IsFoldable }
{
    let term = shifted_param(alloc, number, add)?;
    let difference = Shared::new(
        alloc,
        difference_term(alloc, owned_term(alloc, term)?, CTerm::Const(index))?,
    )?;
    Shared::new(alloc, zero_form(owned_term(alloc, difference)?))
}

// Adds that the index, if it names a parameter, is this number.
fn add_equation(alloc: Global, all: &mut Seq<CForm>, arg: Arg, index: i64) -> Result<(), AllocError>
    requires small { ArgFits arg }
    requires foldable { All IsFoldable all.old }
    ensures forms { OnOk result (all.new ≡ all.old ++ equation_of arg index) }
    ensures foldable { OnOk result (All IsFoldable all.new) }
{
    match arg {
        Arg::Number(_) => Ok(()),
        Arg::Param { number, add } => {
            let form = equation(alloc, number, add, index)?;
            all.push(owned_form(alloc, form)?)
        }
        Arg::Slot => Ok(()),
    }
}

// Adds that the indices that name parameters are these numbers.
pub(crate) fn add_equations(
    alloc: Global,
    all: &mut Seq<CForm>,
    args: &[Arg],
    indices: &[i64],
) -> Result<(), AllocError>
    requires small { All ArgFits args.now }
    requires foldable { All IsFoldable all.old }
    ensures forms { OnOk result (all.new ≡ all.old ++ table.equations args.now indices.now) }
    ensures foldable { OnOk result (All IsFoldable all.new) }
{
    for (place, arg) in args.iter().enumerate() {
        if place < indices.len() {
            add_equation(alloc, all, *arg, indices[place])?;
        }
    }
    Ok(())
}
