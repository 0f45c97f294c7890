// Which slots and parameters occur in a formula.
ghost use Rattle.std.specs.Prelude.{◌≡◌, ◌++◌, ◌∷◌, [], nat_eq, Bool, false, not, ◌&&◌, length, OnOk, IfOk};
ghost use Rattle.obligations.specs.Variables.{term_has, form_has, numbered, occurring, no_marks, marked, picked};

use crate::branches::Variable;
use core_terms::from_unity_base::Seq;
use core_terms::{CForm, CTerm, Range};
use std::alloc::{AllocError, Global};

/// A list without a mark, for each range.
#[tactic(auto, using(crate::proofs::OccurrenceLaws::no_marks_laws))]
fn no_marks(alloc: Global, ranges: &[Range]) -> Result<Seq<Option<u32>>, AllocError>
    ensures { IfOk result (λ marks. marks ≡ no_marks ranges.now) }
{
    let mut marks = Seq::new(alloc);
    'places: for _ in ranges {
        marks.push(None)?;
    }
    Ok(marks)
}

// Marks a number, where it is wanted and has a place.
#[tactic(auto, using(crate::proofs::OccurrenceLaws::mark_laws))]
fn mark(marks: &mut Seq<Option<u32>>, wanted: bool, number: u32)
    ensures { marks.new ≡ marked (λ n. wanted && nat_eq number n) 0 marks.old }
{
    if wanted && (number as usize) < marks.len() {
        let _ = marks.replace(number as usize, Some(number));
    }
}

// Marks the numbers of all slots, or of all parameters, that occur in a term.
#[cycle(marks)]
fn mark_term(t: &CTerm, param: bool, marks: &mut Seq<Option<u32>>)
    ensures { marks.new ≡ marked (λ n. term_has param n t.now) 0 marks.old }
{
    match t {
        CTerm::Const(_) => {}
        CTerm::Slot(n) => mark(marks, !param, *n),
        CTerm::Param(n) => mark(marks, param, *n),
        CTerm::Add(a, b) => {
            mark_term(a.get(), param, marks);
            mark_term(b.get(), param, marks);
        }
        CTerm::Sub(a, b) => {
            mark_term(a.get(), param, marks);
            mark_term(b.get(), param, marks);
        }
        CTerm::Scale(_, a) => mark_term(a.get(), param, marks),
        CTerm::Div(a, _) => mark_term(a.get(), param, marks),
        CTerm::Mod(a, _) => mark_term(a.get(), param, marks),
        CTerm::Ite(c, a, b) => {
            mark_form(c.get(), param, marks);
            mark_term(a.get(), param, marks);
            mark_term(b.get(), param, marks);
        }
    }
}

// Marks the numbers of all slots, or of all parameters, that occur in a formula.
#[cycle(marks)]
fn mark_form(f: &CForm, param: bool, marks: &mut Seq<Option<u32>>)
    ensures { marks.new ≡ marked (λ n. form_has param n f.now) 0 marks.old }
{
    match f {
        CForm::Top => {}
        CForm::Bottom => {}
        CForm::AtLeast(t) => mark_term(t, param, marks),
        CForm::Zero(t) => mark_term(t, param, marks),
        CForm::Not(g) => mark_form(g.get(), param, marks),
        CForm::And(g, h) => {
            mark_form(g.get(), param, marks);
            mark_form(h.get(), param, marks);
        }
        CForm::Or(g, h) => {
            mark_form(g.get(), param, marks);
            mark_form(h.get(), param, marks);
        }
    }
}

// Adds the variable of a marked number.
fn add_marked(
    variables: &mut Seq<Variable>,
    param: bool,
    mark: Option<u32>,
    range: Range,
) -> Result<(), AllocError>
    ensures { OnOk result (variables.new ≡ variables.old ++ picked param (mark ∷ []) (range ∷ [])) }
{
    match mark {
        Some(number) => variables.push(Variable {
            param,
            number,
            range,
        }),
        None => Ok(()),
    }
}

// Adds the variables of all marked numbers.
#[tactic(auto, using(crate::proofs::OccurrenceLaws::picked_laws))]
fn add_all_marked(
    variables: &mut Seq<Variable>,
    param: bool,
    marks: &[Option<u32>],
    ranges: &[Range],
) -> Result<(), AllocError>
    requires { length marks.now ≡ length ranges.now }
    ensures { OnOk result (variables.new ≡ variables.old ++ picked param marks.now ranges.now) }
{
    for (place, range) in ranges.iter().enumerate() {
        add_marked(variables, param, marks[place], *range)?;
    }
    Ok(())
}

/// Adds the slots, or the parameters, that occur in a formula, by number.
pub fn add_occurring(
    alloc: Global,
    variables: &mut Seq<Variable>,
    form: &CForm,
    param: bool,
    ranges: &[Range],
) -> Result<(), AllocError>
    ensures { OnOk result (variables.new ≡ variables.old ++ occurring form.now (numbered param 0 ranges.now)) }
{
    let mut marks = no_marks(alloc, ranges)?;
    mark_form(form, param, &mut marks);
    add_all_marked(variables, param, marks.as_slice(), ranges)
}
