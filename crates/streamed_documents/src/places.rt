//! Where the steps of a document stand.
ghost use Rattle.std.specs.Prelude.{◌≡◌, ◌++◌, map, IfOk, OnOk};
ghost use Rattle.streamed_documents.specs.Places.{step_place, part_places, step_places};

use std::alloc::{AllocError, Global};
use unity_base::Seq;
use unity_syntax::{Document, Part, Step};

/// Adds the place of each step's name.
fn add_steps(steps: &[Step], places: &mut Seq<u64>) -> Result<(), AllocError>
    ensures { OnOk result (places.new ≡ places.old ++ map step_place steps.now) }
{
    for step in steps {
        places.push(step.name.at)?;
    }
    Ok(())
}

/// Adds the places of the steps of a part.
fn add_part(part: &Part, places: &mut Seq<u64>) -> Result<(), AllocError>
    ensures { OnOk result (places.new ≡ places.old ++ part_places part.now) }
{
    match part {
        Part::Program { .. } => Ok(()),
        Part::Proof { of, .. } => add_steps(of.steps.as_slice(), places),
    }
}

/// The place of each step's name, in the order of the document.
pub(crate) fn step_places(alloc: Global, document: &Document) -> Result<Seq<u64>, AllocError>
    ensures { IfOk result (λ places. places ≡ step_places document.now) }
{
    let mut places = Seq::new(alloc);
    for part in document.parts.as_slice() {
        add_part(part, &mut places)?;
    }
    Ok(places)
}
