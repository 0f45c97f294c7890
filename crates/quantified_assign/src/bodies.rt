//! The programs and the proofs of parts, without their headings.

ghost use Rattle.std.specs.Prelude.{◌∷◌, []};
ghost use Rattle.expand_steps.specs.Steps.{Lists, core_proof, outer_scope, proof_fault};
ghost use Rattle.quantified_assign.specs.Bodies.{AddsIn, AddsCore, StartsAreLight, IsPrepared};

use crate::programs::{Making, Sections, add_plain};
use crate::unions::add_union;
use core_terms::{CProgram, CProof};
use expand_steps::core_proof;
use names_rules::NameFault;
use std::alloc::Global;
use unity_base::Seq;
use unity_syntax::{Part, Program, Proof};

fn add_program(
    alloc: Global,
    program: &Program,
    making: &Making,
    programs: &mut Seq<CProgram>,
) -> Result<(), NameFault>
    requires ready { IsPrepared making.now }
    requires light { StartsAreLight programs.old }
    ensures { AddsCore result making.now programs.old programs.new program.now }
{
    match program {
        Program::Union {
            at: _,
            name,
            left,
            right,
        } => add_union(alloc, name, left, right, making.words, programs),
        Program::Plain {
            at: _,
            name,
            declare,
            always: _,
            initially,
            start,
            items,
        } => {
            let sections = Sections {
                name,
                declare,
                initially,
                start,
                items,
            };
            add_plain(alloc, &sections, making, programs)
        }
    }
}

fn add_proof(
    alloc: Global,
    proof: &Proof,
    making: &Making,
    proofs: &mut Seq<CProof>,
) -> Result<(), NameFault>
    requires { IsPrepared making.now }
    ensures { Lists result proofs.old proofs.new
        (core_proof making.now.words.now (outer_scope making.now.known.now) proof.now ∷ [])
        (proof_fault making.now.words.now (outer_scope making.now.known.now) proof.now) }
{
    let core = core_proof(alloc, proof, making.words, making.known)?;
    proofs.push(core)?;
    Ok(())
}

fn add_part(
    alloc: Global,
    part: &Part,
    making: &Making,
    programs: &mut Seq<CProgram>,
    proofs: &mut Seq<CProof>,
) -> Result<(), NameFault>
    requires ready { IsPrepared making.now }
    requires light { StartsAreLight programs.old }
    ensures { AddsIn result making.now programs.old programs.new proofs.old proofs.new (part.now ∷ []) }
{
    match part {
        Part::Program { at: _, of } => add_program(alloc, of, making, programs),
        Part::Proof { at: _, of } => add_proof(alloc, of, making, proofs),
    }
}

/// Adds the programs and the proofs of parts. `Fault` exactly at the first fault of their bodies.
pub fn add_bodies(
    alloc: Global,
    parts: &[Part],
    making: &Making,
    programs: &mut Seq<CProgram>,
    proofs: &mut Seq<CProof>,
) -> Result<(), NameFault>
    requires ready { IsPrepared making.now }
    requires light { StartsAreLight programs.old }
    ensures { AddsIn result making.now programs.old programs.new proofs.old proofs.new parts.now }
{
    for part in parts {
        add_part(alloc, part, making, programs, proofs)?;
    }
    Ok(())
}
