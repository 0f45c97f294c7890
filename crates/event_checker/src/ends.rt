//! How the reading of a certificate begins, and what it comes to.
ghost use Rattle.std.specs.Prelude.{◌≤◌, [], ◌∷◌, IfOk, OnOk};
ghost use Rattle.obligations.specs.Obligations.{AreOwn, IsObligation};
ghost use Rattle.obligations.specs.Opening.{first_branch};
ghost use Rattle.certificate_rules.specs.Refutation.{allowing};
ghost use Rattle.event_checker.specs.Checkers.{HasVerdict};
ghost use Rattle.event_checker.specs.Readings.{ReadingStands};

use crate::errors::CertError;
use crate::reading::{Open, Reading};
use case_tables::Code;
use certificate_machine::{Machine, Running};
use obligations::{Obligation, has_room, open_branch, scope_of};
use std::alloc::{AllocError, Global};
use unity_base::Seq;

/// So many nodes may be open before their frames take more memory.
const ROOM_FOR_FRAMES: usize = 64;

/// The reading of a certificate of at most so many levels, of which no node is read. The error is that memory was
/// refused, or that a parameter of the obligation has a number of 2^31 or more.
pub fn open_reading(alloc: Global, o: &Obligation, levels: u32) -> Result<Reading, AllocError>
    requires obligation { IsObligation o.now }
    requires levels { levels ≤ 4096 }
    ensures stands { IfOk result (λ r. ReadingStands o.now.variables (allowing levels (first_branch o.now) ∷ []) r []) }
    ensures own { OnOk result (AreOwn o.now.variables) }
{
    if !has_room(o) {
        return Err(AllocError);
    }
    let frames = Seq::with_capacity(alloc, ROOM_FOR_FRAMES)?;
    let branch = open_branch(alloc, o)?;
    let variables = scope_of(alloc, o.variables.as_slice(), 0)?;
    let sum = Running::new(alloc, o.variables.as_slice())?;
    let machine = Machine {
        levels,
        branch,
        variables,
        frames,
        done: false,
    };
    Ok(Reading {
        machine,
        state: Open::Nothing,
        sum,
        node: 0,
    })
}

/// What the nodes that were read come to, where they are a whole tree.
pub fn verdict(reading: &Reading) -> Result<(), CertError>
    ensures { HasVerdict reading.now result }
{
    match reading.state {
        Open::Failed { code, node } => Err(CertError::Fault { code, node }),
        Open::Sum => {
            if reading.sum.closes() {
                Ok(())
            } else {
                Err(CertError::Fault {
                    code: Code::BadSum,
                    node: reading.node,
                })
            }
        }
        _ => Ok(()),
    }
}
