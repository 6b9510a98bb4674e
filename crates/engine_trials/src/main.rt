//! Trials of an engine as an embedder has it: what its registers lend, and that a request that finds no memory changes nothing.
//!
//! The program prints the replies to 24 requests, what the engine lends before the last two and at the end, and the entries of
//! a hall. `stdout` has the expected text, worked out by hand. Then all of it runs again after a transaction that leaves room
//! for some of the events only, with versions that refuse room at one call. Each run must give the same text as one in which
//! nothing is refused. The last line says how many were tried.
//!
//! *Lent* are views of the engine's state: the history, the versions of each cell, the book of dependencies, and what the
//! control of each node keeps. That a failed `ready` leaves the engine as it was is also a contract (`Engine::ready`, clause
//! `err`).
//!
//! **Not claimed**: anything of other requests or trees. There is one tree, with a node of each control.
#![tactic(auto)]

mod engine_trial;
mod error;
mod hall_trial;
mod lent;
mod plan;
mod refusing;
mod room;

use crate::engine_trial::{engine_text, events_of_room};
use crate::error::TrialError;
use crate::hall_trial::{HALL_EVENTS, hall_text};
use crate::plan::EVENTS;
use std::alloc::Global;
use std::process::ExitCode;
use std::sync::Wait;

/// The exit code for out of memory.
const OUT_OF_MEMORY: u8 = 8;

fn main(rt: HostRuntime) -> ExitCode {
    match trials(&rt, rt.alloc()) {
        Ok(text) => match print!(rt; "{text}") {
            Ok(()) => ExitCode::SUCCESS,
            Err(_) => ExitCode::FAILURE,
        },
        Err(TrialError::Memory) => ExitCode::from(OUT_OF_MEMORY),
        Err(TrialError::Changed) => ExitCode::FAILURE,
    }
}

/// Returns the text of all trials.
fn trials(rt: &impl Wait, alloc: Global) -> Result<String, TrialError> {
    let mut text = engine_text(alloc, 0, None)?;
    text.push_str(&hall_text(rt, alloc, 0, None)?)?;
    let room = events_of_room(alloc)?;
    let engines = same_engines(alloc, room)?;
    let halls = same_halls(rt, alloc, room)?;
    writeln!(
        text,
        "{engines} engines and {halls} halls were refused room, and went on as if they were not"
    )?;
    Ok(text)
}

/// Returns how many engines were refused room, at the first request or when the room for their events is used up. Each must give
/// the text of an engine that is refused nothing.
fn same_engines(alloc: Global, room: usize) -> Result<usize, TrialError> {
    if engine_text(alloc, 0, Some(0))? != engine_text(alloc, 0, None)? {
        return Err(TrialError::Changed);
    }
    for left in 0..=EVENTS {
        let before = room.saturating_sub(left);
        if engine_text(alloc, before, Some(1))? != engine_text(alloc, before, None)? {
            return Err(TrialError::Changed);
        }
    }
    Ok(EVENTS + 2)
}

/// The same for halls.
fn same_halls(rt: &impl Wait, alloc: Global, room: usize) -> Result<usize, TrialError> {
    if hall_text(rt, alloc, 0, Some(0))? != hall_text(rt, alloc, 0, None)? {
        return Err(TrialError::Changed);
    }
    for left in 0..=HALL_EVENTS {
        let before = room.saturating_sub(left);
        if hall_text(rt, alloc, before, Some(1))? != hall_text(rt, alloc, before, None)? {
            return Err(TrialError::Changed);
        }
    }
    Ok(HALL_EVENTS + 2)
}
