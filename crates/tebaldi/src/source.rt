//! The commands that read their input from the source.

ghost use Rattle.std.specs.Prelude.{◌≡◌, ◌≢◌, ◌≤◌, Some, None};
ghost use Rattle.teb_io.specs.Faults.{Rose};
ghost use Rattle.input_reader.specs.Refusals.{refusal as refusal_shown};
ghost use Rattle.output_writer.specs.Endings.{IsWritten};
ghost use Rattle.tebaldi.specs.Endings.{IsRight, IsSilent};
ghost use Rattle.tebaldi.specs.Shows.{IsAlone};

use crate::ended::Ended;
use crate::writing::{put_out, put_served, silent};
use audit_runner::run_audit;
use command_output::status::READ_FAULT;
use command_words::Command;
use crash_runner::run_crash;
use hall_runner::{serve_by_pool, serve_by_threads};
use input_reader::{InputError, read_bytes, read_input, refusal};
use phase_runner::run_phases;
use script_runner::{run_replay, run_turns};
use session_tasks::Gate;
use std::alloc::Global;
use std::sync::Wait;
use std::thread::Threads;
use teb_io::{Sink, Source};

/// Reads an input, and runs it as one interleaving.
pub fn replay_source<S: Source, K: Sink>(alloc: Global, input: &mut S, out: &mut K) -> Ended
    ensures right { result.status ≢ 3 → result.status ≢ 8 → IsRight (Some Command.Replay) (S.left input.old) (S.left input.new) result (K.written out.old) (K.written out.new) }
    ensures read_fault { result.status ≡ 3 → Rose (S.faults input.old) (S.faults input.new) × IsSilent result (K.written out.old) (K.written out.new) }
    ensures no_read_fault { result.status ≢ 3 → S.faults input.new ≡ S.faults input.old }
    ensures write_fault { result.status ≡ 4 → Rose (K.faults out.old) (K.faults out.new) }
    ensures out_of_memory { result.status ≡ 8 → IsSilent result (K.written out.old) (K.written out.new) }
{
    match read_input(alloc, input) {
        Ok(read) => put_out(out, run_replay(alloc, read)),
        Err(error) => refuse(alloc, out, &error),
    }
}

/// Reads an input, and runs one script for each session, in turns.
pub fn turn_source<S: Source, K: Sink>(alloc: Global, input: &mut S, out: &mut K) -> Ended
    ensures right { result.status ≢ 3 → result.status ≢ 8 → IsRight (Some Command.Turns) (S.left input.old) (S.left input.new) result (K.written out.old) (K.written out.new) }
    ensures read_fault { result.status ≡ 3 → Rose (S.faults input.old) (S.faults input.new) × IsSilent result (K.written out.old) (K.written out.new) }
    ensures no_read_fault { result.status ≢ 3 → S.faults input.new ≡ S.faults input.old }
    ensures write_fault { result.status ≡ 4 → Rose (K.faults out.old) (K.faults out.new) }
    ensures out_of_memory { result.status ≡ 8 → IsSilent result (K.written out.old) (K.written out.new) }
{
    match read_input(alloc, input) {
        Ok(read) => put_out(out, run_turns(alloc, read)),
        Err(error) => refuse(alloc, out, &error),
    }
}

/// Reads an input, and serves the script of each session by `workers` workers.
pub fn threads_source<R: Threads + Wait + Sync, S: Source, K: Sink, G: Gate + Sync>(
    rt: &R,
    alloc: Global,
    workers: u8,
    input: &mut S,
    out: &mut K,
    gate: &G,
) -> Ended
    requires { 1 ≤ workers }
    ensures right { result.status ≢ 3 → result.status ≢ 8 → IsRight (Some (Command.Threads workers)) (S.left input.old) (S.left input.new) result (K.written out.old) (K.written out.new) }
    ensures read_fault { result.status ≡ 3 → Rose (S.faults input.old) (S.faults input.new) × IsSilent result (K.written out.old) (K.written out.new) }
    ensures no_read_fault { result.status ≢ 3 → S.faults input.new ≡ S.faults input.old }
    ensures write_fault { result.status ≡ 4 → Rose (K.faults out.old) (K.faults out.new) }
    ensures out_of_memory { result.status ≡ 8 → IsSilent result (K.written out.old) (K.written out.new) }
{
    match read_input(alloc, input) {
        Ok(read) => put_served(out, serve_by_threads(rt, alloc, read, workers, gate)),
        Err(error) => refuse(alloc, out, &error),
    }
}

/// Reads an input, and serves the script of each session by `workers` workers, which take the sessions from a queue.
pub fn pool_source<R: Threads + Wait + Sync, S: Source, K: Sink, G: Gate + Sync>(
    rt: &R,
    alloc: Global,
    workers: u8,
    input: &mut S,
    out: &mut K,
    gate: &G,
) -> Ended
    requires { 1 ≤ workers }
    ensures right { result.status ≢ 3 → result.status ≢ 8 → IsRight (Some (Command.Pool workers)) (S.left input.old) (S.left input.new) result (K.written out.old) (K.written out.new) }
    ensures read_fault { result.status ≡ 3 → Rose (S.faults input.old) (S.faults input.new) × IsSilent result (K.written out.old) (K.written out.new) }
    ensures no_read_fault { result.status ≢ 3 → S.faults input.new ≡ S.faults input.old }
    ensures write_fault { result.status ≡ 4 → Rose (K.faults out.old) (K.faults out.new) }
    ensures out_of_memory { result.status ≡ 8 → IsSilent result (K.written out.old) (K.written out.new) }
{
    match read_input(alloc, input) {
        Ok(read) => put_served(out, serve_by_pool(rt, alloc, read, workers, gate)),
        Err(error) => refuse(alloc, out, &error),
    }
}

/// Reads an input, and replays it on a disk that fails from its call `stop` on.
pub fn crash_source<S: Source, K: Sink>(
    alloc: Global,
    stop: u32,
    input: &mut S,
    out: &mut K,
) -> Ended
    ensures right { result.status ≢ 3 → result.status ≢ 8 → IsRight (Some (Command.Crash stop)) (S.left input.old) (S.left input.new) result (K.written out.old) (K.written out.new) }
    ensures read_fault { result.status ≡ 3 → Rose (S.faults input.old) (S.faults input.new) × IsSilent result (K.written out.old) (K.written out.new) }
    ensures no_read_fault { result.status ≢ 3 → S.faults input.new ≡ S.faults input.old }
    ensures write_fault { result.status ≡ 4 → Rose (K.faults out.old) (K.faults out.new) }
    ensures out_of_memory { result.status ≡ 8 → IsSilent result (K.written out.old) (K.written out.new) }
{
    match read_input(alloc, input) {
        Ok(read) => put_out(out, run_crash(alloc, stop, read)),
        Err(error) => refuse(alloc, out, &error),
    }
}

/// Reads a printed run, and checks it.
pub fn audit_source<S: Source, K: Sink>(alloc: Global, input: &mut S, out: &mut K) -> Ended
    ensures right { result.status ≢ 3 → result.status ≢ 8 → IsRight (Some Command.Audit) (S.left input.old) (S.left input.new) result (K.written out.old) (K.written out.new) }
    ensures read_fault { result.status ≡ 3 → Rose (S.faults input.old) (S.faults input.new) × IsSilent result (K.written out.old) (K.written out.new) }
    ensures no_read_fault { result.status ≢ 3 → S.faults input.new ≡ S.faults input.old }
    ensures write_fault { result.status ≡ 4 → Rose (K.faults out.old) (K.faults out.new) }
    ensures out_of_memory { result.status ≡ 8 → IsSilent result (K.written out.old) (K.written out.new) }
{
    match read_bytes(alloc, input) {
        Ok(text) => put_out(out, run_audit(alloc, &text)),
        Err(error) => refuse(alloc, out, &InputError::from(error)),
    }
}

/// Reads an input of phases, and runs them one after another.
pub fn phase_source<S: Source, K: Sink>(alloc: Global, input: &mut S, out: &mut K) -> Ended
    ensures right { result.status ≢ 3 → result.status ≢ 8 → IsRight (Some Command.Phases) (S.left input.old) (S.left input.new) result (K.written out.old) (K.written out.new) }
    ensures read_fault { result.status ≡ 3 → Rose (S.faults input.old) (S.faults input.new) × IsSilent result (K.written out.old) (K.written out.new) }
    ensures no_read_fault { result.status ≢ 3 → S.faults input.new ≡ S.faults input.old }
    ensures write_fault { result.status ≡ 4 → Rose (K.faults out.old) (K.faults out.new) }
    ensures out_of_memory { result.status ≡ 8 → IsSilent result (K.written out.old) (K.written out.new) }
{
    match read_bytes(alloc, input) {
        Ok(bytes) => put_out(out, run_phases(alloc, &bytes)),
        Err(error) => refuse(alloc, out, &InputError::from(error)),
    }
}

/// Writes why an input is refused; nothing if a read failed or there is no memory.
fn refuse<K: Sink>(alloc: Global, out: &mut K, error: &InputError) -> Ended
    ensures written { result.status ≢ 3 → result.status ≢ 8 → IsWritten (refusal_shown error.now) result.status result.history (K.written out.old) (K.written out.new) }
    ensures history { result.history ≡ None }
    ensures alone { IsAlone result }
    ensures read { result.status ≡ 3 → error.now ≡ InputError.ReadFault }
    ensures read_fault { error.now ≡ InputError.ReadFault → result.status ≡ 3 }
    ensures memory { error.now ≡ InputError.OutOfMemory → result.status ≡ 8 }
    ensures silent { result.status ≡ 3 → IsSilent result (K.written out.old) (K.written out.new) }
    ensures fault { result.status ≡ 4 → Rose (K.faults out.old) (K.faults out.new) }
    ensures out_of_memory { result.status ≡ 8 → IsSilent result (K.written out.old) (K.written out.new) }
{
    match error {
        InputError::ReadFault => silent(READ_FAULT),
        _ => put_out(out, refusal(alloc, error)),
    }
}
