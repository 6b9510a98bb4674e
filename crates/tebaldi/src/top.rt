//! The top call: all that the program does.

ghost use Rattle.std.specs.Prelude.{◌≡◌, ◌≢◌, false, Some, None};
ghost use Rattle.teb_io.specs.Faults.{Rose};
ghost use Rattle.command_words.specs.Commands.{command_of, reads, texts};
ghost use Rattle.tebaldi.specs.Endings.{IsRight, IsSilent};

use crate::ended::Ended;
use crate::source::{
    audit_source, crash_source, phase_source, pool_source, replay_source, threads_source,
    turn_source,
};
use crate::writing::{put_out, write};
use command_output::status::BAD_WORDS;
use command_words::{Command, command_of};
use session_tasks::Gate;
use shop_load::run_load;
use std::alloc::Global;
use std::sync::Wait;
use std::thread::Threads;
use teb_io::{Sink, Source};

/// Does what the words say: reads the input, runs it, and writes the whole text at once. The words are looked at
/// first; words of no command, and `load`, leave the input unread. If a read fails or there is no memory, nothing is
/// written and nothing is kept. Only `threads` and `pool` wait and start threads; the gate is called round each of their
/// requests.
pub fn run_tebaldi<R: Threads + Wait + Sync, S: Source, K: Sink, G: Gate + Sync>(
    rt: &R,
    alloc: Global,
    words: &[String],
    input: &mut S,
    out: &mut K,
    gate: &G,
) -> Ended
    // There are bytes, those of the source where it tells them, by which the words come to what was written. Of the history
    // of any run, over the store that these bytes set up, or over the shop: the serial order, executed whole, gives every
    // read its value and the final tables; it keeps every node's order; nobody commits before a transaction it read from.
    // To what `threads` or `pool` writes of a whole run, `audit` answers yes, where the text is no longer than an input may
    // be.
    ensures right { result.status ≢ 3 → result.status ≢ 8 → IsRight (command_of (texts words.now)) (S.left input.old) (S.left input.new) result (K.written out.old) (K.written out.new) }
    ensures read_fault { result.status ≡ 3 → Rose (S.faults input.old) (S.faults input.new) × IsSilent result (K.written out.old) (K.written out.new) }
    ensures no_read_fault { result.status ≢ 3 → S.faults input.new ≡ S.faults input.old }
    ensures write_fault { result.status ≡ 4 → Rose (K.faults out.old) (K.faults out.new) }
    ensures out_of_memory { result.status ≡ 8 → IsSilent result (K.written out.old) (K.written out.new) }
    ensures unread { reads (command_of (texts words.now)) ≡ false → input.new ≡ input.old }
{
    match command_of(words) {
        Some(Command::Replay) => replay_source(alloc, input, out),
        Some(Command::Turns) => turn_source(alloc, input, out),
        Some(Command::Threads(workers)) => threads_source(rt, alloc, workers, input, out, gate),
        Some(Command::Audit) => audit_source(alloc, input, out),
        Some(Command::Load { number, size }) => put_out(out, run_load(alloc, number, size)),
        Some(Command::Crash(stop)) => crash_source(alloc, stop, input, out),
        Some(Command::Phases) => phase_source(alloc, input, out),
        Some(Command::Pool(workers)) => pool_source(rt, alloc, workers, input, out, gate),
        None => write(out, BAD_WORDS, b"bad words\n", None),
    }
}
