//! The program `./tebaldi`: scripts of sessions, run over a transactional store of whole numbers.
//!
//! `main` passes the words, standard input and standard output to `run_tebaldi`, and ends with its status.
//!
//! ```text
//!   words ──command_of──► command          `bad words` if there is none
//!   source ──read_input, read_bytes──► input ──run──► output: status, text, history ──put_out──► sink, status
//! ```
//!
//! | Words | Run by |
//! |---|---|
//! | `replay`, `turns` | `script_runner` |
//! | `load NUMBER SIZE` | `shop_load`, without an input |
//! | `threads N`, `pool N` | `hall_runner` |
//! | `crash K` | `crash_runner` |
//! | `phases` | `phase_runner` |
//! | `audit` | `audit_runner` |
//!
//! - What is *shown* is a status, a text, and the history of a run. The whole text is written at once.
//! - A run by several threads also keeps its *entries*, or the pass that is *spent* (`Ended`).
//! - The *gate* is called around each request of `threads` and `pool`. The program's does nothing.
//!
//! **What is proved** of `run_tebaldi`, for all words, sources and sinks. The words and the bytes of the input determine what is
//! shown, exactly, up to the choice of one history by `threads` and `pool`; what is written is all of it, or a prefix with status
//! 4; the history is serialized (clause `right`: `IsRight`, `Ends`). Status 3 and status 4 are left only if the source's or the
//! sink's count of faults rose (`read_fault`, `write_fault`); with another status than 3 the source's count is as it was
//! (`no_read_fault`). With status 8 nothing is written (`out_of_memory`). Other words, and those of `load`, leave the input unread
//! (`unread`).
//!
//! **Not claimed**: time; that a run by threads ends; that standard input and standard output keep the contracts of std.
#![tactic(auto)]

mod ended;
mod source;
mod top;
mod writing;

use command_output::status::OUT_OF_MEMORY;
use command_words::words_of;
use output_writer::exit_code;
use session_tasks::Gate;
use std::env;
use std::process::ExitCode;
use teb_io::{StdSink, StdSource};
use teb_rules::names::Session;
use top::run_tebaldi;
use writing::silent;

/// The gate of the program, which does nothing.
struct Unguarded;

impl Gate for Unguarded {
    fn before(&self, _session: Session, _line: u32) {}

    fn after(&self, _session: Session, _line: u32) {}
}

fn main(rt: HostRuntime) -> ExitCode {
    let mut input = StdSource::new(rt.stdin());
    let mut out = StdSink::new(rt.stdout());
    let ended = match words_of(rt.alloc(), env::args(&rt)) {
        Ok(words) => run_tebaldi(&rt, rt.alloc(), &words, &mut input, &mut out, &Unguarded),
        Err(_) => silent(OUT_OF_MEMORY),
    };
    exit_code(ended.status)
}
