//! The store for C: the exports of a static library.
//!
//! `bindings/c/tebaldi.h` declares these exports to C, with the rules for callers. The bindings for Rust and Python are built on
//! them.
//!
//! ```text
//!   C ──store──► handle: a flag and a pointer ──take──► shelf, a box ──► the store does the one thing that is asked
//!                                             ◄──put───                  └──► status, and forms in the caller's memory
//! ```
//!
//! | Exports | |
//! |---|---|
//! | `tebaldi_open`, `tebaldi_close` | open a store over a tree text, and close it |
//! | `tebaldi_ask`, `tebaldi_next_epoch` | answer a request; end the epoch, and begin the next under another tree text |
//! | `tebaldi_ask_ahead`, `tebaldi_write` | of a store in a file: answer while calls wait; make the calls of all commits that wait |
//! | `tebaldi_event`, `tebaldi_order`, `tebaldi_rows` | an event of the history, the serial order, the final rows |
//! | `tebaldi_number`, `tebaldi_name`, `tebaldi_line` | names and numbers; the line of a reply |
//! | `tebaldi_run_text`, `tebaldi_audit` | the printed run of the present epoch; check a printed run, which needs no store |
//! | `tebaldi_version` | tell the version, which needs no store |
//!
//! - A *handle* is the struct that C has of a store. It is closed if all its bytes are 0.
//! - A *shelf* is what an open handle points to. Its store is that of a setup that is whole and has all names (its invariant).
//! - A *form* is a request, a reply, an event or a row as a struct of numbers (`c_forms`).
//! - A *status* is the number that an export returns: 0 is OK, and `src/status.rt` has the others.
//!
//! **What is proved**, for all calls that keep the rules of the header: each export is safe, returns, and frees what it takes. Its
//! clauses say what each status means for the store and for the caller's memory. An export that needs an open store returns
//! `NOT_OPEN` if and only if the handle is closed (`not_open`). The reply and the new events of `tebaldi_ask` are those of
//! `answer` (`ok`: `IsAsked`). The functions that turn a box into C's pointer and back are proved by hand (`held`, `parts`).
//!
//! **Not claimed**: that callers keep the rules; that the structs of the header are those of this crate, which no check compares;
//! anything of the C files that the build adds to the library, such as `heap.c`, which gives it memory.
#![tactic(auto)]

mod ahead;
mod asking;
mod auditing;
mod buffers;
mod calling;
mod contents;
mod epochs;
mod events;
mod filed;
mod form;
mod held;
mod images;
mod lines;
mod naming;
mod opening;
mod parts;
mod rows;
mod run_text;
mod sending;
mod shelf;
mod status;
mod store;
mod version;
