//! The program `./tebaldi_shell`: a store in a file, used by hand.
//!
//! `tebaldi_shell FILE [TREE]` opens the store that FILE has, or makes the file, under the tree text in the file TREE or the plain
//! tree. It reads lines from standard input, and answers each on standard output before it reads the next.
//!
//! ```text
//!   words ──┬─► TREE ──read_tree──► setup ─────────────────┐
//!           └─► FILE ──open_with_capacity──► FileDisk ──► EngineStore::open ──► KeptStore ──► shell_runner::run ──► status
//! ```
//!
//! - A *kept store* is an `EngineStore` on a disk, as the shell asks it: it is the `ShellStore` of this program.
//! - The file is not touched if the tree text is refused. It is locked while the shell runs.
//! - Its *capacity* is 67,108,864 bytes, for two halves with some 2.4 million rows each. A file of another capacity is refused.
//! - What keeps the shell from starting is said on standard error. docs/FORMATS.md has the lines and the statuses.
//!
//! **What is proved** of `serve`, over any disk, source and sink. The shell begins with the rows that the disk has, or with those
//! of the text if the disk has none; of a disk that a crash left, these are the rows after the first k commits, and k is at least
//! the number of commits that were answered (`HasOpened`). The text is what `shell_runner` proves. Whatever a crash leaves at any
//! moment has all commits that the text before it acknowledges, and none but those of the history (`HasServed`, `IsSafe`). The exit
//! code of a run is the one that docs/FORMATS.md lists (`code_of`).
//!
//! **Not claimed**: what `main` does around `serve`, which is read off the code: it opens the files, passes the streams, and says
//! the reason on standard error. That the file keeps the bytes of the disk is trusted, as `file_disk` says.
#![tactic(auto)]

mod kept_store;
mod machine;
mod messages;
mod serving;
mod status;

use command_words::words_of;
use file_disk::{FileDisk, OpenError};
use machine::Machine;
use messages::{say, tree_fault};
use output_writer::exit_code;
use script_text::MOST_BYTES;
use serving::{StartError, serve};
use status::{BAD_WORDS, CANNOT_OPEN, DAMAGED, DISK_FAULT, OUT_OF_MEMORY, READ_FAULT, code_of};
use std::alloc::Global;
use std::env;
use std::fs::File;
use std::process::ExitCode;
use teb_io::{ReadError, StdSink, StdSource, read_all};
use tree_toml::{TreeTextError, read_tree};

/// How many bytes the file can hold: two halves with some 2.4 million rows each.
const CAPACITY: u64 = 67_108_864;

fn main(rt: HostRuntime) -> ExitCode {
    let status = match words_of(rt.alloc(), env::args(&rt)) {
        Ok(words) => start(&rt, rt.alloc(), &words),
        Err(_) => OUT_OF_MEMORY,
    };
    exit_code(status)
}

/// Runs the shell on the file that the words name, under the tree text of the second file, or the plain tree.
fn start(rt: &HostRuntime, alloc: Global, words: &[String]) -> u8 {
    match words {
        [file] => run_on(rt, alloc, file.as_str(), b""),
        [file, tree] => match read_tree_text(rt, alloc, tree.as_str()) {
            Ok(text) => run_on(rt, alloc, file.as_str(), &text),
            Err(ReadError::OutOfMemory) => OUT_OF_MEMORY,
            Err(_) => say(rt, READ_FAULT, "the tree can't be read"),
        },
        _ => say(rt, BAD_WORDS, "usage: tebaldi_shell FILE [TREE]"),
    }
}

fn read_tree_text(rt: &HostRuntime, alloc: Global, path: &str) -> Result<Vec<u8>, ReadError> {
    match File::open(rt, path) {
        Ok(file) => read_all(alloc, &mut StdSource::new(file), MOST_BYTES),
        Err(_) => Err(ReadError::ReadFault),
    }
}

/// Runs the shell on a file under a tree text. A file is not touched if the text is refused.
fn run_on(rt: &HostRuntime, alloc: Global, file: &str, tree: &[u8]) -> u8 {
    match read_tree(alloc, tree) {
        Ok(_setup) => run_under(rt, alloc, file, tree),
        Err(TreeTextError::OutOfMemory) => OUT_OF_MEMORY,
        Err(fault) => tree_fault(rt, alloc, &fault),
    }
}

fn run_under(rt: &HostRuntime, alloc: Global, file: &str, tree: &[u8]) -> u8 {
    let disk = match FileDisk::open_with_capacity(rt, alloc, file, CAPACITY) {
        Ok(disk) => disk,
        Err(OpenError::NotRegular) => {
            return say(rt, CANNOT_OPEN, "it is no regular file");
        }
        Err(OpenError::Busy) => return say(rt, CANNOT_OPEN, "the file is in use"),
        Err(OpenError::TooLong { .. }) => return say(rt, CANNOT_OPEN, "the file is too long"),
        Err(OpenError::Io(_)) => return say(rt, CANNOT_OPEN, "the file can't be opened"),
        Err(OpenError::OutOfMemory) => return OUT_OF_MEMORY,
    };
    let mut machine = Machine::new(rt);
    let mut input = StdSource::new(rt.stdin());
    let mut out = StdSink::new(rt.stdout());
    match serve(alloc, disk, tree, &mut machine, &mut input, &mut out) {
        Ok(ended) => code_of(ended.status),
        Err(why) => refuse(rt, alloc, &why),
    }
}

/// Says why the store was not opened, and returns the status.
fn refuse(rt: &HostRuntime, alloc: Global, why: &StartError) -> u8 {
    match why {
        StartError::BadTree(fault) => tree_fault(rt, alloc, fault),
        StartError::OtherTables => say(rt, CANNOT_OPEN, "the file has other tables"),
        StartError::OtherCapacity => say(rt, CANNOT_OPEN, "the file has another capacity"),
        StartError::Full => say(rt, CANNOT_OPEN, "the rows do not fit the file"),
        StartError::Damaged => say(rt, DAMAGED, "the file is damaged"),
        StartError::DiskFault => say(rt, DISK_FAULT, "the disk failed"),
        StartError::OutOfMemory => OUT_OF_MEMORY,
    }
}
