//! What is said on standard error if the shell does not start.

use crate::status::BAD_TREE;
use std::alloc::Global;
use teb_io::{Sink, StdSink, write_whole};
use tree_toml::{TreeTextError, put_fault};

/// Says a line on standard error, and returns the status.
pub fn say(rt: &HostRuntime, status: u8, text: &str) -> u8 {
    let mut errors = StdSink::new(rt.stderr());
    let _ = write_whole(&mut errors, b"tebaldi_shell: ");
    let _ = write_whole(&mut errors, text.as_bytes());
    let _ = write_whole(&mut errors, b"\n");
    status
}

/// Says the fault of a tree text, and returns the status.
pub fn tree_fault(rt: &HostRuntime, alloc: Global, fault: &TreeTextError) -> u8 {
    let mut errors = StdSink::new(rt.stderr());
    let mut text = Vec::new(alloc);
    if put_fault(&mut text, fault).is_ok() {
        let _ = write_whole(&mut errors, b"tebaldi_shell: ");
        let _ = write_whole(&mut errors, &text);
    }
    BAD_TREE
}
