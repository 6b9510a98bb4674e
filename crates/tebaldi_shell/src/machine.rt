//! The files that a line can name, and the prompt.

use script_text::MOST_BYTES;
use shell_runner::{FileError, Host};
use std::alloc::Global;
use std::fs::File;
use std::io::IsTerminal;
use std::str::from_utf8;
use teb_io::{ReadError, StdSink, StdSource, read_all, write_whole};

/// The machine that the shell runs on.
#[derive(Drop)]
pub struct Machine<'a> {
    rt: &'a HostRuntime,
    is_prompted: bool,
}

impl<'a> Machine<'a> {
    /// Returns the machine of a process. It shows a prompt if standard input is a terminal.
    pub fn new(rt: &'a HostRuntime) -> Machine<'a> {
        let is_prompted = rt.stdin().is_terminal();
        Machine { rt, is_prompted }
    }
}

impl<'a> Host for Machine<'a> {
    fn read_file(&mut self, alloc: Global, name: &[u8]) -> Result<Vec<u8>, FileError> {
        let Ok(path) = from_utf8(name) else {
            return Err(FileError::Unreadable);
        };
        let Ok(file) = File::open(self.rt, path) else {
            return Err(FileError::Unreadable);
        };
        match read_all(alloc, &mut StdSource::new(file), MOST_BYTES) {
            Ok(text) => Ok(text),
            Err(ReadError::ReadFault) => Err(FileError::Unreadable),
            Err(ReadError::TooLong) => Err(FileError::TooLong),
            Err(ReadError::OutOfMemory) => Err(FileError::OutOfMemory),
        }
    }

    fn is_prompted(&self) -> bool {
        self.is_prompted
    }

    /// Shows it on standard error, so that standard output has the answers alone.
    fn prompt(&mut self, text: &[u8]) {
        let mut errors = StdSink::new(self.rt.stderr());
        let _ = write_whole(&mut errors, text);
    }
}
