//! A status, a text, and the history of the run, if there was one.

ghost use Rattle.std.specs.Prelude.{◌≡◌, ◌++◌, codes, decimal, IfOk};
ghost use Rattle.command_output.specs.Shown.{line_alone, events_of, IsShowable};

use itoa::Buffer;
use std::alloc::{AllocError, Global};
use std::marker::Model;
use teb_rules::history::History;

/// The output of a command: a status, a text, and the history of the run, if there was one.
#[derive(Drop)]
pub struct Output {
    status: u8,
    text: Vec<u8>,
    history: Option<History>,
}

impl Model for Output {
    ghost use Rattle.command_output.specs.Shown.{Shown, events_of, IsShowable};

    ghost Value = { Shown };

    ghost view = { λ o. record { status = o.status; text = o.text.items; history = events_of o.history } };

    ghost invariant = { λ o. IsShowable o.status };
}

impl Output {
    /// Returns the output with these parts.
    pub fn new(status: u8, text: Vec<u8>, history: Option<History>) -> Output
        requires { IsShowable status }
        ensures { result ≡ record { status = status; text = text.items; history = events_of history } }
    {
        Output {
            status,
            text,
            history,
        }
    }

    /// Returns a line alone, without a run.
    ///
    /// # Errors
    /// `AllocError`: out of memory.
    pub fn line(alloc: Global, status: u8, line: &str) -> Result<Output, AllocError>
        requires { IsShowable status }
        ensures { IfOk result (λ o. o ≡ line_alone status line.now) }
    {
        let mut text = line.as_bytes().to_vec(alloc)?;
        text.push(b'\n')?;
        Ok(Output::new(status, text, None))
    }

    /// Returns a line alone, without a run: a front, a number, a space and a word.
    ///
    /// # Errors
    /// `AllocError`: out of memory.
    pub fn numbered_line(
        alloc: Global,
        status: u8,
        front: &str,
        number: u32,
        word: &str,
    ) -> Result<Output, AllocError>
        requires { IsShowable status }
        ensures { IfOk result (λ o. o ≡ line_alone status (front.now ++ decimal number ++ codes " " ++ word.now)) }
    {
        let mut text = front.as_bytes().to_vec(alloc)?;
        text.extend_from_slice(Buffer::new().format(number).as_bytes())?;
        text.push(b' ')?;
        text.extend_from_slice(word.as_bytes())?;
        text.push(b'\n')?;
        Ok(Output::new(status, text, None))
    }

    /// Returns the status, the text and the history.
    pub fn into_parts(self) -> (u8, Vec<u8>, Option<History>)
        ensures status { (result.0 ≡ self.status) × IsShowable result.0 }
        ensures text { result.1.items ≡ self.text }
        ensures history { events_of result.2 ≡ self.history }
    {
        (self.status, self.text, self.history)
    }
}
