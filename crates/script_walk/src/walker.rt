//! The place of a session in its script.

ghost use Rattle.std.specs.Prelude.{◌≡◌, ◌+◌, ◌<◌, ◌^◌, List, length, option_map};
ghost use Rattle.teb_rules.specs.Scripts.{asks, after_answer, at_first, moved};
ghost use Rattle.script_walk.specs.Advances.{move_at};
ghost use Rattle.script_walk.specs.ScriptStates.{state_of, requests_on};
ghost use Rattle.script_text.specs.declared.Line.{Line};

use crate::advance::{Advance, advance_after};
use script_text::Line;
use teb_rules::names::{Reply, Request};

/// The place of a session in its script.
#[derive(Clone, Copy, Debug, PartialEq, Eq)]
pub struct Walker {
    /// The index of its line, or the number of lines if it has passed the last.
    pub at: usize,
    /// The index of the line that was answered Begun for the transaction that it holds.
    pub begun: Option<usize>,
}

impl Walker {
    /// Returns a session at its first line.
    pub fn new() -> Walker
        ensures { (lines : List Line) → state_of lines result ≡ at_first (requests_on lines) }
    {
        Walker { at: 0, begun: None }
    }

    /// Returns what the session asks next: its line, or after its last line End if it holds a transaction.
    #[inline(always)]
    pub fn next<'a>(&self, lines: &'a [Line]) -> Option<&'a Request>
        ensures { option_map (λ r. r.now) result ≡ asks (state_of lines.now self.now) }
    {
        if self.at < lines.len() {
            Some(&lines[self.at].request)
        } else if self.begun.is_some() {
            Some(&Request::End)
        } else {
            None
        }
    }

    /// Takes a reply to what the session asked.
    #[inline(always)]
    pub fn take(&mut self, lines: &[Line], reply: &Reply)
        ensures { state_of lines.now self.new ≡ after_answer (state_of lines.now self.old) reply.now }
    {
        if self.at >= lines.len() {
            self.begun = None;
            return;
        }
        self.go(advance_after(reply));
    }

    /// Goes on from a line as a reply to it says.
    #[inline(always)]
    pub fn go(&mut self, advance: Advance)
        requires { self.old.at + 1 < 2 ^ 64 }
        ensures { (lines : List Line) → self.old.at < length lines
            → state_of lines self.new ≡ moved (state_of lines self.old).rest (state_of lines self.old).begun (move_at advance) }
    {
        match advance {
            Advance::Stay => {}
            Advance::Enter => {
                self.begun = Some(self.at);
                self.at += 1;
            }
            Advance::Leave => {
                self.begun = None;
                self.at += 1;
            }
            Advance::Return => {
                self.at = self.begun.unwrap_or(self.at);
                self.begun = None;
            }
            Advance::Go => self.at += 1,
        }
    }
}
