//! The count of answers.

ghost use Rattle.std.specs.Prelude.{◌≡◌};

use crate::Log;
use short_reply::ShortReply;
use std::alloc::AllocError;
use teb_rules::names::{NameBook, Reply, Session};

/// The number of answers.
#[derive(Drop)]
pub struct AnswerCount {
    pub count: usize,
}

impl AnswerCount {
    /// Returns a count of no answers.
    pub fn new() -> AnswerCount
        ensures { result.count ≡ 0 }
    {
        AnswerCount { count: 0 }
    }
}

impl Log for AnswerCount {
    ghost use Rattle.std.specs.Prelude.{◌≡◌, ◌+◌, ◌<◌, ◌^◌, length};

    ghost tells = { λ log _ answers. log.count ≡ length answers };

    ghost has_room = { λ log. log.count + 1 < 2 ^ 64 };

    /// Returns an error if no more can be counted.
    fn ready(&mut self, _: &NameBook) -> Result<(), AllocError> {
        if self.count == usize::MAX {
            return Err(AllocError);
        }
        Ok(())
    }

    fn add(&mut self, _: &NameBook, _: Session, _: &Reply) {
        self.count += 1;
    }

    fn add_short(&mut self, _: &NameBook, _: Session, _: &ShortReply) {
        self.count += 1;
    }
}
