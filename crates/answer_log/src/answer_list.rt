//! The list of answers.

ghost use Rattle.std.specs.Prelude.{◌≡◌, []};

use crate::Log;
use script_text::Answered;
use short_reply::ShortReply;
use std::alloc::{AllocError, Global};
use teb_rules::names::{NameBook, Reply, Session};

/// The answers, the first one first.
#[derive(Drop)]
pub struct AnswerList {
    pub answers: Vec<Answered>,
}

impl AnswerList {
    /// Returns a list of no answers. Takes no memory.
    pub fn new(alloc: Global) -> AnswerList
        ensures { result.answers.items ≡ [] }
    {
        AnswerList {
            answers: Vec::new(alloc),
        }
    }
}

impl Log for AnswerList {
    ghost use Rattle.std.specs.Prelude.{◌≡◌, ◌<◌, vec_len, vec_capacity};

    ghost tells = { λ log _ answers. log.answers.items ≡ answers };

    ghost has_room = { λ log. vec_len log.answers < vec_capacity log.answers };

    fn ready(&mut self, _: &NameBook) -> Result<(), AllocError> {
        self.answers.reserve(1)
    }

    fn add(&mut self, _: &NameBook, session: Session, reply: &Reply) {
        let reply = *reply;
        self.answers.push_reserved(Answered { session, reply });
    }

    fn add_short(&mut self, names: &NameBook, session: Session, reply: &ShortReply) {
        self.add(names, session, &reply.full());
    }
}
