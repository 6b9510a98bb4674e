//! Why a script was not read.

ghost use Rattle.std.specs.Prelude.{◌≡◌};

use std::alloc::AllocError;
use thiserror::Error;

/// Why a line is bad.
#[derive(Clone, Copy, Debug, PartialEq, Eq)]
pub enum LineWhy {
    /// The first word is not a session, 1 to `SESSIONS`.
    Session,
    /// The second word is not a verb, or there is none.
    Verb,
    /// The wrong number of words follows the verb.
    Count,
    /// A word is not a name.
    Name,
    /// A word is not a number in its range.
    Number,
}

impl LineWhy {
    ghost use Rattle.script_text.specs.Texts.{why_word};

    /// Returns the word that names the reason.
    pub fn word(self) -> &'static str
        ensures { result.now ≡ why_word self }
    {
        match self {
            LineWhy::Session => "session",
            LineWhy::Verb => "verb",
            LineWhy::Count => "count",
            LineWhy::Name => "name",
            LineWhy::Number => "number",
        }
    }
}

/// Why a script was not read.
#[derive(Debug, Drop, Error)]
pub enum ScriptError {
    #[error("line {number} is bad: {why:?}")]
    BadLine { number: u32, why: LineWhy },
    #[error("out of memory")]
    OutOfMemory,
}

impl From<AllocError> for ScriptError {
    ghost use Rattle.script_text.specs.declared.error.ScriptError.TheVariants.{OutOfMemory};

    ghost from_gives = { λ _ e. e ≡ OutOfMemory };

    fn from(_error: AllocError) -> ScriptError {
        ScriptError::OutOfMemory
    }
}
