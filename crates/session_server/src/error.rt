//! Why a request was not asked, or has no reply.

use hall_server::UnaskedError;
use teb_rules::names::Reply;

/// Why a request of a session at an engine was not asked.
#[derive(Clone, Copy, Debug, PartialEq, Eq)]
pub enum AskError {
    /// The pass has asked `MOST_ASKS` times.
    PassSpent,
    OutOfMemory,
}

/// Why a request of a session has no reply.
#[derive(Clone, Copy, Debug, PartialEq, Eq)]
pub enum ServeError {
    /// The pass has asked `MOST_ASKS` times. Nothing was asked.
    PassSpent,
    /// Nothing was asked.
    Unasked(UnaskedError),
    /// The history has the request, with this reply, but a device has failed: what was committed may be kept or not.
    Unsure(Reply),
}
