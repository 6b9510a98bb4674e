//! Why a server gives no reply.

use teb_rules::names::Reply;

/// Why a request was not asked. Nothing has changed.
#[derive(Clone, Copy, Debug, PartialEq, Eq)]
pub enum UnaskedError {
    /// A device has failed at an earlier request.
    Stopped,
    /// There is no room for what the request may commit.
    Full,
    OutOfMemory,
}

/// Why a server gives no reply.
#[derive(Clone, Copy, Debug, PartialEq, Eq)]
pub enum ServerError {
    /// Nothing was asked, and nothing has changed.
    Unasked(UnaskedError),
    /// The history has the request, with this reply, but a device has failed: what was committed may be kept or not.
    Unsure(Reply),
}
