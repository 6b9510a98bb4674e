//! Why a store may not go on under another tree.

ghost use Rattle.std.specs.Prelude.{◌≡◌};

use std::alloc::AllocError;
use teb_rules::names::{Session, Txn};
use thiserror::Error;

/// Why a store may not go on under another tree. The causes are looked at in this order.
#[derive(Debug, Drop, Error)]
pub enum SwitchError {
    /// The least unfinished transaction.
    #[error("{0:?} is unfinished")]
    Again(Txn),
    /// The least session that holds an aborted transaction.
    #[error("{0:?} was not told of its abort")]
    Untold(Session),
    /// The names of the tables are not those of the store.
    #[error("other tables")]
    Tables,
    /// The setup has rows.
    #[error("rows of its own")]
    Rows,
    #[error("out of memory")]
    OutOfMemory,
}

impl From<AllocError> for SwitchError {
    ghost use Rattle.tree_switch.specs.declared.error.SwitchError.TheVariants.{OutOfMemory};

    ghost from_gives = { λ _ e. e ≡ OutOfMemory };

    fn from(_error: AllocError) -> SwitchError {
        SwitchError::OutOfMemory
    }
}
