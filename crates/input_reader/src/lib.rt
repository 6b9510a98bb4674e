//! An input, from its bytes to a setup and lines, or to its first fault.
//!
//! `tebaldi` reads the input of `replay`, `turns`, `threads N`, `pool N` and `crash K` with [`read_input`]. `audit` and `phases`
//! divide their bytes in other ways, and read them with [`read_bytes`].
//!
//! ```text
//!   source ──read_bytes──► bytes ──parse_input──► Input: a setup, and the lines to be run over its store
//!                                       │
//!                                       └──first fault──► InputError ──refusal──► a status and a line
//! ```
//!
//! An *input* is a *tree part*, the first line `%%`, and a *script part*. A *fault* is why it is refused: the first in this order.
//!
//! | Fault | Status | Line |
//! |---|---|---|
//! | `ReadFault`: a read failed | 3 | none |
//! | `TooLong`: more than 4,194,304 bytes | 5 | `too long` |
//! | `NoSeparator`: no line is `%%` | 6 | `bad tree: no separator` |
//! | `TooLong`: more than 65,536 lines in the script part | 5 | `too long` |
//! | `BadTree`: the first fault of the tree part | 6 | that of `tree_toml` |
//! | `BadLine`: the first bad line of the script part | 7 | `bad script: line N WHY` |
//!
//! **What is proved.** There are bytes, those of the source if it tells them, of which [`read_input`] returns what `input_of` says
//! (clause `read`). `ReadFault` is returned only if the source's count of faults rose (`fault`). The setup of an [`Input`] is
//! whole, each of its nodes has a name, all names are well formed, and the lines are of sessions 1 to 32 (its invariant).
//!
//! **Not claimed**: that memory suffices. `OutOfMemory` may take the place of each fault but `ReadFault`. An [`Input`] keeps the
//! bytes that it was read from, for their memory alone (`take_text`): no contract tells them.
#![tactic(auto)]

mod error;
mod input;
mod reading;
mod refused;

pub use error::InputError;
pub use input::Input;
pub use reading::{parse_input, read_bytes, read_input};
pub use refused::refusal;
