//! One store that sessions share, over epochs without end, whose commits share the syncs of the disk.
//!
//! It is for many threads that use one store at once. A session that reads or writes does not wait for the disk, except while an epoch
//! ends; sessions that commit at the same time wait for the same two syncs. What a store needs of memory does not grow with its life.
//!
//! Terms: the *server* ([`EpochServer`]) answers requests as the rules do; the *log* keeps commits; a commit *waits* from when it is answered by
//! the server until the log takes it; an *epoch* has at most 8,192 transactions; the *life* is the list of all that was asked, over all epochs.
//!
//! ```text
//!      32 sessions                   the front turn                      the log turn
//!                                    (door: a Mutex)                   (door: a LogDoor)
//!   ask ──────────────────────► ┌────────────────────────┐
//!   ◄── the reply ───────────── │ server, life            │
//!                               │ counts commits          │
//!   a commit, number n ───────► └────────────────────────┘
//!      │                              ▲  take what waits      ┌──────────────────────────────┐
//!      │                              └─────────────────────── │ log, a seat at the front     │
//!      └─────────────────────────── is n ≤ total? ───────────► │ total: how many it keeps     │
//!   ◄── Committed ────────────────── yes, or write ─────────── │ write: two syncs             │
//!                                                              └──────────────────────────────┘
//! ```
//!
//! 1. A session enters the front turn and is answered. If it has committed, it has the number of its commit in the life.
//! 2. It comes to the log's door, and sleeps while another session writes. If the log keeps that many commits, it looks, and leaves.
//! 3. Else it lets others come too, takes all commits that wait, with the log's own seat at the front turn, and writes them, while others go
//!    on asking. Those whose commits it has written wake up and leave before the next write begins.
//! 4. If the log fails, the front is told, each session whose commit it does not keep is answered [`StoreError::Unsure`], and nothing is asked
//!    from then on.
//!
//! When the epoch comes to its end, a Begin of a session that holds no transaction is answered [`StoreReply::Later`], and each other request
//! is asked as before. Once all transactions have finished, the next session that asks to begin one ends the epoch at the log turn: it
//! writes what waits, and begins the next epoch. Nobody is answered at the front meanwhile. Then it asks again.
//!
//! **What is proved.** All that is asked, each time that the log took what waited, and each end of an epoch, are in one list, the life of the
//! store. It exists in proofs alone ([`Trace`]). The answered calls of each session are in it once, in the order in which it made them, each
//! with the reply of the rules at its place. An epoch ends only if no transaction is unfinished and each session was told of its abort, and
//! the next one begins with the rows that it left. In an epoch that is to end a Begin is asked only if its session holds a live transaction
//! (`Hosted::ask`, clause `open`), and then it begins none, by the rules. So a Begin of any other session is asked only if fewer than 8,192 have begun in
//! its epoch. Only a Begin of a session that holds no transaction is answered `Later`. A session is answered Committed only if the
//! log has told it that it keeps at least as many commits as the life has up to this one, and the log keeps as many as it tells (`IsKept`): a
//! crash leaves them. It is answered [`StoreError::Unsure`] only if the log has told it of fewer (`IsNotTold`). Nothing is asked after the log
//! has failed. [`Store::close`] returns a server to which the life leads, and a log that keeps all of it, unless it has failed. The log ends
//! with a checkpoint, or the closing says why not ([`NoCheckpoint`]).
//!
//! Threads may share a store, and a session may go to another thread, if the server and the log may (`embedded_shared` is an example).
//!
//! **Not claimed**: that a session ever gets its turn, or how many commits share a write; that an epoch ends while a session keeps its
//! transaction open; that a closing writes a checkpoint if nothing is in the way. A silent session can be ended by another, with
//! [`StoreSession::expel`].
#![tactic(auto)]

mod answer;
mod ask;
mod asking;
mod close;
mod closing;
mod due_epoch;
mod entry;
mod error;
mod first;
mod hosted;
mod keeper;
mod kept;
mod log_door;
mod make;
mod no_checkpoint;
mod origin;
mod reply;
mod running;
mod server;
mod session;
mod site;
mod store;
mod taking;
mod trace;
mod writing;

pub use close::{Closed, Life};
pub use entry::{LOG_SEAT, LifeEntry};
pub use error::{StoreError, UnaskedError};
pub use first::First;
pub use hosted::Hosted;
pub use keeper::Keeper;
pub use kept::Kept;
pub use no_checkpoint::NoCheckpoint;
pub use origin::Origin;
pub use reply::StoreReply;
pub use server::{EpochServer, Obstacle};
pub use session::{MOST_ASKS, MOST_TURNS, StoreSession};
pub use site::Site;
pub use store::Store;
pub use trace::Trace;
