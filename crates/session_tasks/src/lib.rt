//! The sessions of a script as tasks of threads: each with its pass, and its place in its script.
//!
//! [`threads`] deals the tasks to its workers, and in [`pool`] workers take them from a queue. Both begin a task for each session,
//! have workers serve the tasks, put them in the order of their sessions, and finish the run.
//!
//! | Call | |
//! |---|---|
//! | `Run::begin` | a task for a new pass, before its first request |
//! | `Run::advance` | serves a session on along its script: to the end, to an error, or to a look that finds the stop word raised |
//! | `Run::serve` | the same in a worker: an error raises the stop word |
//! | `Run::finish` | looks for the first session that failed; then serves all sessions to their ends, in order, and returns their passes |
//! | [`empty_hands`] | a hand for each worker, which is to hold the tasks that it serves |
//! | [`serve`] | the loop of `advance`: ask the next request, take the answer |
//!
//! - A [`Run`] is what tasks share: the hall, the scripts, and the hook ([`Gate`]).
//! - A [`Start`] is a run before its first request, with the passes of all sessions.
//! - A [`Task`] is a pass, the place of the session's script, a `Walker` at its next line, and its [`Progress`].
//! - A *walk* along a script follows its lines by the answers, to the end (`IsWalk` in `teb_rules`). A task that is under way has
//!   walked some of it.
//! - The *stop word* is 0 until a worker raises it to 1 ([`Stops`]). It is looked at before each request.
//! - A [`Gate`] is a hook, called before and after each request, outside the turn. The program's does nothing; a trial's holds a
//!   session.
//! - After an Again the session polls the transaction that it waits for, at most 64 times with a rest after each, and then asks again.
//!
//! **What is proved.** The entries of a session that is through are a whole walk along its script ([`serve`], clause `walk`);
//! those of any other are a way along it (`way`). A session is stopped only if a look found the stop word raised (`stopped`).
//! `Run::serve` tells its worker to go on if and only if the session is through (`through`, `goes_on`). `Run::finish` returns the
//! passes of all sessions, each served (`served`), or the error of a session that met one (`cause`, `first`); by inspection of the
//! code, of the first. A session without a script asks nothing (`IsServed`).
//!
//! **Not claimed**: that a session comes to its end, or that `serve` returns: an Again may come again and again.
#![tactic(auto)]

mod advance;
mod error;
mod finish;
mod gate;
mod hands;
mod place;
pub mod pool;
mod run;
mod serving;
mod start;
mod stop;
mod task;
pub mod threads;

pub use error::RunError;
pub use gate::Gate;
pub use hands::empty_hands;
pub use place::place_in;
pub use run::Run;
pub use serving::serve;
pub use start::Start;
pub use stop::Stops;
pub use task::{Progress, Task};
