//! The laws of the driver: one thread that asks for several sessions, each along its script, stops, and works through every script.
//!
//! The driver asks one session after the other, round and round (`Driver` of `teb_rules`). If the store aborts a transaction, its
//! session goes back to the line that began it. After three such aborts the session is *due*: then it runs alone, and a transaction
//! that runs alone is never stopped.
//!
//! | Law | Says of every sound store, and all scripts of sessions in ascending number |
//! |---|---|
//! | [`drivers_ask_few`] | the driver asks at most `12 * sessions * (lines + 1)` requests |
//! | [`drivers_stop`] | within that bound it comes to an end |
//! | [`scripts_are_worked_through`] | when it stops, each session's entries are a whole walk along its script |
//! | [`sessions_keep_to_scripts`] | at every moment, each session has asked along its script, by its own replies |
//!
//! Each function has an empty body, and its contract is the law (`specs/Laws`; `OfAllScripts` has the quantifiers).
//!
//! **Not claimed**: that each transaction of a script commits: a script may ask for an abort, and a refused request is passed over.
//! Nothing is said of sessions that threads drive.
#![tactic(auto)]

ghost use Rattle.driver_laws.specs.Laws.{OfAllScripts, AsksFew, KeepsToScripts, WorksThrough, Stops};

/// The driver asks at most 12 * sessions * (lines + 1) requests.
pub fn drivers_ask_few()
    ensures { OfAllScripts AsksFew }
{}

/// Each session asks along its script, by its own answers.
pub fn sessions_keep_to_scripts()
    ensures { OfAllScripts KeepsToScripts }
{}

/// When the driver stops, every script is worked through.
pub fn scripts_are_worked_through()
    ensures { OfAllScripts WorksThrough }
{}

/// The driver stops.
pub fn drivers_stop()
    ensures { OfAllScripts Stops }
{}
