//! The decision on a request, before anything is written.

ghost use Rattle.std.specs.Prelude.{◌≡◌, ◌&&◌, leb};
ghost use Rattle.teb_rules.specs.Answer.{answer, answer_new, answer_of};
ghost use Rattle.engine_core.specs.Views.{store_in, events_in};
ghost use Rattle.engine_core.specs.Decisions.{carried, told, IsBounded};

use crate::accesses::{decide_read, decide_write};
use crate::additions::decide_add;
use crate::asking::Asking;
use crate::decision::{Decision, refused, stopped};
use crate::engine_view::EngineView;
use crate::holding::{Holding, held};
use crate::scans::decide_scan;
use crate::stops::{begin_stop, commit_stop, prepare_stop};
use short_reply::ShortReply;
use teb_rules::Stop;
use teb_rules::history::Event;
use teb_rules::names::{Cause, MOST_TXNS, Refusal, Request, SESSIONS, Session, Spot, Txn};
use version_chain::Chains;

/// Decides a request of a session.
pub fn decide<C: Chains>(view: &EngineView<C>, session: Session, request: Request) -> Decision
    ensures answer { carried (store_in view.now) (events_in view.now) result ≡ answer (store_in view.now) (events_in view.now) session request }
    ensures bounded { IsBounded (C.lists view.now.state.now.chains) (store_in view.now).setup (events_in view.now) result }
{
    if !is_session(session) {
        return refused(Refusal::BadSession);
    }
    match held(view, session) {
        Holding::Nothing => decide_new(view, session, request),
        Holding::Fallen(t) => tell(view, t),
        Holding::Running { txn, is_prepared } => {
            decide_of(&Asking::of(view, txn, is_prepared), request)
        }
    }
}

/// Returns whether a session's number is one of 1 to `SESSIONS`.
fn is_session(session: Session) -> bool
    ensures { result ≡ (leb 1 session.0 && leb session.0 SESSIONS) }
{
    (1..=SESSIONS).contains(&session.0)
}

/// Decides a request of a session that holds nothing.
fn decide_new<C: Chains>(view: &EngineView<C>, session: Session, request: Request) -> Decision
    ensures answer { carried (store_in view.now) (events_in view.now) result ≡ answer_new (store_in view.now).setup (events_in view.now) session request }
    ensures bounded { IsBounded (C.lists view.now.state.now.chains) (store_in view.now).setup (events_in view.now) result }
{
    match request {
        Request::Begin(spot) => decide_begin(view, session, spot),
        _ => refused(Refusal::NoTxn),
    }
}

fn decide_begin<C: Chains>(view: &EngineView<C>, session: Session, spot: Spot) -> Decision
    ensures answer { carried (store_in view.now) (events_in view.now) result ≡ answer_new (store_in view.now).setup (events_in view.now) session (Request.Begin spot) }
    ensures bounded { IsBounded (C.lists view.now.state.now.chains) (store_in view.now).setup (events_in view.now) result }
{
    let begun = view.facts.history.begun();
    if !view.has_type(spot.kind) {
        return refused(Refusal::UnknownType);
    }
    if begun >= MOST_TXNS {
        return refused(Refusal::Full);
    }
    if let Stop::Wait { who, node } = begin_stop(view, spot) {
        return Decision::Answer(ShortReply::Again { who, node });
    }
    let txn = Txn(begun + 1);
    Decision::Grant(
        ShortReply::Begun(txn),
        Event::Began {
            txn,
            session,
            kind: spot.kind,
            instance: spot.instance,
        },
    )
}

/// Decides that a session is told of an abort by a cascade.
fn tell<C: Chains>(view: &EngineView<C>, t: Txn) -> Decision
    ensures answer { carried (store_in view.now) (events_in view.now) result ≡ told (events_in view.now) t.0 }
    ensures bounded { IsBounded (C.lists view.now.state.now.chains) (store_in view.now).setup (events_in view.now) result }
{
    let cause = view.facts.history.cause(t).unwrap_or(Cause::Asked);
    Decision::Grant(ShortReply::Aborted(cause), Event::Told(t))
}

/// Decides a request of an unfinished transaction.
fn decide_of<C: Chains>(asking: &Asking<'_, C>, request: Request) -> Decision
    ensures answer { carried (store_in asking.now.view.now) (events_in asking.now.view.now) result ≡ answer_of (store_in asking.now.view.now) (events_in asking.now.view.now) asking.now.txn.0 request }
    ensures bounded { IsBounded (C.lists asking.now.view.now.state.now.chains) (store_in asking.now.view.now).setup (events_in asking.now.view.now) result }
{
    match request {
        Request::Begin(_) => refused(Refusal::InTxn),
        Request::Read(cell) => decide_read(asking, cell),
        Request::Write(cell, value) => decide_write(asking, cell, Some(value)),
        Request::Add(cell, number) => decide_add(asking, cell, number),
        Request::Delete(cell) => decide_write(asking, cell, None),
        Request::Scan { cell, count } => decide_scan(asking, cell, count),
        Request::Prepare => decide_prepare(asking),
        Request::Commit => decide_commit(asking),
        Request::Abort => Decision::Fall(asking.txn, Cause::Asked),
        Request::End => Decision::Fall(asking.txn, Cause::Ended),
    }
}

fn decide_prepare<C: Chains>(asking: &Asking<'_, C>) -> Decision
    ensures answer { carried (store_in asking.now.view.now) (events_in asking.now.view.now) result ≡ answer_of (store_in asking.now.view.now) (events_in asking.now.view.now) asking.now.txn.0
        Request.Prepare }
    ensures bounded { IsBounded (C.lists asking.now.view.now.state.now.chains) (store_in asking.now.view.now).setup (events_in asking.now.view.now) result }
{
    if asking.is_prepared {
        return refused(Refusal::Prepared);
    }
    match prepare_stop(asking) {
        Stop::Go => Decision::Grant(ShortReply::Prepared, Event::Ready(asking.txn)),
        stop => stopped(asking.txn, stop),
    }
}

fn decide_commit<C: Chains>(asking: &Asking<'_, C>) -> Decision
    ensures answer { carried (store_in asking.now.view.now) (events_in asking.now.view.now) result ≡ answer_of (store_in asking.now.view.now) (events_in asking.now.view.now) asking.now.txn.0
        Request.Commit }
    ensures bounded { IsBounded (C.lists asking.now.view.now.state.now.chains) (store_in asking.now.view.now).setup (events_in asking.now.view.now) result }
{
    match commit_stop(asking) {
        Stop::Go => Decision::Grant(ShortReply::Committed, Event::Done(asking.txn)),
        stop => stopped(asking.txn, stop),
    }
}
