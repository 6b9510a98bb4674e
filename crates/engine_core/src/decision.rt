//! Decisions: what the engine does on a request.

ghost use Rattle.std.specs.Prelude.{◌≡◌, List};
ghost use Rattle.teb_rules.specs.declared.history.Event.{Event};
ghost use Rattle.teb_rules.specs.Setup.{Store};
ghost use Rattle.teb_rules.specs.Verdicts.{cause_at};
ghost use Rattle.engine_core.specs.Decisions.{IsStopped};

use candidate_reads::Place;
use short_reply::ShortReply;
use teb_rules::history::Event;
use teb_rules::names::{Cause, Cell, Node, Refusal, Txn};
use teb_rules::{Broken, Stop};

/// What the engine does with a request.
#[derive(Clone, Copy)]
pub enum Decision {
    /// It replies, and writes nothing.
    Answer(ShortReply),
    /// It replies, and writes one event, which is no Put.
    Grant(ShortReply, Event),
    /// The transaction puts the cell; its version has the value then, at the place.
    Put {
        txn: Txn,
        cell: Cell,
        value: Option<i64>,
        place: Place,
    },
    /// The transaction reads this many cells, from this one on.
    Scan(Txn, Cell, u8),
    /// The transaction is aborted, with its cascade.
    Fall(Txn, Cause),
}

/// Returns a refusal.
pub fn refused(why: Refusal) -> Decision
    ensures { result ≡ Decision.Answer (ShortReply.Refused why) }
{
    Decision::Answer(ShortReply::Refused(why))
}

/// Returns what a stop makes of a request of t. A wait for a transaction of greater number becomes an abort.
pub fn stopped(t: Txn, stop: Stop) -> Decision
    requires { stop ≡ Stop.Go → ⊥ }
    ensures { (X : Store) (H : List Event) → IsStopped X H t.0 stop result }
{
    match stop {
        Stop::Go => unreachable!(),
        Stop::Wait { who, node } if t.0 < who.0 => {
            Decision::Fall(t, Cause::Newer { node, other: who })
        }
        Stop::Wait { who, node } => Decision::Answer(ShortReply::Again { who, node }),
        Stop::Break { node, broken } => Decision::Fall(t, cause_at(node, broken)),
    }
}

/// Returns the cause that a break at a node gives.
fn cause_at(node: Node, broken: Broken) -> Cause
    ensures { result ≡ cause_at node broken }
{
    match broken {
        Broken::Late { reader, cell } => Cause::Late { node, reader, cell },
        Broken::First { writer, cell } => Cause::First { node, writer, cell },
        Broken::Pivot { a, b, c, d } => Cause::Pivot { node, a, b, c, d },
    }
}
