//! Decisions on reads, writes and deletions, and the refusals of every access.

ghost use Rattle.std.specs.Prelude.{◌≡◌, None};
ghost use Rattle.teb_rules.specs.declared.names.Request.TheVariants as request;
ghost use Rattle.teb_rules.specs.Answer.{answer_of, got_value, or_refused, put_value};
ghost use Rattle.teb_rules.specs.Versions.{read};
ghost use Rattle.engine_core.specs.Views.{store_in, events_in};
ghost use Rattle.engine_core.specs.Asking.{IsAsking};
ghost use Rattle.engine_core.specs.Decisions.{carried, IsBounded, IsRefusal};

use crate::access::Access;
use crate::asking::Asking;
use crate::decision::{Decision, refused, stopped};
use crate::put_places::{asked_place, at_of, granted_place};
use crate::stops::{read_stop, write_stop};
use short_reply::ShortReply;
use teb_rules::Stop;
use teb_rules::history::Event;
use teb_rules::names::{Cell, Refusal};
use version_chain::Chains;

/// Reads a cell.
pub fn decide_read<C: Chains>(asking: &Asking<'_, C>, cell: Cell) -> Decision
    ensures answer { carried (store_in asking.now.view.now) (events_in asking.now.view.now) result ≡ answer_of (store_in asking.now.view.now) (events_in asking.now.view.now) asking.now.txn.0
        (request.Read cell) }
    ensures bounded { IsBounded (C.lists asking.now.view.now.state.now.chains) (store_in asking.now.view.now).setup (events_in asking.now.view.now) result }
{
    if let Some(why) = refusal(asking, cell) {
        return refused(why);
    }
    match read_stop(&Access { asking, cell }) {
        Stop::Go => got(asking, cell),
        stop => stopped(asking.txn, stop),
    }
}

/// Decides a read that does not stop.
fn got<C: Chains>(asking: &Asking<'_, C>, cell: Cell) -> Decision
    ensures answer { carried (store_in asking.now.view.now) (events_in asking.now.view.now) result ≡ got_value (events_in asking.now.view.now) asking.now.txn.0 cell
        (read (store_in asking.now.view.now).setup (store_in asking.now.view.now).rows (events_in asking.now.view.now) asking.now.txn.0 cell) }
    ensures bounded { IsBounded (C.lists asking.now.view.now.state.now.chains) (store_in asking.now.view.now).setup (events_in asking.now.view.now) result }
{
    let (from, value) = asking.view.read(asking.txn, cell);
    Decision::Grant(
        ShortReply::Value(value),
        Event::Got {
            txn: asking.txn,
            cell,
            from,
            value,
        },
    )
}

/// Decides a put of a value, or a deletion of the row if there is no value.
pub fn decide_write<C: Chains>(asking: &Asking<'_, C>, cell: Cell, value: Option<i64>) -> Decision
    ensures answer { carried (store_in asking.now.view.now) (events_in asking.now.view.now) result ≡ or_refused (store_in asking.now.view.now) (events_in asking.now.view.now) asking.now.txn.0 cell
        (put_value (store_in asking.now.view.now).setup (events_in asking.now.view.now) asking.now.txn.0 cell value) }
    ensures bounded { IsBounded (C.lists asking.now.view.now.state.now.chains) (store_in asking.now.view.now).setup (events_in asking.now.view.now) result }
{
    match refusal(asking, cell) {
        Some(why) => refused(why),
        None => put(&Access { asking, cell }, value),
    }
}

/// Decides a Put that is not refused.
pub fn put<C: Chains>(access: &Access<'_, C>, value: Option<i64>) -> Decision
    ensures answer { carried (store_in access.now.asking.now.view.now) (events_in access.now.asking.now.view.now) result ≡ put_value (store_in access.now.asking.now.view.now).setup
        (events_in access.now.asking.now.view.now) access.now.asking.now.txn.0 access.now.cell value }
    ensures bounded { IsBounded (C.lists access.now.asking.now.view.now.state.now.chains) (store_in access.now.asking.now.view.now).setup (events_in access.now.asking.now.view.now) result }
{
    let asking = access.asking;
    let cell = access.cell;
    let asked = asked_place(asking, cell);
    match write_stop(access, at_of(asked)) {
        Stop::Go => Decision::Put {
            txn: asking.txn,
            cell,
            value,
            place: granted_place(asking, asked, cell),
        },
        stop => stopped(asking.txn, stop),
    }
}

/// Returns why an access is refused, or `None` if it is not.
pub fn refusal<C: Chains>(asking: &Asking<'_, C>, cell: Cell) -> Option<Refusal>
    ensures refusal { IsRefusal (store_in asking.now.view.now) (events_in asking.now.view.now) asking.now.txn.0 cell result }
    ensures asks { result ≡ None → IsAsking (store_in asking.now.view.now).setup (events_in asking.now.view.now) asking.now.txn.0 cell }
{
    if !asking.view.has_table(cell.table) {
        Some(Refusal::UnknownTable)
    } else if asking.is_prepared {
        Some(Refusal::Prepared)
    } else if !asking.has_step(cell.table) {
        Some(Refusal::NotInProfile)
    } else {
        None
    }
}
