//! Decisions on additions.

ghost use Rattle.std.specs.Prelude.{◌≡◌};
ghost use Rattle.teb_rules.specs.declared.names.Request.TheVariants as request;
ghost use Rattle.teb_rules.specs.history.Accesses.{last_put, last_got};
ghost use Rattle.teb_rules.specs.Answer.{answer_of, add_base};
ghost use Rattle.engine_core.specs.Views.{store_in, events_in};
ghost use Rattle.engine_core.specs.Decisions.{carried, sum_of, IsBounded};

use crate::access::Access;
use crate::accesses::{put, refusal};
use crate::asking::Asking;
use crate::decision::{Decision, refused};
use teb_rules::names::{Cell, Refusal};
use version_chain::Chains;

/// Adds to the value that the transaction has put or read.
pub fn decide_add<C: Chains>(asking: &Asking<'_, C>, cell: Cell, number: i64) -> Decision
    ensures answer { carried (store_in asking.now.view.now) (events_in asking.now.view.now) result ≡ answer_of (store_in asking.now.view.now) (events_in asking.now.view.now) asking.now.txn.0
        (request.Add cell number) }
    ensures bounded { IsBounded (C.lists asking.now.view.now.state.now.chains) (store_in asking.now.view.now).setup (events_in asking.now.view.now) result }
{
    if let Some(why) = refusal(asking, cell) {
        return refused(why);
    }
    let Some(base) = add_base(asking, cell) else {
        return refused(Refusal::NotRead);
    };
    match sum_of(base, number) {
        Some(sum) => put(&Access { asking, cell }, Some(sum)),
        None => refused(Refusal::Overflow),
    }
}

/// Returns the value that an addition starts from: the value of the transaction's own last Put, or else what it last read; no row counts as 0.
fn add_base<C: Chains>(asking: &Asking<'_, C>, cell: Cell) -> Option<i64>
    ensures { result ≡ add_base (last_put (events_in asking.now.view.now) asking.now.txn.0 cell) (last_got (events_in asking.now.view.now) asking.now.txn.0 cell) }
{
    let view = asking.view;
    let history = view.facts.history;
    let t = asking.txn;
    let value = history
        .last_put(t, cell)
        .or_else(|| history.last_got(t, cell));
    value.map(|value| value.unwrap_or(0))
}

/// Returns the sum of two numbers, if it is an `i64`.
fn sum_of(base: i64, number: i64) -> Option<i64>
    ensures { result ≡ sum_of base number }
{
    base.checked_add(number)
}
