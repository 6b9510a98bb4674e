//! Whether no transaction is unfinished.

ghost use Rattle.std.specs.Prelude.{◌≡◌, ◌&&◌};
ghost use Rattle.std.specs.List.{list_any};
ghost use Rattle.teb_rules.specs.history.Phases.{unfinished};
ghost use Rattle.teb_rules.specs.history.Live.{is_numbered, live_txns};
ghost use Rattle.teb_rules.specs.Alone.{is_quiet};

use teb_rules::history::History;
use teb_rules::names::Txn;

/// Returns whether no transaction is unfinished. Its cost grows with the number of live transactions.
#[inline(never)]
pub fn is_quiet(history: &History) -> bool
    ensures { result ≡ is_quiet history.now.events }
{
    !is_any_at_work(history)
}

fn is_any_at_work(history: &History) -> bool
    ensures { result ≡ list_any (λ t. is_numbered history.now.events t && unfinished history.now.events t.0) (live_txns history.now.events) }
{
    history.live().iter().any(|t| is_at_work(history, *t))
}

/// Returns whether t has begun and is unfinished.
fn is_at_work(history: &History, t: Txn) -> bool
    ensures { result ≡ (is_numbered history.now.events t && unfinished history.now.events t.0) }
{
    t.0 > 0 && t.0 <= history.begun() && history.is_unfinished(t)
}
