//! The transactions, of some, whose batches may overlap that of one.

ghost use Rattle.std.specs.Prelude.{◌≡◌};
ghost use Rattle.teb_rules.specs.history.Ascending.{IsAscendingBy};
ghost use Rattle.teb_rules.specs.history.Live.{number_of};
ghost use Rattle.batch_book.specs.Histories.{ClosedBelow};
ghost use Rattle.snapshot_node.specs.Asking.{AreLate, AreThere, IsAt, there};

use crate::asked::Asked;
use crate::numbered::from_number;
use teb_rules::names::Txn;

/// Questions to a control, a transaction t, and t's horizon there: each transaction numbered below it was of a batch that closed before
/// t's started.
#[derive(Clone, Copy)]
pub(crate) struct Recent<'a> {
    asked: Asked<'a>,
    t: Txn,
    horizon: Txn,
    ghost below: { there asked ClosedBelow t.0 horizon.0 },
}

impl<'a> Asked<'a> {
    /// Returns the transactions from t's horizon on. It costs a binary search, which a walk along t's accesses needs once.
    pub(crate) fn recent(&self, t: Txn) -> Recent<'a>
        requires { IsAt self.now t.0 }
        ensures asked { result.asked ≡ self.now }
        ensures t { result.t ≡ t }
    {
        Recent {
            asked: *self,
            t,
            horizon: self.register.batches.horizon(t),
        }
    }
}

impl<'a> Recent<'a> {
    /// Returns those of some transactions of the node.
    #[inline(always)]
    pub(crate) fn among<'b>(&self, txns: &'b [Txn]) -> &'b [Txn]
        requires ascending { IsAscendingBy number_of txns.now }
        requires txns_here { AreThere self.now.asked txns.now }
        ensures ascending { IsAscendingBy number_of result.now }
        ensures here { AreThere self.now.asked result.now }
        ensures late { AreLate self.now.asked self.now.t.0 txns.now result.now }
    {
        from_number(txns, self.horizon)
    }
}
