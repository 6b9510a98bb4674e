//! What a shared store asks of what it serves.

ghost use Rattle.std.specs.Prelude.{◌≡◌, ◌<◌, ℕ, List, [], Bool, false, true, MatchOption, OnOk, OnErr, IsErrOf};
ghost use Rattle.teb_rules.specs.declared.names.TheConstants.{MOST_TXNS};
ghost use Rattle.teb_rules.specs.declared.history.Event.{Event};
ghost use Rattle.teb_rules.specs.history.Phases.{begun_count};
ghost use Rattle.teb_rules.specs.Setup.{Store};
ghost use Rattle.commit_laws.specs.Commits.{commit_count};
ghost use Rattle.shared_store.specs.declared.error.UnaskedError.TheVariants as unasked;
ghost use Rattle.shared_store.specs.Beginning.{holds};
ghost use Rattle.shared_store.specs.Served.{IsBegun, IsObstacle, IsServed, Standing};
ghost use Rattle.teb_rules.specs.Epochs.{IsDrained};

use crate::error::UnaskedError;
use std::alloc::Global;
use teb_rules::names::{Reply, Request, Session};
use thiserror::Error;

/// What keeps an epoch from its end.
#[derive(Clone, Copy, Debug, PartialEq, Eq, Error)]
pub enum Obstacle {
    /// A transaction is unfinished.
    #[error("a transaction is unfinished")]
    Unfinished,
    /// No transaction is unfinished, but this session holds one that was aborted, and was not told of it.
    #[error("{0:?} was not told of its abort")]
    Untold(Session),
}

/// What answers requests one after another as the rules do. A commit waits until it is taken and written to a log, which keeps it. It goes
/// on in epochs.
pub trait EpochServer: Sized {
    /// The log, which keeps the commits.
    type Log;

    /// Commits that were taken.
    type Batch;

    // The store that the epoch began with, and its history.
    ghost standing: { Self → Standing };

    // The commits that wait are those that the history has beyond this earlier one.
    ghost waits: { Self → List Event → Type 0 };

    // The batch has the commits that the second history has beyond the first, over this store.
    ghost brings: { Self.Batch → Store → List Event → List Event → Type 0 };

    // A crash now leaves the rows after the first k commits of this history over this store, for a k that is at least this number.
    ghost keeps: { Self.Log → Store → List Event → ℕ → Type 0 };

    // A call of the log has failed.
    ghost failed: { Self.Log → Bool };

    // No further transaction is to begin in this epoch.
    ghost ending: { Self → Bool };

    /// Answers a request. A commit waits.
    ///
    /// # Errors
    /// `Full` or `OutOfMemory`. Each leaves the server where it was. After `Full` the epoch is to end.
    fn serve(
        &mut self,
        alloc: Global,
        session: Session,
        request: Request,
    ) -> Result<Reply, UnaskedError>
        ensures served { IsServed (standing self.old) (standing self.new) session request result }
        ensures waits { (H : List Event) → waits self.old H → waits self.new H }
        ensures full { IsErrOf result unasked.Full → ending self.new ≡ true }
        ensures runs { IsErrOf result unasked.Stopped → ⊥ };

    /// Returns true if no further transaction is to begin in this epoch, as once `MOST_TXNS` have begun.
    fn is_ending(&self) -> bool
        ensures ending { result ≡ ending self.now }
        ensures room { result ≡ false → begun_count (standing self.now).events < MOST_TXNS };

    /// Returns true if the session holds a live transaction: one that is unfinished, or that was aborted and of which the session was not
    /// told.
    fn holds(&self, session: Session) -> bool
        ensures { result ≡ holds (standing self.now).events session };

    /// Returns what keeps the epoch from its end: a transaction is unfinished, or a session holds one that was aborted and was not told of
    /// it. `None` says that nothing does.
    fn obstacle(&self) -> Option<Obstacle>
        ensures { MatchOption result (IsDrained (standing self.now).events) (IsObstacle (standing self.now).events) };

    /// Takes the commits that wait.
    fn take(&mut self, alloc: Global) -> Self::Batch
        ensures standing { standing self.new ≡ standing self.old }
        ensures batch { (H : List Event) → waits self.old H → brings result (standing self.old).store H (standing self.old).events }
        ensures waits { waits self.new (standing self.new).events };

    /// Writes a batch, with two syncs however many commits it has, and none if it has none.
    ///
    /// # Errors
    /// The log has failed, or there was no memory or room to write it. It is failed from then on.
    fn write(log: &mut Self::Log, alloc: Global, batch: Self::Batch) -> Result<(), UnaskedError>
        requires running { failed log.old ≡ false }
        ensures kept { (X : Store) (H G : List Event) → keeps log.old X H (commit_count H) → brings batch X H G → OnOk result ((failed log.new ≡ false) × keeps log.new X G (commit_count G)) }
        ensures not_kept { (X : Store) (H G : List Event) → keeps log.old X H (commit_count H) → brings batch X H G → OnErr result ((failed log.new ≡ true) × keeps log.new X G (commit_count H)) };

    /// Returns true if a call of the log has failed.
    fn has_failed(log: &Self::Log) -> bool
        ensures { result ≡ failed log.now };

    /// Begins the next epoch under the same tree, with the rows that this one left.
    ///
    /// # Errors
    /// The server is as it was, and the log keeps what it kept; it may have failed. After `Stopped` it has.
    fn next_epoch(
        self,
        log: Self::Log,
        alloc: Global,
    ) -> (Self, Self::Log, Result<(), UnaskedError>)
        requires drained { IsDrained (standing self).events }
        requires taken { ∥ waits self (standing self).events ∥₁ }
        requires kept { ∥ keeps log (standing self).store (standing self).events (commit_count (standing self).events) ∥₁ }
        requires running { failed log ≡ false }
        ensures begun { OnOk result.2 (IsBegun (standing self) (standing result.0) × ∥ waits result.0 [] ∥₁ × ∥ keeps result.1 (standing result.0).store [] 0 ∥₁ × (failed result.1 ≡ false)) }
        ensures same { OnErr result.2 ((standing result.0 ≡ standing self) × ∥ waits result.0 (standing self).events ∥₁ × ∥ keeps result.1 (standing self).store (standing self).events
            (commit_count (standing self).events) ∥₁) }
        ensures stopped { IsErrOf result.2 unasked.Stopped → failed result.1 ≡ true };
}
