//! What the shell asks of its store.

ghost use Rattle.std.specs.Prelude.{◌≡◌, All, IfErr, IfOk, OnErr, OnOk, false, true, length, map, reverse};
ghost use Rattle.teb_rules.specs.Ranks.{serial_order};
ghost use Rattle.script_text.specs.Named.{EventNamed, RowsNamed};
ghost use Rattle.shell_lines.specs.Answers.{StoreReplyNamed};
ghost use Rattle.shell_lines.specs.declared.reply.StoreReply.TheVariants as replies;
ghost use Rattle.store_setup.specs.SetupView.{setup_view};
ghost use Rattle.store_setup.specs.Sound.{IsWhole};
ghost use Rattle.shell_runner.specs.States.{HasNodeNames, IsEpochRefused, IsNext, IsReached, IsReplied, Stored};
ghost use Rattle.teb_rules.specs.Epochs.{AreFinalRows, IsDrained};
ghost use Rattle.shell_runner.specs.declared.store.EpochError.TheVariants as errors;

use shell_lines::StoreReply;
use std::alloc::{AllocError, Global};
use store_setup::Setup;
use teb_rules::history::History;
use teb_rules::names::{Cell, NameBook, Request, Session, Txn};

/// Why an epoch is not followed by the next.
#[derive(Clone, Copy)]
pub enum EpochError {
    /// This transaction is unfinished.
    Unfinished(Txn),
    /// This session holds an aborted transaction, and was not told of it.
    Untold(Session),
    /// The rows do not fit.
    Full,
    /// A call of the disk failed.
    DiskFault,
    OutOfMemory,
}

/// A store whose commits are kept, in epochs.
pub trait ShellStore: Drop {
    ghost stored: { Self → Stored };

    /// Whatever a crash leaves from the first of these states on, up to the second, has all commits that the first has answered, and
    /// none but those of the second.
    ghost safe: { Self → Self → Type 0 };

    /// Returns the names of the tree.
    fn names(&self) -> &NameBook
        ensures { result.now ≡ (stored self.now).names };

    /// Returns what has happened in this epoch.
    fn history(&self) -> &History
        ensures events { result.now.events ≡ (stored self.now).events }
        ensures reached { IsReached (stored self.now) }
        ensures named { HasNodeNames (stored self.now) → All (EventNamed (stored self.now).names) (reverse (stored self.now).events) };

    /// Returns what the store is set up with.
    fn setup(&self) -> &Setup
        ensures names { result.now.names ≡ (stored self.now).names }
        ensures profiles { result.now.profiles.items ≡ (stored self.now).store.setup.profiles }
        ensures tree { result.now.tree.rows ≡ (stored self.now).store.setup.tree }
        ensures types { length result.now.profiles.items ≡ length result.now.names.types };

    /// Returns how many commits of this epoch were answered.
    fn commits(&self) -> u64
        ensures { result ≡ (stored self.now).commits };

    /// Returns how many bytes are left for the commits of this epoch.
    fn left(&self) -> u64
        ensures { result ≡ (stored self.now).left };

    /// Returns the committed rows, in ascending order of cells.
    ///
    /// # Errors
    /// `AllocError`: out of memory. The store is only read.
    fn rows(&self, alloc: Global) -> Result<Vec<(Cell, i64)>, AllocError>
        ensures rows { IfOk result (λ v. AreFinalRows (stored self.now).store (stored self.now).events v.items) }
        ensures named { IfOk result (λ v. RowsNamed (stored self.now).names v.items) };

    /// Returns the committed transactions in the serial order.
    ///
    /// # Errors
    /// `AllocError`: out of memory. The store is only read.
    fn order(&self, alloc: Global) -> Result<Vec<Txn>, AllocError>
        ensures { IfOk result (λ v. map (λ t. t.0) v.items ≡ serial_order (stored self.now).store.setup (stored self.now).events) };

    /// Asks a request. A commit is kept before it is answered. It never answers `Later`.
    ///
    /// # Errors
    /// Out of memory: nothing is asked, and nothing changes.
    fn ask(
        &mut self,
        alloc: Global,
        session: Session,
        request: Request,
    ) -> Result<StoreReply, AllocError>
        requires running { (stored self.old).stopped ≡ false }
        requires nodes { HasNodeNames (stored self.old) }
        ensures reply { IfOk result (λ r. IsReplied (stored self.old) session request r (stored self.new)) }
        ensures named { IfOk result (StoreReplyNamed (stored self.old).names) }
        ensures goes_on { IfOk result (λ r. (r ≡ replies.Unsure → ⊥) → (stored self.new).stopped ≡ false) }
        ensures kept { OnErr result (self.new ≡ self.old) }
        ensures safe { OnOk result (safe self.old self.new) };

    /// Ends the epoch, and begins the next one under a setup of the same tables, with the committed rows. Transactions count from 1
    /// again.
    ///
    /// # Errors
    /// With each the store is as it was, except for `DiskFault`, after which it is stopped.
    fn next_epoch(self, alloc: Global, setup: Setup) -> (Self, Result<(), EpochError>)
        requires running { (Self.stored self).stopped ≡ false }
        requires whole { IsWhole (setup_view setup) }
        requires tables { setup.names.tables ≡ (Self.stored self).names.tables }
        ensures next { OnOk result.1 (IsNext (setup_view setup) (Self.stored self) (Self.stored result.0)) }
        ensures drained { OnOk result.1 (IsDrained (Self.stored self).events) }
        ensures running { OnOk result.1 ((Self.stored result.0).stopped ≡ false) }
        ensures refused { IfErr result.1 (IsEpochRefused (Self.stored self).events) }
        ensures halted { IfErr result.1 (λ why. why ≡ errors.DiskFault → (Self.stored result.0).stopped ≡ true) }
        ensures kept { IfErr result.1 (λ why. (why ≡ errors.DiskFault → ⊥) → result.0 ≡ self) }
        ensures safe { Self.safe self result.0 };
}
