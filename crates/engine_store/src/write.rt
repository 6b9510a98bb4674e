//! How commits that were taken are written.

ghost use Rattle.std.specs.Prelude.{◌≡◌, ◌+◌, ◌<◌, [], Ok, true, false, IsErrOf, OnOk, OnErr, List, ℕ};
ghost use Rattle.teb_io.specs.Faults.{Rose};
ghost use Rattle.teb_rules.specs.declared.history.Event.{Event};
ghost use Rattle.teb_rules.specs.Setup.{Store};
ghost use Rattle.crash_disk.specs.Calls.{IsUpTo};
ghost use Rattle.crash_disk.specs.Disk.{LeavesOnly};
ghost use Rattle.commit_laws.specs.Commits.{commit_count};
ghost use Rattle.epoch_journal.specs.Group.{group_size};
ghost use Rattle.epoch_journal.specs.Layout.{half_size};
ghost use Rattle.epoch_store.specs.declared.error.WriteError.TheVariants as errors;
ghost use Rattle.engine_store.specs.Halves.{AreCommitsSince, KeepsCommits};
ghost use Rattle.engine_store.specs.Telling.{TellsCommits};

use crash_disk::Disk;
use epoch_journal::{EpochJournal, Group};
use epoch_store::{WriteError, write_group};
use std::alloc::Global;

/// Writes commits that were taken to the journal, the other half of the store. After `Ok` each crash leaves them. It makes four calls of the
/// disk, two of them syncs, however many commits there are, and none if there is none. None of the calls is refused memory.
///
/// # Errors
/// `Full`, `DiskFault` and `OutOfMemory`. The journal is stopped: what was taken cannot be taken again. A crash
/// may leave some of the commits, the oldest first; after `Full` and `OutOfMemory`, none.
pub fn write_commits<D: Disk>(
    alloc: Global,
    journal: &mut EpochJournal<D>,
    commits: &Group,
) -> Result<(), WriteError>
    requires running { journal.old.stopped ≡ false }

    // The journal keeps the commits of history H, and the group has those of history G since then.
    ensures kept { (X : Store) (H G : List Event) → KeepsCommits D.seen D.may_leave X H (commit_count H) journal.old → AreCommitsSince X H G commits.now.records
        → OnOk result (KeepsCommits D.seen D.may_leave X G (commit_count G) journal.new) }
    ensures not_kept { (X : Store) (H G : List Event) → KeepsCommits D.seen D.may_leave X H (commit_count H) journal.old → AreCommitsSince X H G commits.now.records
        → OnErr result (KeepsCommits D.seen D.may_leave X G (commit_count H) journal.new) }

    // A crash at any moment of the call.
    ensures any_moment { (X : Store) (H G : List Event) → KeepsCommits D.seen D.may_leave X H (commit_count H) journal.old → AreCommitsSince X H G commits.now.records
        → LeavesOnly D.moment D.left_since journal.old.disk journal.new.disk (TellsCommits journal.old.layout X G (commit_count H)) }

    ensures running { OnOk result (journal.new.stopped ≡ false) }
    ensures stopped { OnErr result (journal.new.stopped ≡ true) }
    ensures layout { journal.new.layout ≡ journal.old.layout }
    ensures end { OnOk result (journal.new.end ≡ journal.old.end + group_size commits.now) }
    ensures full { IsErrOf result errors.Full → half_size journal.old.layout.capacity < journal.old.end + 1 + group_size commits.now }
    ensures fault { IsErrOf result errors.DiskFault → Rose (D.faults journal.old.disk) (D.faults journal.new.disk) }
    ensures untouched { commits.now.records ≡ [] → (journal.new ≡ journal.old) × (result ≡ Ok tt) }
    ensures memory { D.refusals journal.new.disk ≡ D.refusals journal.old.disk }
    ensures calls { IsUpTo 4 (group_size commits.now + 1) (D.tally journal.old.disk) (D.tally journal.new.disk) }
{
    match write_group(alloc, journal, commits) {
        Ok(()) => Ok(()),
        Err(why) => {
            journal.stop();
            Err(why)
        }
    }
}
