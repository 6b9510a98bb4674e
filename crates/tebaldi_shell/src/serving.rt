//! The shell over a disk.

ghost use Rattle.std.specs.Prelude.{◌≡◌, ◌≢◌, IfErr, IfOk, Ok, OnErr};
ghost use Rattle.teb_io.specs.Faults.{Rose};
ghost use Rattle.store_setup.specs.SetupView.{setup_view};
ghost use Rattle.store_setup.specs.Sound.{IsNamed, IsWhole};
ghost use Rattle.tree_toml.specs.SetupText.{setup_of_text};
ghost use Rattle.shell_runner.specs.declared.ended.EndStatus.TheVariants as statuses;
ghost use Rattle.shell_runner.specs.declared.ended.RunError.TheVariants as errors;
ghost use Rattle.tebaldi_shell.specs.Serving.{HasOpened, HasServed};
ghost use Rattle.tebaldi_shell.specs.Starts.{IsRefusedStart, start_of};

use crate::kept_store::KeptStore;
use chain_pool::PooledChains;
use crash_disk::Renew;
use engine_store::{EngineStore, OpenError};
use shell_runner::{Ended, Host, Shell, run};
use std::alloc::Global;
use store_setup::Setup;
use teb_io::{Sink, Source};
use tree_toml::{TreeTextError, read_tree};

/// Why the shell does not start.
#[derive(Drop)]
pub enum StartError {
    /// The tree text is refused.
    BadTree(TreeTextError),
    /// The file has other tables than the tree.
    OtherTables,
    /// The file was made for another capacity.
    OtherCapacity,
    /// The starting rows do not fit the file.
    Full,
    /// The bytes of the file are none that a store leaves.
    Damaged,
    /// A call of the disk failed.
    DiskFault,
    OutOfMemory,
}

/// Opens the store of a disk under a tree text, and runs the shell on it.
///
/// # Errors
/// `BadTree` if the text is none of a tree, before the disk is looked at; else why the store can't be opened: what the disk has, a call of it
/// that fails, or memory.
pub fn serve<D: Renew + Drop, H: Host, S: Source, K: Sink>(
    alloc: Global,
    disk: D,
    tree: &[u8],
    host: &mut H,
    input: &mut S,
    out: &mut K,
) -> Result<Ended<KeptStore<D>>, StartError>
    // The text is what the definitions say of the lines and of the rows that were found, and at any moment the disk has what the text has
    // acknowledged.
    ensures served { IfOk result (λ ended. HasServed D.seen D.may_leave D.faults D.moment D.left_since (D.capacity disk) tree.now disk
        (S.left input.old) (K.written out.old) ended.status ended.shell (K.written out.new)) }
    ensures read_fault { IfOk result (λ ended. ended.status ≡ statuses.Failed errors.ReadFault → Rose (S.faults input.old) (S.faults input.new)) }
    ensures no_read_fault { IfOk result (λ ended. ended.status ≢ statuses.Failed errors.ReadFault → S.faults input.new ≡ S.faults input.old) }
    ensures write_fault { IfOk result (λ ended. ended.status ≡ statuses.Failed errors.WriteFault → Rose (K.faults out.old) (K.faults out.new)) }
    ensures refused { IfErr result (IsRefusedStart D.seen D.may_leave D.faults D.moment D.left_since D.capacity tree.now disk) }
    ensures unread { OnErr result ((S.faults input.new ≡ S.faults input.old) × (S.left input.new ≡ S.left input.old) × (K.written out.new ≡ K.written out.old)) }
{
    let setup = match read_tree(alloc, tree) {
        Ok(setup) => setup,
        Err(TreeTextError::OutOfMemory) => return Err(StartError::OutOfMemory),
        Err(fault) => return Err(StartError::BadTree(fault)),
    };
    let format = setup.format;
    match opened(alloc, disk, tree, setup) {
        Ok(store) => Ok(run(alloc, Shell::new(store, format), tree, host, input, out)),
        Err(why) => Err(why),
    }
}

/// Opens the store of a disk under the setup that a tree text is.
fn opened<D: Renew + Drop>(
    alloc: Global,
    disk: D,
    tree: &[u8],
    setup: Setup,
) -> Result<KeptStore<D>, StartError>
    requires read { setup_of_text tree.now ≡ Ok (setup_view setup) }
    requires whole { IsWhole (setup_view setup) }
    requires named { IsNamed (setup_view setup) }
    ensures opened { IfOk result (HasOpened D.seen D.may_leave D.faults D.moment D.left_since (D.capacity disk) tree.now disk (setup_view setup)) }
    ensures refused { IfErr result (IsRefusedStart D.seen D.may_leave D.faults D.moment D.left_since D.capacity tree.now disk) }
{
    match EngineStore::open(alloc, disk, setup, PooledChains::new(alloc)) {
        Ok(store) => Ok(KeptStore::new(store)),
        Err(back) => Err(start_error(back.why)),
    }
}

fn start_error(why: OpenError) -> StartError
    ensures { result ≡ start_of why }
{
    match why {
        OpenError::Full => StartError::Full,
        OpenError::DiskFault => StartError::DiskFault,
        OpenError::Damaged { at: _ } => StartError::Damaged,
        OpenError::OtherCapacity => StartError::OtherCapacity,
        OpenError::OtherTables => StartError::OtherTables,
        OpenError::OutOfMemory => StartError::OutOfMemory,
    }
}
