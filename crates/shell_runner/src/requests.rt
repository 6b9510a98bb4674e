//! The lines that change the store.

ghost use Rattle.std.specs.Prelude.{◌≡◌, ◌↔◌, [], true, IfErr, IfOk, OnErr, OnOk, Ok, ◌⊎◌, IsTrue};
ghost use Rattle.store_setup.specs.SetupView.{SetupView, setup_view};
ghost use Rattle.store_setup.specs.Sound.{IsNamed, IsWhole};
ghost use Rattle.tree_toml.specs.SetupText.{setup_of_text};
ghost use Rattle.shell_lines.specs.Answers.{reply_line};
ghost use Rattle.shell_lines.specs.declared.reply.StoreReply.TheVariants as replies;
ghost use Rattle.shell_runner.specs.States.{IsEpochRefused, IsReady};
ghost use Rattle.teb_rules.specs.Epochs.{IsDrained};
ghost use Rattle.shell_runner.specs.Answers.{BeginsAtEnd, HasFailed, HasToEnd, IsAsked, IsCheckpoint, IsNextEpoch, ShowsReply, after_reply};
ghost use Rattle.shell_runner.specs.Runs.{IsSafely, IsSameOrSafe, state_of};
ghost use Rattle.shell_runner.specs.declared.step.After.TheVariants as afters;
ghost use Rattle.shell_runner.specs.declared.store.EpochError.TheVariants as errors;

use crate::step::After;
use crate::{EpochError, Shell, ShellStore};
use shell_lines::{Checkpoint, StoreReply, put_checkpoint, put_reply};
use std::alloc::{AllocError, Global};
use store_setup::Setup;
use teb_rules::names::{MOST_TXNS, NameBook, Request, Session};
use tree_toml::read_tree;

/// An epoch with commits ends if fewer bytes are left for it.
const LEAST_LEFT: u64 = 65_536;

/// Asks a request of a session, and appends the line of the answer.
pub(crate) fn ask<T: ShellStore>(
    alloc: Global,
    shell: Shell<T>,
    tree: &[u8],
    session: Session,
    request: Request,
    out: &mut Vec<u8>,
) -> (Shell<T>, Result<After, AllocError>)
    requires ready { IsReady tree.now (T.stored shell.store) }
    requires blank { out.old.items ≡ [] }
    ensures asked { IfOk result.1 (λ after. IsAsked (state_of T.stored shell) session request out.new.items after (state_of T.stored result.0)) }
    ensures ready { IfOk result.1 (λ after. (after ≡ afters.Stopped → ⊥) → IsReady tree.now (T.stored result.0.store)) }
    ensures safe { IsSafely T.safe shell result.0 }
    ensures format { result.0.format ≡ shell.format }
{
    if !begins_at_end(&shell.store, session, request) {
        return ask_store(alloc, shell, tree, session, request, out);
    }
    let (shell, begun) = begin_next_epoch(alloc, shell, tree);
    match begun {
        Ok(()) | Err(EpochError::Full) => ask_store(alloc, shell, tree, session, request, out),
        Err(EpochError::DiskFault) => (shell, Ok(After::Stopped)),
        Err(EpochError::OutOfMemory) => (shell, Err(AllocError)),
        Err(EpochError::Unfinished(_)) => answer_later(shell, session, out),
        Err(EpochError::Untold(_)) => answer_later(shell, session, out),
    }
}

/// Appends that a session is to ask again later.
fn answer_later<T: ShellStore>(
    shell: Shell<T>,
    session: Session,
    out: &mut Vec<u8>,
) -> (Shell<T>, Result<After, AllocError>)
    requires { out.old.items ≡ [] }
    ensures same { result.0 ≡ shell }
    ensures said { IfOk result.1 (λ after. (after ≡ afters.Next) × (out.new.items ≡ reply_line (T.stored shell.store).names session replies.Later)) }
{
    let put = put_later(out, shell.store.names(), session);
    (shell, put)
}

fn put_later(out: &mut Vec<u8>, names: &NameBook, session: Session) -> Result<After, AllocError>
    requires { out.old.items ≡ [] }
    ensures { IfOk result (λ after. (after ≡ afters.Next) × (out.new.items ≡ reply_line names.now session replies.Later)) }
{
    put_reply(out, names, session, &StoreReply::Later)?;
    Ok(After::Next)
}

/// True if a session without a transaction asks to begin one in an epoch that has to end.
fn begins_at_end<T: ShellStore>(store: &T, session: Session, request: Request) -> bool
    ensures { IsTrue result ↔ BeginsAtEnd (T.stored store.now) session request }
{
    match request {
        Request::Begin(_) => store.history().held(session).is_none() && has_to_end(store),
        _ => false,
    }
}

/// True if as many transactions have begun as may, or there are commits and little is left for more.
fn has_to_end<T: ShellStore>(store: &T) -> bool
    ensures { IsTrue result ↔ HasToEnd (T.stored store.now) }
{
    store.history().begun() >= MOST_TXNS || store.commits() > 0 && store.left() < LEAST_LEFT
}

/// Asks the store, and appends the line of the answer.
pub(crate) fn ask_store<T: ShellStore>(
    alloc: Global,
    shell: Shell<T>,
    tree: &[u8],
    session: Session,
    request: Request,
    out: &mut Vec<u8>,
) -> (Shell<T>, Result<After, AllocError>)
    requires ready { IsReady tree.now (T.stored shell.store) }
    requires blank { out.old.items ≡ [] }
    ensures replied { IfOk result.1 (λ after. ShowsReply (state_of T.stored shell) session request out.new.items after (state_of T.stored result.0)) }
    ensures ready { IfOk result.1 (λ after. (after ≡ afters.Stopped → ⊥) → IsReady tree.now (T.stored result.0.store)) }
    ensures safe { IsSameOrSafe T.safe shell result.0 }
    ensures format { result.0.format ≡ shell.format }
{
    let mut shell = shell;
    match shell.store.ask(alloc, session, request) {
        Ok(reply) => {
            shell.waits.note(session, &reply);
            let put = put_reply(out, shell.store.names(), session, &reply);
            (shell, after_reply(&reply, put))
        }
        Err(error) => (shell, Err(error)),
    }
}

fn after_reply(reply: &StoreReply, put: Result<(), AllocError>) -> Result<After, AllocError>
    ensures { IfOk result (λ after. (after ≡ after_reply reply.now) × OnErr put ⊥) }
{
    put?;
    match reply {
        StoreReply::Unsure => Ok(After::Stopped),
        _ => Ok(After::Next),
    }
}

fn next_if(put: Result<(), AllocError>) -> Result<After, AllocError>
    ensures { IfOk result (λ after. (after ≡ afters.Next) × OnErr put ⊥) }
{
    put?;
    Ok(After::Next)
}

/// Begins the next epoch, if nobody is unfinished, and appends what became of it.
pub(crate) fn checkpoint<T: ShellStore>(
    alloc: Global,
    shell: Shell<T>,
    tree: &[u8],
    out: &mut Vec<u8>,
) -> (Shell<T>, Result<After, AllocError>)
    requires ready { IsReady tree.now (T.stored shell.store) }
    requires blank { out.old.items ≡ [] }
    ensures checked { IfOk result.1 (λ after. IsCheckpoint (state_of T.stored shell) out.new.items after (state_of T.stored result.0)
        ⊎ (IsDrained (T.stored shell.store).events × HasFailed out.new.items after (state_of T.stored result.0))) }
    ensures ready { IfOk result.1 (λ after. (after ≡ afters.Stopped → ⊥) → IsReady tree.now (T.stored result.0.store)) }
    ensures safe { IsSafely T.safe shell result.0 }
    ensures format { result.0.format ≡ shell.format }
{
    let (shell, begun) = begin_next_epoch(alloc, shell, tree);
    let checkpoint = match begun {
        Ok(()) => Checkpoint::Begun(shell.epoch),
        Err(EpochError::Unfinished(txn)) => Checkpoint::Unfinished(txn),
        Err(EpochError::Untold(session)) => Checkpoint::Untold(session),
        Err(EpochError::Full) => Checkpoint::Full,
        Err(EpochError::DiskFault) => return (shell, Ok(After::Stopped)),
        Err(EpochError::OutOfMemory) => return (shell, Err(AllocError)),
    };
    let put = put_checkpoint(out, checkpoint);
    (shell, next_if(put))
}

/// Begins the next epoch, under the same tree.
///
/// # Errors
/// Why it has not begun. The shell is as it was, except for `DiskFault`.
fn begin_next_epoch<T: ShellStore>(
    alloc: Global,
    shell: Shell<T>,
    tree: &[u8],
) -> (Shell<T>, Result<(), EpochError>)
    requires ready { IsReady tree.now (T.stored shell.store) }
    ensures begun { OnOk result.1 (IsNextEpoch (state_of T.stored shell) (state_of T.stored result.0)) }
    ensures ready { OnOk result.1 (IsReady tree.now (T.stored result.0.store)) }
    ensures refused { IfErr result.1 (IsEpochRefused (T.stored shell.store).events) }
    ensures halted { IfErr result.1 (λ why. why ≡ errors.DiskFault → (T.stored result.0.store).stopped ≡ true) }
    ensures kept { IfErr result.1 (λ why. (why ≡ errors.DiskFault → ⊥) → result.0 ≡ shell) }
    ensures safe { IsSameOrSafe T.safe shell result.0 }
    ensures format { result.0.format ≡ shell.format }
{
    let Ok(setup) = setup_of(alloc, tree) else {
        return (shell, Err(EpochError::OutOfMemory));
    };
    let Shell {
        store,
        epoch,
        format,
        waits,
    } = shell;
    let (store, begun) = store.next_epoch(alloc, setup);
    let epoch = match begun {
        Ok(()) => epoch.saturating_add(1),
        Err(_) => epoch,
    };
    let shell = Shell {
        store,
        epoch,
        format,
        waits,
    };
    (shell, begun)
}

/// Reads a tree that was read before.
fn setup_of(alloc: Global, tree: &[u8]) -> Result<Setup, AllocError>
    ensures read { (m : SetupView) → setup_of_text tree.now ≡ Ok m → IfOk result (λ s. m ≡ setup_view s) }
    ensures whole { IfOk result (λ s. IsWhole (setup_view s)) }
    ensures named { IfOk result (λ s. IsNamed (setup_view s)) }
{
    match read_tree(alloc, tree) {
        Ok(setup) => Ok(setup),
        Err(_) => Err(AllocError),
    }
}
