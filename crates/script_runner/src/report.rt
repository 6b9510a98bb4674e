//! The report of a run.

ghost use Rattle.std.specs.Prelude.{◌≡◌, ◌++◌, All, IfOk, List, OnOk};
ghost use Rattle.std.specs.List.{flat_map};
ghost use Rattle.script_text.specs.declared.Answered.{Answered};
ghost use Rattle.script_text.specs.Texts.{reply_text};
ghost use Rattle.script_text.specs.Named.{ReplyNamed};
ghost use Rattle.store_setup.specs.SetupView.{SetupView};
ghost use Rattle.answer_log.specs.Telling.{HasLines};
ghost use Rattle.script_runner.specs.Runs.{IsReport, IsRunOver};

use answer_log::ReplyText;
use engine_core::Engine;
use printed_run::put_ending;
use script_text::{Answered, put_reply};
use std::alloc::{AllocError, Global};
use teb_rules::names::NameBook;
use version_chain::Chains;

/// Returns the replies, the serial order and the final tables. The text of the replies becomes that of the report.
///
/// # Errors
/// `AllocError`: out of memory. The replies are dropped, and the engine is only read.
pub fn report_of<C: Chains>(
    alloc: Global,
    engine: &Engine<C>,
    replies: ReplyText,
) -> Result<Vec<u8>, AllocError>
    requires { (m : SetupView) × (answers : List Answered) × IsRunOver m engine.now.store engine.now.names answers engine.now.events }
    ensures { IfOk result (λ v. (m : SetupView) (answers : List Answered)
        → IsRunOver m engine.now.store engine.now.names answers engine.now.events → HasLines replies engine.now.names answers
        → IsReport engine.now.store engine.now.names engine.now.events answers v.items) }
{
    let mut text = replies.into_text(&engine.setup().names)?;
    put_ending(alloc, &mut text, engine)?;
    Ok(text)
}

/// Appends the replies.
///
/// # Errors
/// `AllocError`: out of memory for one of them. Those before it are appended.
pub fn put_replies(out: &mut Vec<u8>, names: &NameBook, log: &[Answered]) -> Result<(), AllocError>
    requires { All (λ a. ReplyNamed names.now a.reply) log.now }
    ensures { OnOk result (out.new.items ≡ out.old.items ++ flat_map (reply_text names.now) log.now) }
{
    for answered in log {
        put_reply(out, names, answered.session, &answered.reply)?;
    }
    Ok(())
}
