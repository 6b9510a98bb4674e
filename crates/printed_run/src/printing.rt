//! The printed run: starting rows, events, serial order, final rows.

ghost use Rattle.std.specs.Prelude.{◌≡◌, ◌++◌, All, IfOk, OnOk};
ghost use Rattle.std.specs.List.{flat_map};
ghost use Rattle.script_text.specs.Named.{EventNamed};
ghost use Rattle.script_text.specs.Ranges.{EventInRange};
ghost use Rattle.script_text.specs.Texts.{event_text};
ghost use Rattle.audit_check.specs.Audit.{IsAudited};
ghost use Rattle.printed_run.specs.Printed.{IsNamedBy, IsPrintedRun};

use crate::ending::put_ending;
use engine_core::Engine;
use script_text::{put_event, put_starts};
use std::alloc::{AllocError, Global};
use teb_rules::history::Event;
use teb_rules::names::NameBook;
use version_chain::Chains;

/// Returns the printed run of an engine: the start lines, the event lines of its history, the serial order and the final rows. `audit`
/// accepts it.
///
/// # Errors
/// Out of memory.
pub fn printed_run<C: Chains>(alloc: Global, engine: &Engine<C>) -> Result<Vec<u8>, AllocError>
    requires { IsNamedBy engine.now.store engine.now.names }
    ensures text { IfOk result (λ v. IsPrintedRun engine.now.store engine.now.names engine.now.events v.items) }
    ensures audited { IfOk result (λ v. IsAudited v.items) }
{
    let setup = engine.setup();
    let mut text = Vec::new(alloc);
    put_starts(&mut text, &setup.names, &setup.rows)?;
    put_events(&mut text, &setup.names, engine.history().events())?;
    put_ending(alloc, &mut text, engine)?;
    Ok(text)
}

/// Appends the lines of events. After an error some of them are appended.
fn put_events(out: &mut Vec<u8>, names: &NameBook, events: &[Event]) -> Result<(), AllocError>
    requires { All (EventNamed names.now) events.now }
    ensures text { OnOk result (out.new.items ≡ out.old.items ++ flat_map (event_text names.now) events.now) }
    ensures in_range { OnOk result (All EventInRange events.now) }
{
    for event in events {
        put_event(out, names, event)?;
    }
    Ok(())
}
