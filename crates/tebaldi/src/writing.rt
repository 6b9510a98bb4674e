//! The writing of what a command puts out.

ghost use Rattle.std.specs.Prelude.{◌≡◌, ◌≢◌, None, MatchResult};
ghost use Rattle.teb_io.specs.Faults.{Rose};
ghost use Rattle.command_output.specs.Shown.{events_of, IsShowable};
ghost use Rattle.output_writer.specs.Endings.{IsWritten};
ghost use Rattle.tebaldi.specs.Endings.{IsServedAndWritten, IsSilent};
ghost use Rattle.tebaldi.specs.Shows.{IsAlone};

use crate::ended::Ended;
use command_output::Output;
use command_output::status::{OUT_OF_MEMORY, PASS_SPENT};
use hall_runner::Served;
use output_writer::WrittenOutput;
use std::alloc::AllocError;
use teb_io::Sink;
use teb_rules::history::History;

/// Returns the end of a command that one thread ran.
fn alone(output: WrittenOutput) -> Ended
    ensures { result ≡ record { status = output.status; history = output.history; entries = None; spent = None } }
{
    let WrittenOutput { status, history } = output;
    Ended {
        status,
        history,
        entries: None,
        spent: None,
    }
}

/// Ends with a status where there is nothing to write and nothing to keep.
pub fn silent(status: u8) -> Ended
    ensures { result ≡ record { status = status; history = None; entries = None; spent = None } }
{
    alone(output_writer::silent(status))
}

/// Writes the text, and ends with the status, or, where the text can't be written whole, with that of a write fault.
pub fn write<K: Sink>(out: &mut K, status: u8, text: &[u8], history: Option<History>) -> Ended
    requires { IsShowable status }
    ensures written { IsWritten (record { status = status; text = text.now; history = events_of history }) result.status result.history (K.written out.old) (K.written out.new) }
    ensures fault { result.status ≡ 4 → Rose (K.faults out.old) (K.faults out.new) }
    ensures loud { (result.status ≢ 3) × (result.status ≢ 8) }
    ensures alone { IsAlone result }
{
    alone(output_writer::write(out, status, text, history))
}

/// Writes what a command puts out; nothing if it is out of memory.
pub fn put_out<K: Sink>(out: &mut K, output: Result<Output, AllocError>) -> Ended
    ensures written { MatchResult output (λ o. IsWritten o result.status result.history (K.written out.old) (K.written out.new)) (λ _. result.status ≡ 8) }
    ensures fault { result.status ≡ 4 → Rose (K.faults out.old) (K.faults out.new) }
    ensures silent { result.status ≡ 8 → IsSilent result (K.written out.old) (K.written out.new) }
    ensures read { result.status ≢ 3 }
    ensures alone { IsAlone result }
{
    alone(output_writer::put_out(out, output))
}

/// Writes what several threads come to; nothing if a pass is spent or there is no memory.
pub fn put_served<K: Sink>(out: &mut K, served: Result<Served, AllocError>) -> Ended
    ensures written { MatchResult served (λ s. IsServedAndWritten s result (K.written out.old) (K.written out.new)) (λ _. result.status ≡ 8) }
    ensures fault { result.status ≡ 4 → Rose (K.faults out.old) (K.faults out.new) }
    ensures silent { result.status ≡ 8 → IsSilent result (K.written out.old) (K.written out.new) }
    ensures read { result.status ≢ 3 }
{
    match served {
        Ok(Served::Through { output, entries }) => {
            let (status, text, history) = output.into_parts();
            let WrittenOutput { status, history } = output_writer::write(
                out, status, &text, history,
            );
            Ended {
                status,
                history,
                entries: Some(entries),
                spent: None,
            }
        }
        Ok(Served::Spent(pass)) => Ended {
            status: PASS_SPENT,
            history: None,
            entries: None,
            spent: Some(pass),
        },
        Err(_) => silent(OUT_OF_MEMORY),
    }
}
