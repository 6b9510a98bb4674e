//! The writing of a command's output.

ghost use Rattle.std.specs.Prelude.{◌≡◌, ◌≢◌, MatchResult, None};
ghost use Rattle.std.specs.Io.KnownBytes.{Keeps};
ghost use Rattle.teb_io.specs.Faults.{Rose};
ghost use Rattle.command_output.specs.Shown.{events_of, IsShowable};
ghost use Rattle.output_writer.specs.Endings.{IsWritten};

use crate::WrittenOutput;
use command_output::Output;
use command_output::status::{OUT_OF_MEMORY, WRITE_FAULT};
use std::alloc::AllocError;
use teb_io::{Sink, write_whole};
use teb_rules::history::History;

/// Ends with a status, with nothing to write and nothing to keep.
pub fn silent(status: u8) -> WrittenOutput
    ensures { result ≡ record { status = status; history = None } }
{
    WrittenOutput {
        status,
        history: None,
    }
}

/// Writes the text, and ends with the status, or with that of a write fault if the text cannot be written whole.
pub fn write<K: Sink>(
    out: &mut K,
    status: u8,
    text: &[u8],
    history: Option<History>,
) -> WrittenOutput
    requires { IsShowable status }
    ensures written { IsWritten (record { status = status; text = text.now; history = events_of history }) result.status result.history (K.written out.old) (K.written out.new) }
    ensures fault { result.status ≡ 4 → Rose (K.faults out.old) (K.faults out.new) }
    ensures loud { (result.status ≢ 3) × (result.status ≢ 8) }
{
    let status = match write_whole(out, text) {
        Ok(()) => status,
        Err(_) => WRITE_FAULT,
    };
    WrittenOutput { status, history }
}

/// Writes the output of a command; nothing if it ran out of memory.
pub fn put_out<K: Sink>(out: &mut K, output: Result<Output, AllocError>) -> WrittenOutput
    ensures written { MatchResult output (λ o. IsWritten o result.status result.history (K.written out.old) (K.written out.new)) (λ _. result.status ≡ 8) }
    ensures fault { result.status ≡ 4 → Rose (K.faults out.old) (K.faults out.new) }
    ensures silent { result.status ≡ 8 → Keeps (K.written out.old) (K.written out.new) × (result.history ≡ None) }
    ensures read { result.status ≢ 3 }
{
    match output {
        Ok(output) => {
            let (status, text, history) = output.into_parts();
            write(out, status, &text, history)
        }
        Err(_) => silent(OUT_OF_MEMORY),
    }
}
