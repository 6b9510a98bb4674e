//! The lines of a script that ask something.

ghost use Rattle.std.specs.Prelude.{◌≡◌, ◌<◌, ◌^◌, ◌++◌, length, IfOk, OnOk, option_to_list};
ghost use Rattle.script_text.specs.Lines.{lines_of};
ghost use Rattle.script_text.specs.Sessions.{AreOfSessions};
ghost use Rattle.script_text.specs.Grammar.{script_of, Answers};

mod fronts;
mod grammar;
pub mod lines;
mod names;
mod numbers;
mod verbs;
mod words;

use super::{Line, ScriptError};
use fronts::Fronts;
use grammar::parse_line;
use names::BookAtHand;
pub use numbers::number;
use std::alloc::{AllocError, Global};
use teb_rules::names::NameBook;

/// A usual length of a short line in bytes. Room is made at once for the number of lines that fit a script at this length.
const USUAL_LEN: usize = 12;

/// Returns the lines of a script that ask something, in order. `format` is that of the tree: from 2 on `begin` may have an
/// instance, from 3 on there are `delete` and `scan`. A name that the tree does not have becomes the number 255. The lines are of
/// sessions 1 to `SESSIONS`.
///
/// # Errors
/// `BadLine` names the first bad line by its number, from 1, and the first of its faults in the order of `LineWhy`, with names
/// and numbers from left to right.
pub fn parse_script(
    alloc: Global,
    script: &[u8],
    names: &NameBook,
    format: u8,
) -> Result<Vec<Line>, ScriptError>
    requires { length (lines_of script.now) < 2 ^ 32 }
    ensures lines { Answers result (script_of names.now format script.now) }
    ensures sessions { IfOk result (λ v. AreOfSessions v.items) }
{
    let mut lines = Vec::new(alloc);
    lines.reserve(script.len() / USUAL_LEN)?;
    let mut words: [&[u8]; 6] = [b""; 6];
    let book = BookAtHand::new(names);
    let mut number = 0;
    for front in Fronts(script) {
        number += 1;
        match parse_line(&book, format, number, &front, &mut words) {
            Ok(line) => add_line(&mut lines, line)?,
            Err(why) => return Err(ScriptError::BadLine { number, why }),
        }
    }
    Ok(lines)
}

fn add_line(lines: &mut Vec<Line>, line: Option<Line>) -> Result<(), AllocError>
    ensures { OnOk result (lines.new.items ≡ lines.old.items ++ option_to_list line) }
{
    if let Some(line) = line {
        lines.push(line)?;
    }
    Ok(())
}
