//! The script of each session.

ghost use Rattle.std.specs.Prelude.{◌≡◌, ◌==◌, ◌<◌, [], filter, length, map, option_map, slice_get, replicate, vec_len, IfOk, OnOk, Some};
ghost use Rattle.script_text.specs.Scripts.{scripts_of, session, session_numbers, lines_for};
ghost use Rattle.script_text.specs.Lists.{lists_in, has_list, with_line};

use super::Line;
use std::alloc::{AllocError, Global};
use std::marker::Model;
use teb_rules::names::Session;

/// The script of each session that has one, in ascending order of the sessions. Contracts see a list of sessions, each with its
/// lines.
#[derive(Drop)]
pub struct Scripts {
    sessions: Vec<Session>,
    lists: Vec<Vec<Line>>,
}

impl Model for Scripts {
    ghost use Rattle.std.specs.Prelude.{◌≡◌, List, vec_len};
    ghost use Rattle.teb_rules.specs.declared.names.Session.{Session};
    ghost use Rattle.script_text.specs.declared.Line.{Line};
    ghost use Rattle.script_text.specs.Lists.{lists_in, paired};

    ghost Value = { List (Session × List Line) };

    ghost view = { λ s. paired s.sessions.items (lists_in s.lists.items) };

    ghost invariant = { λ s. vec_len s.lists ≡ 256 };
}

impl Scripts {
    /// Returns how many sessions have a script.
    pub fn len(&self) -> usize
        ensures { result ≡ length self.now }
    {
        self.sessions.len()
    }

    pub fn is_empty(&self) -> bool
        ensures { result ≡ (length self.now == 0) }
    {
        self.sessions.is_empty()
    }

    /// Returns the session at a place, from 0.
    pub fn session(&self, i: usize) -> Session
        requires { i < length self.now }
        ensures { option_map (λ s. s.0) (slice_get self.now i) ≡ Some result }
    {
        self.sessions[i]
    }

    /// Returns the script of the session at a place, from 0.
    pub fn lines(&self, i: usize) -> &[Line]
        requires { i < length self.now }
        ensures { option_map (λ s. s.1) (slice_get self.now i) ≡ Some result.now }
    {
        &self.lists[place(self.sessions[i])]
    }
}

/// Returns the script of each session that has a line, with its lines in order.
///
/// # Errors
/// `AllocError`: out of memory.
pub fn scripts_of(alloc: Global, lines: &[Line]) -> Result<Scripts, AllocError>
    ensures { IfOk result (λ scripts. scripts ≡ scripts_of lines.now) }
{
    let lists = lists_of(alloc, lines)?;
    let sessions = sessions_in(alloc, &lists)?;
    Ok(Scripts { sessions, lists })
}

/// Returns the lines of each session number. Each list is made with room for all its lines, so it does not move.
fn lists_of(alloc: Global, lines: &[Line]) -> Result<Vec<Vec<Line>>, AllocError>
    ensures lists { IfOk result (λ v. lists_in v.items ≡ map (lines_for lines.now) session_numbers) }
    ensures len { IfOk result (λ v. vec_len v ≡ 256) }
{
    let mut lists = empty_lists(alloc, &counts_of(lines))?;
    for line in lines {
        add_line(&mut lists, *line)?;
    }
    Ok(lists)
}

/// Returns how many lines each session number has.
fn counts_of(lines: &[Line]) -> [usize; 256] {
    let mut counts = [0; 256];
    for line in lines {
        counts[place(line.session)] += 1;
    }
    counts
}

/// Returns an empty list for each session number, with room for the counted lines.
fn empty_lists(alloc: Global, counts: &[usize; 256]) -> Result<Vec<Vec<Line>>, AllocError>
    ensures lists { IfOk result (λ v. lists_in v.items ≡ replicate 256 []) }
    ensures len { IfOk result (λ v. vec_len v ≡ 256) }
{
    let mut lists = Vec::with_capacity(alloc, 256)?;
    for count in counts {
        lists.push(Vec::with_capacity(alloc, *count)?)?;
    }
    Ok(lists)
}

fn add_line(lists: &mut Vec<Vec<Line>>, line: Line) -> Result<(), AllocError>
    requires { vec_len lists.old ≡ 256 }
    ensures lists { OnOk result (lists_in lists.new.items ≡ with_line (lists_in lists.old.items) line) }
    ensures len { vec_len lists.new ≡ 256 }
{
    lists[place(line.session)].push(line)?;
    Ok(())
}

/// Returns the index of the list of a session.
fn place(session: Session) -> usize
    ensures place { result ≡ session.0 }
    ensures within { result < 256 }
{
    usize::from(session.0)
}

/// Returns the sessions whose list is not empty.
fn sessions_in(alloc: Global, lists: &[Vec<Line>]) -> Result<Vec<Session>, AllocError>
    requires { length lists.now ≡ 256 }
    ensures { IfOk result (λ v. v.items ≡ filter (has_list (lists_in lists.now)) (map session session_numbers)) }
{
    let mut sessions = Vec::new(alloc);
    for (number, lines) in lists.iter().enumerate() {
        if !lines.is_empty() {
            sessions.push(Session(number as u8))?;
        }
    }
    Ok(sessions)
}
