//! The lines of a source, read one at a time.
//!
//! The shell reads its lines with a [`LineReader`], so that it can answer one before it reads the next. `next_line` returns the
//! next line without its line feed, and `None` at the end.
//!
//! ```text
//!   source ──reads of 4,096 bytes at most──► the bytes ahead ──first line feed──► the next line
//! ```
//!
//! - A *line* is the bytes before a line feed. What follows the last line feed is a line too, if it is not empty. A carriage
//!   return is a byte of its line.
//! - The bytes *ahead* are those that were read and not yet taken, and then what is left of the source (`ahead`).
//!
//! **What is proved.** Each call takes the next line off the bytes ahead, and leaves none out; `None` is returned only if no byte
//! is ahead (`next_line`, clause `taken`). A line has at most 65,536 bytes (`short`). `TooLong` is returned only if the next line has
//! more (`too_long`), and such a line is never taken (`long`). `ReadFault` is returned only if the source's count of faults rose
//! (`fault`). A call reads only while no whole line is ahead: that holds by inspection of the code, and no contract states it.
//!
//! **Not claimed**: that a read returns, or when.
#![tactic(auto)]

ghost use Rattle.std.specs.Prelude.{◌≡◌, ◌≢◌, [], ◌∷◌, ◌++◌, ◌≤◌, IfErr, IfOk, IfSome, IsErr, IsErrOf, length, MatchOption, OnErr, OnOk};
ghost use Rattle.std.specs.Io.KnownBytes.{Consumes, IsAtEnd};
ghost use Rattle.teb_io.specs.Faults.{Rose};
ghost use Rattle.line_reader.specs.Lines.{ahead, IsFirstFeed, IsLine, IsTooLong, TakesNext};

use memchr::memchr;
use std::alloc::{AllocError, Global};
use std::marker::Model;
use teb_io::{ReadError, Source};

/// The most bytes of a line, without its line feed.
pub const MOST_LINE_BYTES: usize = 65_536;

/// How many bytes one read asks for.
const PIECE: usize = 4_096;

/// The bytes that were read and are not yet taken as lines. Contracts see these bytes.
#[derive(Drop)]
pub struct LineReader {
    bytes: Vec<u8>,
    at: usize,
    /// How many of the next bytes were put ahead.
    ahead: usize,
    /// Whether the last line that was taken was put ahead.
    was_ahead: bool,
}

impl Model for LineReader {
    ghost use Rattle.std.specs.Prelude.{ℕ, List, ◌≤◌, drop, length};

    ghost Value = { List ℕ };

    ghost view = { λ r. drop r.at r.bytes.items };

    ghost invariant = { λ r. r.at ≤ length r.bytes.items };
}

impl LineReader {
    /// Returns a reader that has read nothing. Takes no memory.
    pub fn new(alloc: Global) -> LineReader
        ensures { result ≡ [] }
    {
        LineReader {
            bytes: Vec::new(alloc),
            at: 0,
            ahead: 0,
            was_ahead: false,
        }
    }

    /// Puts a text before the bytes that are not yet taken.
    ///
    /// # Errors
    /// `AllocError`: out of memory. The bytes are unchanged.
    pub fn put_ahead(&mut self, alloc: Global, text: &[u8]) -> Result<(), AllocError>
        ensures ok { OnOk result (self.new ≡ text.now ++ self.old) }
        ensures err { OnErr result (self.new ≡ self.old) }
    {
        let mut all = text.to_vec(alloc)?;
        all.extend_from_slice(self.rest())?;
        self.bytes = all;
        self.at = 0;
        self.ahead = text.len();
        Ok(())
    }

    /// True if the last line that was taken was put ahead.
    pub fn was_ahead(&self) -> bool {
        self.was_ahead
    }

    /// Takes the next line, without its line feed; `None` at the end. A last line without a line feed counts if it is not empty. It
    /// reads only if no whole line was read before, and then until there is one.
    ///
    /// # Errors
    /// `ReadFault` if a read fails, `TooLong` if the next line has more than `MOST_LINE_BYTES` bytes, `OutOfMemory`. No line is taken.
    /// After `ReadFault` and `TooLong` the bytes ahead are as they were.
    pub fn next_line<S: Source>(
        &mut self,
        alloc: Global,
        source: &mut S,
    ) -> Result<Option<Vec<u8>>, ReadError>
        ensures taken { IfOk result (TakesNext (ahead self.old (S.left source.old)) (ahead self.new (S.left source.new))) }
        ensures short { IfOk result (λ o. IfSome o (λ line. length line.items ≤ MOST_LINE_BYTES)) }
        ensures too_long { IsErrOf result ReadError.TooLong → IfSome (ahead self.old (S.left source.old)) IsTooLong }
        ensures long { IfSome (ahead self.old (S.left source.old)) (λ bytes. IsTooLong bytes → IsErr result) }
        ensures kept { IfErr result (λ e. (e ≡ ReadError.OutOfMemory → ⊥) → Consumes (ahead self.old (S.left source.old)) (ahead self.new (S.left source.new)) []) }
        ensures fault { IsErrOf result ReadError.ReadFault → Rose (S.faults source.old) (S.faults source.new) }
        ensures no_fault { OnOk result (S.faults source.new ≡ S.faults source.old) }
        ensures no_other_fault { IfErr result (λ e. (e ≡ ReadError.ReadFault → ⊥) → S.faults source.new ≡ S.faults source.old) }
        ensures later { S.faults source.old ≤ S.faults source.new }
    {
        let line = match self.read_line(alloc, source)? {
            Some(len) if len > MOST_LINE_BYTES => return Err(ReadError::TooLong),
            Some(len) => Some(self.take_line(alloc, len)?),
            None => self.take_rest(alloc)?,
        };
        Ok(line)
    }

    /// Reads until there is a whole line, and returns its length; `None` if there is none at the end.
    fn read_line<S: Source>(
        &mut self,
        alloc: Global,
        source: &mut S,
    ) -> Result<Option<usize>, ReadError>
        ensures kept { OnOk result (Consumes (ahead self.old (S.left source.old)) (ahead self.new (S.left source.new)) []) }
        ensures found { IfOk result (λ o. MatchOption o (IsLine self.new × IsAtEnd (S.left source.new) × (length self.new ≤ MOST_LINE_BYTES)) (IsFirstFeed self.new)) }
        ensures too_long { IsErrOf result ReadError.TooLong → IfSome (ahead self.old (S.left source.old)) IsTooLong }
        ensures failed { IfErr result (λ e. (e ≡ ReadError.OutOfMemory → ⊥) → Consumes (ahead self.old (S.left source.old)) (ahead self.new (S.left source.new)) []) }
        ensures fault { IsErrOf result ReadError.ReadFault → Rose (S.faults source.old) (S.faults source.new) }
        ensures no_fault { OnOk result (S.faults source.new ≡ S.faults source.old) }
        ensures no_other_fault { IfErr result (λ e. (e ≡ ReadError.ReadFault → ⊥) → S.faults source.new ≡ S.faults source.old) }
        ensures later { S.faults source.old ≤ S.faults source.new }
    {
        let mut piece = [0; PIECE];
        'reading: loop {
            if let Some(len) = first_feed(self.rest()) {
                return Ok(Some(len));
            }
            if self.rest().len() > MOST_LINE_BYTES {
                return Err(ReadError::TooLong);
            }
            let count = source.read(&mut piece)?;
            if count == 0 {
                return Ok(None);
            }
            self.add(alloc, &piece[..count])?;
        }
    }

    /// Returns the bytes that are not yet taken.
    fn rest(&self) -> &[u8]
        ensures { result.now ≡ self.now }
    {
        &self.bytes[self.at..]
    }

    /// Adds bytes after them, and frees the room of those that were taken. Out of memory, they are as they were.
    fn add(&mut self, alloc: Global, bytes: &[u8]) -> Result<(), AllocError>
        ensures ok { OnOk result (self.new ≡ self.old ++ bytes.now) }
    {
        let mut all = self.rest().to_vec(alloc)?;
        all.extend_from_slice(bytes)?;
        self.bytes = all;
        self.at = 0;
        Ok(())
    }

    /// Takes the first line, of this length, and its line feed.
    fn take_line(&mut self, alloc: Global, len: usize) -> Result<Vec<u8>, AllocError>
        requires { IsFirstFeed self.old len }
        ensures { IfOk result (λ line. IsLine line.items × (length line.items ≡ len) × (self.old ≡ line.items ++ 10 ∷ self.new)) }
    {
        let line = self.rest()[..len].to_vec(alloc)?;
        self.at += len + 1;
        self.was_ahead = self.ahead > 0;
        self.ahead = self.ahead.saturating_sub(len + 1);
        Ok(line)
    }

    /// Takes all that is left, which is one line; `None` if it is nothing.
    fn take_rest(&mut self, alloc: Global) -> Result<Option<Vec<u8>>, AllocError>
        ensures line { IfOk result (λ o. MatchOption o (self.old ≡ []) (λ line. (line.items ≡ self.old) × (self.old ≢ []))) }
        ensures none { OnOk result (self.new ≡ []) }
    {
        if self.rest().is_empty() {
            return Ok(None);
        }
        let line = self.rest().to_vec(alloc)?;
        self.at = self.bytes.len();
        self.was_ahead = self.ahead > 0;
        self.ahead = 0;
        Ok(Some(line))
    }
}

/// Returns the place of the first line feed.
fn first_feed(bytes: &[u8]) -> Option<usize>
    ensures { MatchOption result (IsLine bytes.now) (IsFirstFeed bytes.now) }
{
    memchr(b'\n', bytes)
}
