//! The lines of a text.

ghost use Rattle.std.specs.Prelude.{◌≡◌, ◌≤◌, ◌+◌, length, drop, position};
ghost use Rattle.std.specs.Iterator.{YieldsFirstRef, item_count};
ghost use Rattle.std.specs.List.{position_or_len};
ghost use Rattle.std.specs.Str.Lines.{strip_carriage_return};
ghost use Rattle.script_text.specs.Lines.{is_feed, lines_of};

use memchr::memchr;

/// The lines of these bytes, each without its line feed and the one carriage return before it. A last line without a line feed is
/// ignored if it is empty.
#[derive(Clone, Copy)]
pub struct Lines<'a>(pub &'a [u8]);

impl<'a> Iterator for Lines<'a> {
    type Item = &'a [u8];

    ghost next_gives = { YieldsFirstRef (λ s. lines_of s.0.now) };

    ghost remaining = { item_count (λ s. lines_of s.0.now) };

    fn next(&mut self) -> Option<&'a [u8]> {
        let text = self.0;
        let len = line_len(text);
        let line = without_return(&text[..len]);
        self.0 = after_line(text, len);
        if line.is_empty() && len == text.len() {
            None
        } else {
            Some(line)
        }
    }
}

/// Returns the length of the first line, without its line feed.
#[tactic(auto, using(crate::proofs::Places::unwrap_position, crate::proofs::Places::position_within))]
pub fn line_len(text: &[u8]) -> usize
    ensures end { result ≡ position_or_len is_feed text.now }
    ensures within { result ≤ length text.now }
{
    first_feed(text).unwrap_or(text.len())
}

#[tactic(auto, using(crate::proofs::Places::position_first))]
fn first_feed(text: &[u8]) -> Option<usize>
    ensures { result ≡ position is_feed text.now }
{
    memchr(b'\n', text)
}

/// Returns what follows the first line, of this length, and its line feed.
pub fn after_line(text: &[u8], len: usize) -> &[u8]
    requires { len ≤ length text.now }
    ensures { result.now ≡ drop (len + 1) text.now }
{
    if len < text.len() {
        &text[len + 1..]
    } else {
        &text[len..]
    }
}

/// Returns the line without the one carriage return at its end.
pub fn without_return(line: &[u8]) -> &[u8]
    ensures { result.now ≡ strip_carriage_return line.now }
{
    match line {
        [front @ .., b'\r'] => front,
        _ => line,
    }
}
