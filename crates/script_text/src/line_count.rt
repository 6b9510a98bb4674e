//! How many lines a script has.

ghost use Rattle.std.specs.Prelude.{◌≡◌, ◌≤◌, length, nat_lt};
ghost use Rattle.std.specs.List.{count_by};
ghost use Rattle.script_text.specs.Lines.{is_feed, lines_of};

use crate::script::lines::Lines;

/// How many bytes are looked at together. Their count fits a byte, and bytes are added many at a time.
const PIECE: usize = 224;

/// Returns whether a script has more than `most` lines. They are counted one by one only if it has that many line feeds.
pub fn has_more_lines(script: &[u8], most: usize) -> bool
    ensures { result ≡ nat_lt most (length (lines_of script.now)) }
{
    count_feeds(script) >= most && count_lines(script) > most
}

/// Returns how many lines a script has. A last line without a line feed is ignored if it is empty.
fn count_lines(script: &[u8]) -> usize
    ensures { result ≡ length (lines_of script.now) }
{
    Lines(script).count()
}

fn count_feeds(text: &[u8]) -> usize
    ensures { result ≡ count_by is_feed text.now }
{
    let mut count = 0;
    for piece in text.chunks(PIECE) {
        count += usize::from(feeds_in(piece));
    }
    count
}

fn feeds_in(piece: &[u8]) -> u8
    requires { length piece.now ≤ 224 }
    ensures { result ≡ count_by is_feed piece.now }
{
    let mut count = 0;
    for b in piece {
        if *b == b'\n' {
            count += 1;
        }
    }
    count
}
