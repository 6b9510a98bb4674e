//! The lines of a text, each up to the end of its words.

ghost use Rattle.std.specs.Prelude.{◌≡◌, ◌+◌, ◌<◌, ◌≤◌, IfSome, drop, length, map, take};
ghost use Rattle.std.specs.Iterator.{item_count};
ghost use Rattle.std.specs.List.{position_or_len};
ghost use Rattle.std.specs.Simd.Lanes.{mask_l};
ghost use Rattle.std.specs.Str.Lines.{strip_carriage_return};
ghost use Rattle.script_text.specs.Lines.{is_feed, lines_of};
ghost use Rattle.script_text.specs.Words.{is_other, words_of};
ghost use Rattle.script_text.specs.Fronts.{HasMask};

use super::lines::{Lines, after_line, without_return};
use super::words::inside_of;
use std::simd::prelude::*;

/// How many bytes are looked at together.
const LANES: usize = 32;

/// A line, up to the end of its words.
#[derive(Clone, Copy)]
pub struct Front<'a> {
    pub line: &'a [u8],
    /// If the line has at most 32 bytes: which of them are neither spaces nor tabs, a bit for each, the lowest for the first.
    pub inside: Option<u64>,
}

/// The lines of a text, each with all its words. A line with only spaces after its first 32 bytes is cut there.
#[derive(Clone, Copy)]
pub struct Fronts<'a>(pub &'a [u8]);

impl<'a> Iterator for Fronts<'a> {
    type Item = Front<'a>;

    ghost use Rattle.std.specs.Prelude.{◌≡◌, ◌∷◌, [], MatchOption, map};
    ghost use Rattle.script_text.specs.Lines.{lines_of};
    ghost use Rattle.script_text.specs.Words.{words_of};
    ghost use Rattle.script_text.specs.Fronts.{HasMask};

    ghost next_gives = { λ s r t. MatchOption r
        ((lines_of s.0.now ≡ []) × (lines_of t.0.now ≡ []))
        (λ x. (map words_of (lines_of s.0.now) ≡ words_of x.line.now ∷ map words_of (lines_of t.0.now)) × HasMask x) };

    ghost remaining = { item_count (λ s. lines_of s.0.now) };

    fn next(&mut self) -> Option<Front<'a>> {
        let text = self.0;
        match near_front(text) {
            Some((front, len)) => {
                self.0 = after_line(text, len);
                Some(front)
            }
            None => {
                let mut lines = Lines(text);
                let line = lines.next();
                self.0 = lines.0;
                match line {
                    Some(line) => Some(Front { line, inside: None }),
                    None => None,
                }
            }
        }
    }
}

/// Returns the front of the first line, and the length of the line, if it is short or padded with spaces.
fn near_front(text: &[u8]) -> Option<(Front, usize)>
    ensures end { IfSome result (λ p. p.1 ≡ position_or_len is_feed text.now) }
    ensures within { IfSome result (λ p. p.1 < length text.now) }
    ensures words { IfSome result (λ p. words_of p.0.line.now ≡ words_of (strip_carriage_return (take p.1 text.now))) }
    ensures mask { IfSome result (λ p. HasMask p.0) }
{
    if text.len() < LANES {
        return None;
    }
    let feeds = feeds_of(u8x32::from_slice(text));
    if feeds == 0 {
        match padded_len(text) {
            None => None,
            Some(len) => Some((with_mask(text, &text[..LANES]), len)),
        }
    } else {
        let len = feeds.trailing_zeros() as usize;
        Some((with_mask(text, without_return(&text[..len])), len))
    }
}

/// Returns a line of at most 32 bytes at the front of a text, with its mask.
fn with_mask<'a>(text: &'a [u8], line: &'a [u8]) -> Front<'a>
    requires long { 32 ≤ length text.now }
    requires short { length line.now ≤ 32 }
    requires front { line.now ≡ take (length line.now) text.now }
    ensures line { result.line.now ≡ line.now }
    ensures mask { HasMask result }
{
    let inside = inside_of(u8x32::from_slice(text));
    Front {
        line,
        inside: Some(inside % (1 << line.len())),
    }
}

/// Returns the length of the first line, if it has a line feed, and at least one space and nothing else after its first 32 bytes.
fn padded_len(text: &[u8]) -> Option<usize>
    requires long { 32 ≤ length text.now }
    requires feeds { mask_l (map is_feed (take 32 text.now)) ≡ 0 }
    ensures end { IfSome result (λ n. n ≡ position_or_len is_feed text.now) }
    ensures within { IfSome result (λ n. n < length text.now) }
    ensures long { IfSome result (λ n. 32 < n) }
    ensures words { IfSome result (λ n. words_of (take 32 text.now) ≡ words_of (strip_carriage_return (take n text.now))) }
{
    let end = spaces_end(text)?;
    if text[end] == b'\n' && end > LANES {
        Some(end)
    } else {
        None
    }
}

/// Returns the place of the first byte after the first 32 that is not a space. `None` if it may be one of the last bytes.
fn spaces_end(text: &[u8]) -> Option<usize>
    requires { 32 ≤ length text.now }
    ensures end { IfSome result (λ n. n ≡ 32 + position_or_len is_other (drop 32 text.now)) }
    ensures within { IfSome result (λ n. n < length text.now) }
{
    let mut at = LANES;
    while text.len() - at >= LANES {
        let others = others_of(u8x32::from_slice(&text[at..]));
        if others != 0 {
            return Some(at + others.trailing_zeros() as usize);
        }
        at += LANES;
    }
    None
}

/// Returns which of these bytes are line feeds: a bit for each, the lowest for the first.
#[inline(always)]
fn feeds_of(bytes: u8x32) -> u64
    ensures { result ≡ mask_l (map is_feed bytes) }
{
    bytes.simd_eq(u8x32::splat(b'\n')).to_bitmask()
}

/// Returns which of these bytes are not spaces.
#[inline(always)]
fn others_of(bytes: u8x32) -> u64
    ensures { result ≡ mask_l (map is_other bytes) }
{
    bytes.simd_ne(u8x32::splat(b' ')).to_bitmask()
}
