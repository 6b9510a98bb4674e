//! The words of a line.

ghost use Rattle.std.specs.Prelude.{◌≡◌, ◌≤◌, length, map, take, position};
ghost use Rattle.std.specs.Iterator.{YieldsFirstRef, item_count};
ghost use Rattle.std.specs.List.{position_or_len};
ghost use Rattle.std.specs.Simd.Lanes.{mask_l};
ghost use Rattle.script_text.specs.Fronts.{HasMask};
ghost use Rattle.script_text.specs.Words.{is_blank, is_inside, nows, without_blanks, words_of};

use super::fronts::Front;
use std::simd::prelude::*;

/// How many bytes are looked at together.
const LANES: usize = 16;

/// The words of a line, which spaces and tabs separate.
#[derive(Clone, Copy)]
pub struct Words<'a>(pub &'a [u8]);

impl<'a> Iterator for Words<'a> {
    type Item = &'a [u8];

    ghost next_gives = { YieldsFirstRef (λ s. words_of s.0.now) };

    ghost remaining = { item_count (λ s. words_of s.0.now) };

    fn next(&mut self) -> Option<&'a [u8]> {
        let text = without_blanks(self.0);
        let (word, rest) = text.split_at(word_len(text));
        self.0 = rest;
        if word.is_empty() { None } else { Some(word) }
    }
}

/// Writes the first six words of a line, and returns how many of the six there are. No line that asks something has more than
/// five.
pub fn first_words<'a>(front: &Front<'a>, words: &mut [&'a [u8]; 6]) -> usize
    requires { HasMask front.now }
    ensures words { nows (take result words.new) ≡ take 6 (words_of front.now.line.now) }
    ensures count { result ≤ 6 }
{
    match front.inside {
        Some(inside) => near_words(front.line, inside, words),
        None => far_words(front.line, words),
    }
}

/// The same for a line of at most 32 bytes, by the mask of the bytes that are neither spaces nor tabs.
fn near_words<'a>(line: &'a [u8], inside: u64, words: &mut [&'a [u8]; 6]) -> usize
    requires short { length line.now ≤ 32 }
    requires mask { inside ≡ mask_l (map is_inside line.now) }
    ensures words { nows (take result words.new) ≡ take 6 (words_of line.now) }
    ensures count { result ≤ 6 }
{
    let mut len = 0;
    let mut at = 0;
    let mut rest = inside;
    while rest != 0 && len < 6 {
        let gap = rest.trailing_zeros();
        let start = at + gap as usize;
        let ahead = rest >> gap;
        let long = ahead.trailing_ones();
        let end = start + long as usize;
        words[len] = &line[start..end];
        len += 1;
        rest = ahead >> long;
        at = end;
    }
    len
}

/// The same for any line.
#[inline(never)]
fn far_words<'a>(line: &'a [u8], words: &mut [&'a [u8]; 6]) -> usize
    ensures words { nows (take result words.new) ≡ take 6 (words_of line.now) }
    ensures count { result ≤ 6 }
{
    let mut len = 0;
    for word in Words(line) {
        if len == 6 {
            return len;
        }
        words[len] = word;
        len += 1;
    }
    len
}

fn is_blank(b: u8) -> bool
    ensures { result ≡ is_blank b }
{
    b == b' ' || b == b'\t'
}

/// Returns the text after its leading spaces and tabs.
fn without_blanks(text: &[u8]) -> &[u8]
    ensures { result.now ≡ without_blanks text.now }
{
    &text[blank_len(text)..]
}

/// Returns how many spaces and tabs the text begins with.
#[tactic(auto, using(crate::proofs::Places::unwrap_position, crate::proofs::Places::position_within))]
fn blank_len(text: &[u8]) -> usize
    ensures end { result ≡ position_or_len is_inside text.now }
    ensures within { result ≤ length text.now }
{
    if text.len() < LANES {
        return first_inside(text).unwrap_or(text.len());
    }
    let last = text.len() - LANES;
    let mut at = 0;
    while at < last {
        let inside = inside_of_half(u8x16::from_slice(&text[at..]));
        if inside != 0 {
            return at + inside.trailing_zeros() as usize;
        }
        at += LANES;
    }
    // The last bytes. Some of them may have been looked at before.
    let inside = inside_of_half(u8x16::from_slice(&text[last..]));
    if inside != 0 {
        return last + inside.trailing_zeros() as usize;
    }
    text.len()
}

/// Returns which of these bytes are neither spaces nor tabs: a bit for each, the lowest for the first.
#[inline(always)]
pub fn inside_of(bytes: u8x32) -> u64
    ensures { result ≡ mask_l (map is_inside bytes) }
{
    (bytes.simd_ne(u8x32::splat(b' ')) & bytes.simd_ne(u8x32::splat(b'\t'))).to_bitmask()
}

/// The same for half as many bytes.
#[inline(always)]
fn inside_of_half(bytes: u8x16) -> u64
    ensures { result ≡ mask_l (map is_inside bytes) }
{
    (bytes.simd_ne(u8x16::splat(b' ')) & bytes.simd_ne(u8x16::splat(b'\t'))).to_bitmask()
}

fn first_inside(text: &[u8]) -> Option<usize>
    ensures { result ≡ position is_inside text.now }
{
    text.iter().position(|b| !is_blank(*b))
}

/// Returns the length of the word at the front.
#[tactic(auto, using(crate::proofs::Places::unwrap_position, crate::proofs::Places::position_within))]
fn word_len(text: &[u8]) -> usize
    ensures end { result ≡ position_or_len is_blank text.now }
    ensures within { result ≤ length text.now }
{
    first_blank(text).unwrap_or(text.len())
}

fn first_blank(text: &[u8]) -> Option<usize>
    ensures { result ≡ position is_blank text.now }
{
    text.iter().position(|b| is_blank(*b))
}
