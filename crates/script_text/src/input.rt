//! The two parts of an input: the text of a tree, and a script.

ghost use Rattle.std.specs.Prelude.{◌≡◌, ◌≤◌, length, drop, option_map};
ghost use Rattle.script_text.specs.Input.{is_separator, parts_of};

use super::script::lines::{after_line, line_len, without_return};

/// The most bytes of an input, and of a printed run that `audit` reads.
pub const MOST_BYTES: usize = 4_194_304;

/// The most lines of an input after its first separator.
pub const MOST_LINES: usize = 65_536;

/// Returns the bytes before the first line that is exactly `%%`, and the bytes after its line feed. `None` if there is no such
/// line.
pub fn split_input(bytes: &[u8]) -> Option<(&[u8], &[u8])>
    ensures { option_map (λ p. (p.0.now, p.1.now)) result ≡ parts_of bytes.now }
{
    let mut at = 0;
    while at <= bytes.len() {
        let rest = after(bytes, at);
        let len = line_len(rest);
        if is_separator(&rest[..len]) {
            return Some((&bytes[..at], after_line(rest, len)));
        }
        if len == rest.len() {
            return None;
        }
        at += len + 1;
    }
    None
}

#[tactic(auto, unfolding(crate::specs::Input::is_separator))]
fn is_separator(line: &[u8]) -> bool
    ensures { result ≡ is_separator line.now }
{
    without_return(line) == b"%%".as_slice()
}

fn after(bytes: &[u8], at: usize) -> &[u8]
    requires { at ≤ length bytes.now }
    ensures { result.now ≡ drop at bytes.now }
{
    &bytes[at..]
}
