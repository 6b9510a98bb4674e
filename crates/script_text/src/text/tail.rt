//! Short texts, put together from their end.

ghost use Rattle.std.specs.Prelude.{◌≡◌, ◌+◌, ◌<◌, ◌≤◌, ◌++◌, ◌∷◌, [], length, decimal};
ghost use Rattle.std.specs.Fmt.{signed_decimal};

use itoa::write_digits;
use std::marker::Model;

/// The end of a text, at most `N` bytes. What comes before it is put in front of it. Contracts see its bytes.
#[derive(Drop)]
pub struct Tail<const N: usize> {
    bytes: [u8; N],
    // The index at which the text begins.
    start: usize,
}

impl<const N: usize> Model for Tail<N> {
    ghost use Rattle.std.specs.Prelude.{List, ℕ, ◌≤◌, drop};

    ghost Value = { List ℕ };

    ghost view = { λ s. drop s.start s.bytes };

    ghost invariant = { λ s. s.start ≤ N };
}

impl<const N: usize> Tail<N> {
    /// Returns an empty text.
    pub fn new() -> Self
        ensures { result ≡ [] }
    {
        Tail {
            bytes: [0; N],
            start: N,
        }
    }

    /// Returns the text.
    pub fn as_bytes(&self) -> &[u8]
        ensures { result.now ≡ self.now }
    {
        let bytes = &self.bytes[..];
        &bytes[self.start..]
    }

    /// Puts bytes in front.
    pub fn put(&mut self, text: &[u8])
        requires { length self.old + length text.now ≤ N }
        ensures { self.new ≡ text.now ++ self.old }
    {
        let end = self.start;
        let start = end - text.len();
        let bytes = &mut self.bytes[..];
        bytes[start..end].copy_from_slice(text);
        self.start = start;
    }

    /// Puts a number in front.
    #[tactic(auto, using(crate::proofs::Tails::length_natural))]
    pub fn put_natural(&mut self, n: u32)
        requires { length self.old + 10 ≤ N }
        ensures text { self.new ≡ decimal n ++ self.old }
        ensures short { length self.new ≤ length self.old + 10 }
    {
        if n < 10 {
            self.put_digit(n);
        } else if n < 100 {
            self.put_digit(n % 10);
            self.put_digit(n / 10);
        } else {
            self.put_digits(u64::from(n));
        }
    }

    /// Puts a number with its sign in front.
    #[tactic(auto, using(crate::proofs::Tails::length_magnitude, crate::proofs::Tails::minus_first))]
    pub fn put_integer(&mut self, n: i64)
        requires { length self.old + 20 ≤ N }
        ensures text { self.new ≡ signed_decimal n ++ self.old }
        ensures short { length self.new ≤ length self.old + 20 }
    {
        self.put_digits(n.unsigned_abs());
        if n < 0 {
            self.put(b"-");
        }
    }

    fn put_digit(&mut self, n: u32)
        requires room { length self.old < N }
        requires digit { n < 10 }
        ensures { self.new ≡ (48 + n) ∷ self.old }
    {
        let start = self.start - 1;
        self.bytes[start] = b'0' + n as u8;
        self.start = start;
    }

    fn put_digits(&mut self, n: u64)
        requires { length self.old + length (decimal n) ≤ N }
        ensures { self.new ≡ decimal n ++ self.old }
    {
        self.start = write_digits(n, &mut self.bytes, self.start);
    }
}
