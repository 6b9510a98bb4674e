//! Numbers in a script.

ghost use Rattle.std.specs.Prelude.{◌≡◌, ◌<◌, ◌≤◌, ◌+◌, ◌*◌, ◌^◌, MatchOption, IfSome, option_map, IsTrue, false, length, pos, neg_ℤ};
ghost use Rattle.std.specs.Char.{digit_value, is_ascii_digit};
ghost use Rattle.std.specs.Str.{all_ascii_digits};
ghost use Rattle.std.specs.Str.Parse.{digits_value};
ghost use Rattle.script_text.specs.Numbers.{number_upto, integer_of};

/// Returns the value of one to twenty digits, if it is at most `most`.
#[inline(always)]
#[tactic(auto, unfolding(crate::specs::Numbers::number_upto))]
pub fn number(word: &[u8], most: u64) -> Option<u64>
    ensures value { result ≡ number_upto most word.now }
    ensures bound { IfSome result (λ n. n ≤ most) }
{
    if word.len() >= 20 {
        return long_number(word, most);
    }
    let value = short_value_of(word)?;
    if value <= most && !word.is_empty() {
        Some(value)
    } else {
        None
    }
}

/// The same for twenty bytes or more. It is a separate call, since few words are that long.
#[inline(never)]
#[tactic(auto, unfolding(crate::specs::Numbers::number_upto))]
fn long_number(word: &[u8], most: u64) -> Option<u64>
    requires { 20 ≤ length word.now }
    ensures value { result ≡ number_upto most word.now }
    ensures bound { IfSome result (λ n. n ≤ most) }
{
    if word.len() > 20 {
        return None;
    }
    let value = long_value_of(word)?;
    if value <= most { Some(value) } else { None }
}

/// Returns the same for a byte. It is fast for one or two digits.
#[tactic(auto, unfolding(crate::specs::Numbers::number_upto))]
pub fn small_number(word: &[u8], most: u8) -> Option<u8>
    ensures { result ≡ number_upto most word.now }
{
    match few_digits(word) {
        Some(n) => { if n <= most { Some(n) } else { None } }
        None => match number(word, u64::from(most)) {
            None => None,
            Some(n) => Some(n as u8),
        },
    }
}

/// Returns the value of one or two digits. `None` for anything else.
fn few_digits(word: &[u8]) -> Option<u8>
    ensures { IfSome result (λ n. IsTrue (all_ascii_digits word.now) × (n ≡ digits_value 10 word.now) × (0 < length word.now) × (length word.now ≤ 2)) }
{
    match word {
        [d] if d.is_ascii_digit() => Some(*d - b'0'),
        [t, d] if t.is_ascii_digit() && d.is_ascii_digit() => {
            Some((*t - b'0') * 10 + (*d - b'0'))
        }
        _ => None,
    }
}

/// Returns the value of one to twenty digits, after at most one `-`, or `None` if the word is none in 64 bits.
#[inline(always)]
#[tactic(auto, unfolding(crate::specs::Numbers::integer_of))]
pub fn integer(word: &[u8]) -> Option<i64>
    ensures { result ≡ integer_of word.now }
{
    if !word.is_empty() && word[0] == b'-' {
        negative_of(&word[1..])
    } else {
        match number(word, (1 << 63) - 1) {
            None => None,
            Some(n) => Some(positive(n)),
        }
    }
}

/// Returns the negative value of the digits after a `-`. It is a separate call, since few numbers have one.
#[inline(never)]
fn negative_of(digits: &[u8]) -> Option<i64>
    ensures { result ≡ option_map (λ n. neg_ℤ (pos n)) (number_upto (2 ^ 63) digits.now) }
{
    match number(digits, 1 << 63) {
        None => None,
        Some(n) => Some(negative(n)),
    }
}

/// Returns the value of fewer than twenty digits, which fits 64 bits. `None` for anything else.
fn short_value_of(word: &[u8]) -> Option<u64>
    requires { length word.now < 20 }
    ensures { MatchOption result
        (all_ascii_digits word.now ≡ false)
        (λ n. IsTrue (all_ascii_digits word.now) × (n ≡ digits_value 10 word.now)) }
{
    let mut total = 0u64;
    for b in word {
        total = total * 10 + digit_of(*b)?;
    }
    Some(total)
}

/// Returns the value of a digit.
#[inline(always)]
fn digit_of(b: u8) -> Option<u64>
    ensures { MatchOption result (is_ascii_digit b ≡ false) (λ d. IsTrue (is_ascii_digit b) × (d ≡ digit_value b) × (d ≤ 9)) }
{
    let digit = u64::from(b).wrapping_sub(u64::from(b'0'));
    if digit <= 9 { Some(digit) } else { None }
}

/// Returns the value of these bytes, if all are digits and the value fits 64 bits.
fn long_value_of(word: &[u8]) -> Option<u64>
    ensures { MatchOption result
        (IsTrue (all_ascii_digits word.now) → 2 ^ 64 ≤ digits_value 10 word.now)
        (λ n. IsTrue (all_ascii_digits word.now) × (n ≡ digits_value 10 word.now)) }
{
    let mut total = 0u64;
    for b in word {
        if !b.is_ascii_digit() {
            return None;
        }
        match with_digit(total, *b - b'0') {
            Some(next) => total = next,
            None => return None,
        }
    }
    Some(total)
}

fn with_digit(total: u64, digit: u8) -> Option<u64>
    ensures { MatchOption result (2 ^ 64 ≤ total * 10 + digit) (λ n. n ≡ total * 10 + digit) }
{
    match total.checked_mul(10) {
        Some(tens) => tens.checked_add(u64::from(digit)),
        None => None,
    }
}

fn positive(n: u64) -> i64
    requires { n < 2 ^ 63 }
    ensures { result ≡ pos n }
{
    n as i64
}

fn negative(n: u64) -> i64
    requires { n ≤ 2 ^ 63 }
    ensures { result ≡ neg_ℤ (pos n) }
{
    if n == 1 << 63 { i64::MIN } else { -(n as i64) }
}
