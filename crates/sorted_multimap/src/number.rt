//! Numbers of values.

ghost use Rattle.std.specs.Prelude.{◌≡◌, ℕ};
ghost use Rattle.teb_rules.specs.history.Ascending.{IsAscendingBy, place_of};
ghost use Rattle.teb_rules.specs.history.Live.{number_of};

use teb_rules::names::Txn;

/// A value with a number. The values of a key may ascend by it.
pub trait Numbered: Copy {
    ghost numbered_by: { Self → ℕ };

    fn number(self) -> u32
        ensures { result ≡ numbered_by self };
}

impl Numbered for Txn {
    ghost numbered_by = { number_of };

    fn number(self) -> u32 {
        self.0
    }
}

/// Returns the place of the value with this number, among values that ascend by number. It costs a look at the last value if that has the
/// number or a lesser one, and otherwise a binary search.
///
/// # Errors
/// If no value has the number: the place at which it would be inserted.
pub fn find_number<V: Numbered>(values: &[V], number: u32) -> Result<usize, usize>
    requires { IsAscendingBy V.numbered_by values.now }
    ensures { result ≡ place_of V.numbered_by values.now number }
{
    let Some(last) = values.last() else {
        return Err(0);
    };
    let greatest = last.number();
    if greatest < number {
        return Err(values.len());
    }
    if greatest == number {
        return Ok(values.len() - 1);
    }
    values.binary_search_by_key(&number, |value| value.number())
}
