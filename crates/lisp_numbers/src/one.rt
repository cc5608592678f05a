ghost use Rattle.std.specs.Prelude.{◌≡◌, pos};
ghost use Rattle.lisp_numbers.specs.Order.{is_even};
ghost use Rattle.lisp_numbers.specs.Range.{ranged, absolute_of, successor_of, predecessor_of};

use crate::Computed;

/// The size of a number.
pub fn absolute(number: i64) -> Computed
    ensures { result ≡ absolute_of number }
{
    match number.checked_abs() {
        Some(size) => Computed::Number(size),
        None => Computed::OutOfRange,
    }
}

pub fn successor(number: i64) -> Computed
    ensures { result ≡ successor_of number }
{
    match number.checked_add(1) {
        Some(next) => Computed::Number(next),
        None => Computed::OutOfRange,
    }
}

pub fn predecessor(number: i64) -> Computed
    ensures { result ≡ predecessor_of number }
{
    match number.checked_sub(1) {
        Some(before) => Computed::Number(before),
        None => Computed::OutOfRange,
    }
}

pub fn is_even(number: i64) -> bool
    ensures { result ≡ is_even number }
{
    number.unsigned_abs() % 2 == 0
}

/// How many there are, as a number.
pub fn counted(count: usize) -> Computed
    ensures { result ≡ ranged (pos count) }
{
    match 0i64.checked_add_unsigned(count as u64) {
        Some(number) => Computed::Number(number),
        None => Computed::OutOfRange,
    }
}
