ghost use Rattle.std.specs.Prelude.{◌≡◌, ◌<◌, ◌≤◌, ◌^◌, neg_ℤ, pos, if◌then◌else◌, unsigned_abs};
ghost use Rattle.lisp_numbers.specs.Division.{are_opposite, floor_of, mod_of, truncate_of, rem_of, quotient_of};
ghost use Rattle.lisp_numbers.specs.Range.{ranged};

use crate::Computed;

/// The number of this sign and size.
fn signed(negative: bool, size: u64) -> Computed
    ensures { result ≡ ranged (if negative then neg_ℤ (pos size) else pos size) }
{
    let exact = if negative {
        0i64.checked_sub_unsigned(size)
    } else {
        0i64.checked_add_unsigned(size)
    };
    match exact {
        Some(number) => Computed::Number(number),
        None => Computed::OutOfRange,
    }
}

/// The quotient rounded down.
pub fn floor(dividend: i64, divisor: i64) -> Computed
    ensures { result ≡ floor_of dividend divisor }
{
    if divisor == 0 {
        return Computed::ZeroDivisor;
    }
    let (size, by) = (dividend.unsigned_abs(), divisor.unsigned_abs());
    if (dividend < 0) == (divisor < 0) {
        signed(false, size / by)
    } else {
        signed(true, size.div_ceil(by))
    }
}

/// The quotient rounded towards 0.
pub fn truncate(dividend: i64, divisor: i64) -> Computed
    ensures { result ≡ truncate_of dividend divisor }
{
    if divisor == 0 {
        return Computed::ZeroDivisor;
    }
    match dividend.checked_div(divisor) {
        Some(quotient) => Computed::Number(quotient),
        None => Computed::OutOfRange,
    }
}

/// What is left behind [`truncate`]'s quotient: 0, or of the dividend's sign.
pub fn remainder(dividend: i64, divisor: i64) -> Computed
    ensures { result ≡ rem_of dividend divisor }
{
    if divisor == 0 {
        return Computed::ZeroDivisor;
    }
    Computed::Number(dividend.wrapping_rem(divisor))
}

/// Whether two numbers have opposite signs, where neither is 0.
fn are_opposite(a: i64, b: i64) -> bool
    ensures { result ≡ are_opposite a b }
{
    (a > 0 && b < 0) || (a < 0 && b > 0)
}

/// What is left behind [`floor`]'s quotient: 0, or of the divisor's sign.
pub fn modulo(dividend: i64, divisor: i64) -> Computed
    ensures { result ≡ mod_of dividend divisor }
{
    if divisor == 0 {
        return Computed::ZeroDivisor;
    }
    let rest = dividend.wrapping_rem(divisor);
    if are_opposite(rest, divisor) {
        Computed::Number(rest + divisor)
    } else {
        Computed::Number(rest)
    }
}

/// The quotient where it is whole.
pub fn quotient(dividend: i64, divisor: i64) -> Computed
    ensures { result ≡ quotient_of dividend divisor }
{
    match remainder(dividend, divisor) {
        Computed::Number(0) => truncate(dividend, divisor),
        Computed::Number(_) => Computed::Inexact,
        other => other,
    }
}
