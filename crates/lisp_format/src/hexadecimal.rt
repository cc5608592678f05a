ghost use Rattle.std.specs.Prelude.{◌≡◌, ◌++◌, ◌≤◌, [], true, length, OnOk};
ghost use Rattle.std.specs.Fmt.{digits_onto};
ghost use Rattle.lisp_format.specs.Hexadecimal.{hexadecimal};

use lisp_data::{NoMemory, Text};
use std::alloc::Global;

/// How many digits a number has in base 16, as far as so many places hold them.
fn digits_length(places: u8, n: u64) -> u64
    ensures value { result ≡ length (digits_onto places 16 true n []) }
    ensures bound { result ≤ places }
{
    if places == 0 {
        0
    } else if n / 16 == 0 {
        1
    } else {
        1 + digits_length(places - 1, n / 16)
    }
}

/// How many octets an integer has in base 16.
#[tactic(auto, unfolding(crate::specs::Hexadecimal::hexadecimal))]
pub fn hexadecimal_length(number: i64) -> u64
    ensures { result ≡ length (hexadecimal number) }
{
    let digits = digits_length(64, number.unsigned_abs());
    if number < 0 { digits + 1 } else { digits }
}

/// Writes an integer in base 16.
#[tactic(auto, unfolding(crate::specs::Hexadecimal::hexadecimal))]
pub fn write_hexadecimal(alloc: Global, out: &mut Text, number: i64) -> Result<(), NoMemory>
    ensures { OnOk result (out.new ≡ out.old ++ hexadecimal number) }
{
    if number < 0 {
        out.push_str("-")?;
    }
    let size = number.unsigned_abs();
    let digits = format!(in alloc; "{size:X}")?;
    out.push_str(digits.as_str())
}
