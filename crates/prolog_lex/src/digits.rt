// The numbers that digits write.
ghost use Rattle.std.specs.Prelude.{◌≡◌, ◌≤◌, ◌^◌, ◌*◌, ◌+◌, SomeIff};
ghost use Rattle.std.specs.Char.{digit_value};
ghost use Rattle.term_core.specs.Tokens as tokens;

use crate::classes::digit_value;

/// The greatest integer that is a token, since a minus may stand before it.
const GREATEST: u128 = 1 << 127;

fn with_digit(value: u128, radix: u32, digit: char) -> Option<u128>
    ensures { SomeIff result (value * radix + digit_value digit ≤ 2 ^ 127) (value * radix + digit_value digit) }
{
    let value = value
        .checked_mul(u128::from(radix))?
        .checked_add(u128::from(digit_value(digit)))?;
    if value <= GREATEST { Some(value) } else { None }
}

// The number that digits write, where it is at most the greatest integer.
pub(crate) fn value_in(radix: u32, digits: &[char]) -> Option<u128>
    requires { 1 ≤ radix }
    ensures { SomeIff result (tokens.value_in radix digits.now ≤ 2 ^ 127) (tokens.value_in radix digits.now) }
{
    let mut value = 0;
    for digit in digits {
        value = with_digit(value, radix, *digit)?;
    }
    Some(value)
}
