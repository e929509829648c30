//! Short degrees, as `0.1277`: one to nine digits, and up to nine after a point. They fit 64 bits
//! and need no division, and nearly all texts of degrees are such.
ghost use Rattle.std.specs.Prelude.{◌≡◌, ◌<◌, ◌≤◌, ◌+◌, ◌-◌, ◌*◌, ◌^◌, true, length, IfSome};
ghost use Rattle.std.specs.Char.{is_digit};
ghost use Rattle.std.specs.List.{list_all};
ghost use Rattle.std.specs.Str.Parse.{digits_value};
ghost use Rattle.osm_text.specs.Numbers.{are_digits};

use crate::digits::read_digits;
use crate::nano::DEGREE;

/// The digits after a point, in nanodegrees, by how many they are.
fn scaled(fraction: u64, places: usize) -> u64
    requires fraction { fraction < 10 ^ places }
    requires places { places ≤ 9 }
    ensures value { result ≡ fraction * 10 ^ (9 - places) }
    ensures size { result < 10 ^ 9 }
{
    match places {
        0 => fraction * DEGREE,
        1 => fraction * 100_000_000,
        2 => fraction * 10_000_000,
        3 => fraction * 1_000_000,
        4 => fraction * 100_000,
        5 => fraction * 10_000,
        6 => fraction * 1_000,
        7 => fraction * 100,
        8 => fraction * 10,
        _ => fraction,
    }
}

/// The nanodegrees of up to nine digits after a point; `None` leaves them to the reading in full.
fn decimals_of(after: &[u8]) -> Option<u64>
    ensures value { IfSome result (λ n.
        n ≡ digits_value 10 after.now * 10 ^ (9 - length after.now)) }
    ensures digits { IfSome result (λ _. list_all (λ c. is_digit c 10) after.now ≡ true) }
    ensures places { IfSome result (λ _. length after.now ≤ 9) }
    ensures size { IfSome result (λ n. n < 10 ^ 9) }
{
    let places = after.len();
    if places == 0 {
        return Some(0);
    }
    if places > 9 {
        return None;
    }
    let fraction = read_digits(after, places)?;
    Some(scaled(fraction, places))
}

/// The nanodegrees of short degrees, by the digits before and after their point; `None` leaves them
/// to the reading in full.
pub(crate) fn nanos_of(before: &[u8], after: &[u8]) -> Option<u64>
    ensures value { IfSome result (λ n.
        n ≡ digits_value 10 before.now * 10 ^ 9 +
        digits_value 10 after.now * 10 ^ (9 - length after.now)) }
    ensures before { IfSome result (λ _. are_digits 9 before.now ≡ true) }
    ensures after { IfSome result (λ _. list_all (λ c. is_digit c 10) after.now ≡ true) }
    ensures places { IfSome result (λ _. length after.now ≤ 9) }
    ensures size { IfSome result (λ n. n < 10 ^ 18) }
{
    let degrees = read_digits(before, 9)?;
    let decimals = decimals_of(after)?;
    Some(degrees * DEGREE + decimals)
}
