//! Reads nano numbers: degrees as texts with a sign, a point and an exponent, as `-1.277E-1`.
ghost use Rattle.std.specs.Prelude.{◌≡◌, ◌<◌, ◌≤◌, ◌+◌, ◌*◌, ◌/◌, ◌^◌, ◌++◌, length, drop, IfNone, IfSome, true, false, if◌then◌else◌, None, Some};
ghost use Rattle.std.specs.Char.{digit_value, is_digit};
ghost use Rattle.std.specs.List.{list_all, position, position_or_len};
ghost use Rattle.std.specs.Result.{result_ok};
ghost use Rattle.std.specs.Str.Parse.{digits_value, digits_value_after};
ghost use Rattle.osm_text.specs.Numbers.{are_digits, has_minus, signed};
ghost use Rattle.osm_text.specs.Nano.{is_exponent, is_letter, is_point, limited, moved, nano, nano_moved, nano_size, places_left, places_right, without_sign};

use crate::digits::read_digits;
use crate::short::nanos_of;
use crate::whole::BadNumber;

/// The largest size, in nanodegrees: 10^9 degrees.
const LIMIT: u128 = 1_000_000_000_000_000_000;

/// The most digits, with those after the point.
const MOST_DIGITS: usize = 38;

/// Whether the text begins with a minus, and the bytes after its sign.
fn split_sign(bytes: &[u8]) -> (bool, &[u8])
    ensures minus { result.0 ≡ has_minus bytes.now }
    ensures rest { result.1.now ≡ without_sign bytes.now }
{
    match bytes {
        [b'-', rest @ ..] => (true, rest),
        [b'+', rest @ ..] => (false, rest),
        _ => (false, bytes),
    }
}

fn digit_of(byte: u8) -> Option<u128>
    ensures size { IfSome result (λ d. d < 10) }
    ensures value { result ≡ (if is_digit byte 10 then Some (digit_value byte) else None) }
{
    if byte.is_ascii_digit() {
        Some(u128::from(byte - b'0'))
    } else {
        None
    }
}

/// The number whose digits are those of `number`, `seen` at most, and then these; `None` where a
/// byte is no digit.
fn read_on(number: u128, seen: usize, bytes: &[u8]) -> Option<u128>
    requires number { number < 10 ^ seen }
    requires fits { seen + length bytes.now ≤ 38 }
    ensures value { result ≡ (
        if list_all (λ c. is_digit c 10) bytes.now
        then Some (digits_value_after 10 number bytes.now) else None) }
    ensures size { IfSome result (λ n. n < 10 ^ (seen + length bytes.now)) }
{
    let mut total = number;
    for byte in bytes {
        match digit_of(*byte) {
            Some(digit) => total = total * 10 + digit,
            None => return None,
        }
    }
    Some(total)
}

/// The number that the digits before and after a point write together.
fn read_joined(before: &[u8], after: &[u8]) -> Option<u128>
    ensures value { result ≡ (
        if are_digits 38 (before.now ++ after.now)
        then Some (digits_value 10 (before.now ++ after.now)) else None) }
    ensures size { IfSome result (λ n. n < 10 ^ 38) }
    ensures places { IfSome result (λ _. length after.now ≤ 38) }
{
    let digits = before.len() + after.len();
    if digits == 0 {
        return None;
    }
    if digits > MOST_DIGITS {
        return None;
    }
    let leading = read_on(0, 0, before)?;
    read_on(leading, before.len(), after)
}

fn limit(size: u128) -> Option<u64>
    ensures value { result ≡ limited size }
    ensures size { IfSome result (λ n. n ≤ 10 ^ 18) }
{
    if size > LIMIT {
        return None;
    }
    Some(size as u64)
}

/// The number times a power of ten. Past the 18th all but 0 is too large.
fn times(number: u128, tens: u32) -> Option<u64>
    ensures value { result ≡ limited (number * 10 ^ tens) }
    ensures size { IfSome result (λ n. n ≤ 10 ^ 18) }
{
    if number == 0 {
        return Some(0);
    }
    if tens > 18 {
        return None;
    }
    if number > LIMIT {
        return None;
    }
    let scale = 10_u128.pow(tens);
    limit(number * scale)
}

/// The number divided by a power of ten. Past the 37th nothing is left of it.
fn parts(number: u128, tens: u32) -> Option<u64>
    requires { number < 10 ^ 38 }
    ensures value { result ≡ limited (number / 10 ^ tens) }
    ensures size { IfSome result (λ n. n ≤ 10 ^ 18) }
{
    if tens >= 38 {
        return Some(0);
    }
    let scale = 10_u128.pow(tens);
    limit(number / scale)
}

/// The number, times the tens of `up` and divided by those of `down`.
fn shifted(number: u128, up: u32, down: u32) -> Option<u64>
    requires { number < 10 ^ 38 }
    ensures value { result ≡ limited (number * 10 ^ up / 10 ^ down) }
    ensures size { IfSome result (λ n. n ≤ 10 ^ 18) }
{
    if up >= down {
        times(number, up - down)
    } else {
        parts(number, down - up)
    }
}

/// The size of digits around a point, with the point moved.
fn size_of_parts(before: &[u8], after: &[u8], right: u32, left: u32) -> Option<u64>
    requires right { right < 10 ^ 4 }
    requires left { left < 10 ^ 4 }
    ensures value { result ≡ (
        if are_digits 38 (before.now ++ after.now)
        then limited (moved before.now after.now right left) else None) }
    ensures size { IfSome result (λ n. n ≤ 10 ^ 18) }
{
    let number = read_joined(before, after)?;
    shifted(number, 9 + right, after.len() as u32 + left)
}

fn find_point(bytes: &[u8]) -> Option<usize>
    ensures { result ≡ position is_point bytes.now }
{
    bytes.iter().position(|byte| *byte == b'.')
}

fn find_letter(bytes: &[u8]) -> Option<usize>
    ensures { result ≡ position is_letter bytes.now }
{
    bytes.iter().position(|byte| *byte == b'e' || *byte == b'E')
}

fn position_of_point(bytes: &[u8]) -> usize
    ensures value { result ≡ position_or_len is_point bytes.now }
    ensures within { result ≤ length bytes.now }
{
    find_point(bytes).unwrap_or(bytes.len())
}

fn position_of_letter(bytes: &[u8]) -> usize
    ensures value { result ≡ position_or_len is_letter bytes.now }
    ensures within { result ≤ length bytes.now }
{
    find_letter(bytes).unwrap_or(bytes.len())
}

/// The bytes after a position; none after the last.
fn after_position(bytes: &[u8], at: usize) -> &[u8]
    requires { at ≤ length bytes.now }
    ensures { result.now ≡ drop (at + 1) bytes.now }
{
    if at == bytes.len() {
        return &bytes[at..];
    }
    &bytes[at + 1..]
}

/// The size of digits around an optional point, with the point moved.
fn size_of_moved(number: &[u8], right: u32, left: u32) -> Option<u64>
    requires right { right < 10 ^ 4 }
    requires left { left < 10 ^ 4 }
    ensures value { result ≡ nano_moved number.now right left }
    ensures size { IfSome result (λ n. n ≤ 10 ^ 18) }
{
    let at = position_of_point(number);
    size_of_parts(&number[..at], after_position(number, at), right, left)
}

/// The places that an exponent moves the point to the right, and to the left.
fn read_exponent(text: &[u8]) -> Option<(u32, u32)>
    ensures none { IfNone result (is_exponent text.now ≡ false) }
    ensures some { IfSome result (λ _. is_exponent text.now ≡ true) }
    ensures right { IfSome result (λ p. p.0 ≡ places_right text.now) }
    ensures left { IfSome result (λ p. p.1 ≡ places_left text.now) }
    ensures size { IfSome result (λ p. p.0 + p.1 < 10 ^ 4) }
{
    let (minus, digits) = split_sign(text);
    let places = read_digits(digits, 4)? as u32;
    if minus {
        Some((0, places))
    } else {
        Some((places, 0))
    }
}

/// The size of short degrees; `None` leaves it to the reading in full.
fn size_of_short(unsigned: &[u8]) -> Option<u64>
    ensures value { IfSome result (λ n. Some n ≡ nano_size unsigned.now) }
    ensures size { IfSome result (λ n. n ≤ 10 ^ 18) }
{
    let at = position_of_point(unsigned);
    nanos_of(&unsigned[..at], after_position(unsigned, at))
}

/// The size of a number with or without an exponent.
fn size_in_full(unsigned: &[u8]) -> Option<u64>
    ensures value { result ≡ nano_size unsigned.now }
    ensures size { IfSome result (λ n. n ≤ 10 ^ 18) }
{
    let at = position_of_letter(unsigned);
    if at == unsigned.len() {
        return size_of_moved(unsigned, 0, 0);
    }
    let (right, left) = read_exponent(after_position(unsigned, at))?;
    size_of_moved(&unsigned[..at], right, left)
}

/// The size of a number without its sign.
fn size_of_nano(unsigned: &[u8]) -> Option<u64>
    ensures value { result ≡ nano_size unsigned.now }
    ensures size { IfSome result (λ n. n ≤ 10 ^ 18) }
{
    // Nearly all texts are short degrees, which need no division.
    match size_of_short(unsigned) {
        Some(size) => Some(size),
        None => size_in_full(unsigned),
    }
}

fn with_sign(minus: bool, size: u64) -> i64
    requires { size ≤ 10 ^ 18 }
    ensures { result ≡ signed minus size }
{
    if minus { -(size as i64) } else { size as i64 }
}

/// Reads degrees, as `-0.1277` or `-1.277E-1`, and gives nanodegrees, cut toward 0: an optional
/// sign, up to 38 digits around an optional point, and an optional exponent of up to four digits.
/// `BadNumber` exactly where the text is no such number or its size is above 10^18.
pub fn read_nano(bytes: &[u8]) -> Result<i64, BadNumber>
    ensures { result_ok result ≡ nano bytes.now }
{
    let (minus, unsigned) = split_sign(bytes);
    match size_of_nano(unsigned) {
        Some(size) => Ok(with_sign(minus, size)),
        None => Err(BadNumber),
    }
}
