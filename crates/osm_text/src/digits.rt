//! Digits, read from the left. Numbers past 64 bits are held as one number that is too large.
ghost use Rattle.std.specs.Prelude.{◌≡◌, ◌<◌, ◌≤◌, ◌+◌, ◌*◌, ◌^◌, ℕ, None, Some, IfSome, length, min, if◌then◌else◌};
ghost use Rattle.std.specs.Char.{digit_value, is_digit};
ghost use Rattle.std.specs.Str.Parse.{digits_value};
ghost use Rattle.osm_text.specs.Numbers.{are_digits};

/// Stands for every number that 64 bits with a sign can't hold: 2^63 + 1.
const TOO_LARGE: u64 = 9_223_372_036_854_775_809;

/// The most digits that can't pass 64 bits, whatever they are.
const MOST_PLAIN: usize = 18;

fn digit_of(byte: u8) -> Option<u64>
    ensures size { IfSome result (λ d. d < 10) }
    ensures value { result ≡ (if is_digit byte 10 then Some (digit_value byte) else None) }
{
    if byte.is_ascii_digit() {
        Some(u64::from(byte - b'0'))
    } else {
        None
    }
}

/// The size with one digit more at its end; past 2^63 it stays 2^63 + 1.
fn longer(size: u64, digit: u64) -> u64
    requires size { size ≤ 2 ^ 63 + 1 }
    requires digit { digit < 10 }
    ensures { (n : ℕ) → size ≡ min n (2 ^ 63 + 1) → result ≡ min (n * 10 + digit) (2 ^ 63 + 1) }
{
    if size > TOO_LARGE / 10 {
        TOO_LARGE
    } else {
        size * 10 + digit
    }
}

/// The number that up to 18 digits write; `None` where a byte is no digit, and for no bytes.
#[inline(always)]
fn size_of_few(bytes: &[u8]) -> Option<u64>
    requires { length bytes.now ≤ 18 }
    ensures { result ≡ (
        if are_digits 18 bytes.now then Some (digits_value 10 bytes.now) else None) }
{
    if bytes.is_empty() {
        return None;
    }
    let mut size = 0;
    for byte in bytes {
        match digit_of(*byte) {
            Some(digit) => size = size * 10 + digit,
            None => return None,
        }
    }
    Some(size)
}

/// The number that any digits write, and 2^63 + 1 for each that is larger; `None` where a byte is
/// no digit, and for no bytes.
#[inline(never)]
fn size_of_many(bytes: &[u8]) -> Option<u64>
    ensures { result ≡ (
        if are_digits (length bytes.now) bytes.now
        then Some (min (digits_value 10 bytes.now) (2 ^ 63 + 1)) else None) }
{
    if bytes.is_empty() {
        return None;
    }
    let mut size = 0;
    for byte in bytes {
        match digit_of(*byte) {
            Some(digit) => size = longer(size, digit),
            None => return None,
        }
    }
    Some(size)
}

/// The same; few digits, as nearly all numbers have, need no test of the size.
pub(crate) fn size_of_digits(bytes: &[u8]) -> Option<u64>
    ensures { result ≡ (
        if are_digits (length bytes.now) bytes.now
        then Some (min (digits_value 10 bytes.now) (2 ^ 63 + 1)) else None) }
{
    if bytes.len() > MOST_PLAIN {
        return size_of_many(bytes);
    }
    size_of_few(bytes)
}

/// The number that the digits write; `None` where a byte is no digit, for no bytes, and for more
/// than `most`.
pub(crate) fn read_digits(bytes: &[u8], most: usize) -> Option<u64>
    requires { most ≤ 18 }
    ensures value { result ≡ (
        if are_digits most bytes.now then Some (digits_value 10 bytes.now) else None) }
    ensures size { IfSome result (λ n. n < 10 ^ most) }
    ensures places { IfSome result (λ _. length bytes.now ≤ most) }
{
    if bytes.len() > most {
        return None;
    }
    size_of_few(bytes)
}
