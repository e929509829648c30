//! Varints: numbers of up to 64 bits in one to ten bytes, seven bits a byte, the lowest first. The
//! high bit of each byte but the last is set.
ghost use Rattle.std.specs.Prelude.{◌≡◌, ◌<◌, ◌≤◌, ◌+◌, ◌^◌, None, IfOk, drop, length, take};
ghost use Rattle.std.specs.List.{position};
ghost use Rattle.osm_wire.specs.Varints.{leading_number, is_last_byte, varint_value};

use crate::error::WireError;

/// The number of the varint that begins at `at`, and how many bytes it takes; more bytes than needed
/// are accepted. `Short` where the bytes end within it, `Overlong` where it has more than ten bytes
/// or a tenth above 1.
#[inline(always)]
pub fn varint(bytes: &[u8], at: usize) -> Result<(u64, usize), WireError>
    requires { at ≤ length bytes.now }
    ensures value { result ≡ leading_number (drop at bytes.now) }
    ensures within { IfOk result (λ p. (0 < p.1) × (at + p.1 ≤ length bytes.now)) }
{
    packed_varint(&bytes[at..])
}

// The number of the varint at the beginning, and how many bytes it takes. Packed numbers are mostly
// read by it.
#[inline(always)]
fn packed_varint(bytes: &[u8]) -> Result<(u64, usize), WireError>
    ensures value { result ≡ leading_number bytes.now }
    ensures within { IfOk result (λ p. (0 < p.1) × (p.1 ≤ length bytes.now)) }
{
    match bytes {
        [byte, ..] if *byte < 128 => Ok((*byte as u64, 1)),
        _ => near_varint(bytes),
    }
}

/// The same, for the varints of fields, which are mostly of one byte.
#[inline(always)]
pub(crate) fn first_varint(bytes: &[u8]) -> Result<(u64, usize), WireError>
    ensures value { result ≡ leading_number bytes.now }
    ensures within { IfOk result (λ p. (0 < p.1) × (p.1 ≤ length bytes.now)) }
{
    match bytes {
        [byte, ..] if *byte < 128 => Ok((*byte as u64, 1)),
        _ => long_varint(bytes),
    }
}

// The same, where the first byte isn't the last.
fn long_varint(bytes: &[u8]) -> Result<(u64, usize), WireError>
    requires { position is_last_byte (take 1 bytes.now) ≡ None }
    ensures value { result ≡ leading_number bytes.now }
    ensures within { IfOk result (λ p. (0 < p.1) × (p.1 ≤ length bytes.now)) }
{
    near_varint(bytes)
}

// The same, without a loop where there are two to five bytes.
#[inline(always)]
fn near_varint(bytes: &[u8]) -> Result<(u64, usize), WireError>
    requires { position is_last_byte (take 1 bytes.now) ≡ None }
    ensures value { result ≡ leading_number bytes.now }
    ensures within { IfOk result (λ p. (0 < p.1) × (p.1 ≤ length bytes.now)) }
{
    let [first, second, third, fourth, fifth, ..] = bytes else {
        return far_varint(bytes);
    };
    let number = (*first % 128) as u64 + (*second % 128) as u64 * (1 << 7);
    if *second < 128 {
        return Ok((number, 2));
    }
    let number = number + (*third % 128) as u64 * (1 << 14);
    if *third < 128 {
        return Ok((number, 3));
    }
    let number = number + (*fourth % 128) as u64 * (1 << 21);
    if *fourth < 128 {
        return Ok((number, 4));
    }
    let number = number + (*fifth % 128) as u64 * (1 << 28);
    if *fifth < 128 {
        return Ok((number, 5));
    }
    far_varint(bytes)
}

// The same of any bytes, byte by byte up to the ninth.
#[inline(never)]
fn far_varint(bytes: &[u8]) -> Result<(u64, usize), WireError>
    ensures value { result ≡ leading_number bytes.now }
    ensures within { IfOk result (λ p. (0 < p.1) × (p.1 ≤ length bytes.now)) }
{
    let near = bytes.len().min(9);
    let mut number = 0;
    for size in 0..near {
        let byte = bytes[size];
        number += ((byte % 128) as u64) << (7 * size);
        if byte < 128 {
            return Ok((number, size + 1));
        }
    }
    longest_varint(bytes, number)
}

// The same, where the first nine bytes, or all, go on, and make this number.
fn longest_varint(bytes: &[u8], number: u64) -> Result<(u64, usize), WireError>
    requires high { position is_last_byte (take 9 bytes.now) ≡ None }
    requires number { number ≡ varint_value (take 9 bytes.now) }
    requires fits { number < 2 ^ 63 }
    ensures value { result ≡ leading_number bytes.now }
    ensures within { IfOk result (λ p. (0 < p.1) × (p.1 ≤ length bytes.now)) }
{
    if bytes.len() < 10 {
        return Err(WireError::Short);
    }
    match bytes[9] {
        0 => Ok((number, 10)),
        1 => Ok((number + (1 << 63), 10)),
        _ => Err(WireError::Overlong),
    }
}
