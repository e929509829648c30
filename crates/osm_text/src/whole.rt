//! Whole numbers as texts, as `-12`: an optional minus and digits, within 64 bits.
ghost use Rattle.std.specs.Prelude.{◌≡◌, ◌++◌, OnOk, OnErr};
ghost use Rattle.std.specs.Fmt.{signed_decimal};
ghost use Rattle.std.specs.Result.{result_ok};
ghost use Rattle.osm_text.specs.Numbers.{fitting, has_minus, unsigned_part, whole};

use crate::digits::size_of_digits;
use itoa::Buffer;
use osm_entity::{Bytes, NoMemory};

/// A text that is no number, or one that its place can't hold.
#[derive(Clone, Copy, Debug, PartialEq, Eq)]
pub struct BadNumber;

/// Whether the text begins with a minus, and the bytes after it.
fn split_minus(bytes: &[u8]) -> (bool, &[u8])
    ensures minus { result.0 ≡ has_minus bytes.now }
    ensures rest { result.1.now ≡ unsigned_part bytes.now }
{
    match bytes {
        [b'-', rest @ ..] => (true, rest),
        _ => (false, bytes),
    }
}

fn with_sign(minus: bool, size: u64) -> Result<i64, BadNumber>
    ensures { result_ok result ≡ fitting minus size }
{
    if size < 1 << 63 {
        return Ok(if minus { -(size as i64) } else { size as i64 });
    }
    if minus && size == 1 << 63 {
        Ok(i64::MIN)
    } else {
        Err(BadNumber)
    }
}

/// Reads a whole number, as `-12`: an optional minus and digits.
/// `BadNumber` exactly where the text is no such number or lies outside of 64 bits.
pub fn read_whole(bytes: &[u8]) -> Result<i64, BadNumber>
    ensures { result_ok result ≡ whole bytes.now }
{
    let (minus, digits) = split_minus(bytes);
    match size_of_digits(digits) {
        Some(size) => with_sign(minus, size),
        None => Err(BadNumber),
    }
}

/// Appends a whole number, as `-12`. At `Err` nothing is appended.
pub fn write_whole(out: &mut Bytes, n: i64) -> Result<(), NoMemory>
    ensures ok { OnOk result (out.new ≡ out.old ++ signed_decimal n) }
    ensures err { OnErr result (out.new ≡ out.old) }
{
    let mut buffer = Buffer::new();
    out.append(buffer.format(n).as_bytes())
}
