//! What follows the whole degrees of a written number: a point and digits, or nothing.
ghost use Rattle.std.specs.Prelude.{◌≡◌, ◌<◌, ◌++◌, ◌-◌, ◌^◌, ◌∷◌, ◌==◌, OnOk, OnErr, length};
ghost use Rattle.std.specs.List.{suffix_len};
ghost use Rattle.osm_text.specs.Numbers.{fraction_text, nine_digits};

use osm_entity::{Bytes, NoMemory};

/// How many digits there are without the zeros at their end.
fn trimmed_length(digits: &[u8]) -> usize
    ensures { result ≡ length digits.now - suffix_len (λ c. c == 48) digits.now }
{
    let mut count = digits.len();
    while count > 0 && digits[count - 1] == b'0' {
        count -= 1;
    }
    count
}

/// A point and a number in nine digits.
fn pointed_digits(n: u64) -> [u8; 10]
    requires { n < 10 ^ 9 }
    ensures { result ≡ 46 ∷ nine_digits n }
{
    let mut text = *b".000000000";
    itoa::write_digits(n, &mut text, 10);
    text
}

/// Appends nothing for 0, else a point and the digits of that many nanodegrees. At `Err` nothing
/// is appended.
pub(crate) fn write_fraction(out: &mut Bytes, n: u64) -> Result<(), NoMemory>
    requires { n < 10 ^ 9 }
    ensures ok { OnOk result (out.new ≡ out.old ++ fraction_text n) }
    ensures err { OnErr result (out.new ≡ out.old) }
{
    if n == 0 {
        return Ok(());
    }
    let text = pointed_digits(n);
    let places = trimmed_length(&text[1..]);
    out.append(&text[..places + 1])
}
