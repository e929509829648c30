//! Writes nanodegrees, of which there are 10^9 to a degree, as degrees: decimal numbers, as
//! `-0.1277`.
ghost use Rattle.std.specs.Prelude.{◌≡◌, ◌≤◌, ◌^◌, ◌++◌, pos, nat_abs, int_lt, [], length, take, codes, decimal, if◌then◌else◌, OnOk, OnErr};
ghost use Rattle.osm_text.specs.Numbers.{nano_text};

use crate::fraction::write_fraction;
use itoa::Buffer;
use osm_entity::{Bytes, NoMemory};

/// Nanodegrees to a degree.
pub(crate) const DEGREE: u64 = 1_000_000_000;

fn write_minus(out: &mut Bytes, n: i64) -> Result<(), NoMemory>
    ensures ok { OnOk result (out.new ≡ out.old ++ (if int_lt n (pos 0) then codes "-" else [])) }
    ensures err { OnErr result (out.new ≡ out.old) }
{
    if n < 0 {
        return out.append(b"-");
    }
    Ok(())
}

fn write_degrees(out: &mut Bytes, n: u64) -> Result<(), NoMemory>
    ensures ok { OnOk result (out.new ≡ out.old ++ decimal n) }
    ensures err { OnErr result (out.new ≡ out.old) }
{
    let mut buffer = Buffer::new();
    out.append(buffer.format(n).as_bytes())
}

/// Appends the parts of the text one by one. At `Err` some of them may stand at the end.
fn write_parts(out: &mut Bytes, n: i64) -> Result<(), NoMemory>
    ensures ok { OnOk result (out.new ≡ out.old ++ nano_text n) }
    ensures err { OnErr result (take (length out.old) out.new ≡ out.old) }
{
    let size = n.unsigned_abs();
    write_minus(out, n)?;
    write_degrees(out, size / DEGREE)?;
    write_fraction(out, size % DEGREE)
}

/// Appends nanodegrees, up to 10^18 in size, as degrees, as `-0.1277`: whole degrees, and after a
/// point as many digits as are needed. At `Err` nothing is appended.
pub fn write_nano(out: &mut Bytes, n: i64) -> Result<(), NoMemory>
    requires { nat_abs n ≤ 10 ^ 18 }
    ensures ok { OnOk result (out.new ≡ out.old ++ nano_text n) }
    ensures err { OnErr result (out.new ≡ out.old) }
{
    let length = out.len();
    let written = write_parts(out, n);
    if written.is_err() {
        out.truncate(length);
    }
    written
}
