//! Varints, put at the end of bytes at once where they are short enough, as nearly all of a column
//! are.
ghost use Rattle.std.specs.Prelude.{◌≡◌, ◌<◌, ◌+◌, ◌%◌, ◌++◌, OnOk, OnErr};
ghost use Rattle.osm_wire.specs.Written.{shortest_varint};

use osm_entity::{Bytes, NoMemory};
use osm_wire::put_varint;

/// Appends the shortest varint of a number. At `Err` nothing is appended.
#[inline(always)]
pub(crate) fn append_varint(out: &mut Bytes, n: u64) -> Result<(), NoMemory>
    ensures ok { OnOk result (out.new ≡ out.old ++ shortest_varint n) }
    ensures err { OnErr result (out.new ≡ out.old) }
{
    if n < 128 {
        return out.push(n as u8);
    }
    let second = n / 128;
    if second < 128 {
        return out.append(&[leading(n), second as u8]);
    }
    let third = second / 128;
    if third < 128 {
        return out.append(&[leading(n), leading(second), third as u8]);
    }
    let fourth = third / 128;
    if fourth < 128 {
        return out.append(&[leading(n), leading(second), leading(third), fourth as u8]);
    }
    let fifth = fourth / 128;
    if fifth < 128 {
        return out.append(&[
            leading(n),
            leading(second),
            leading(third),
            leading(fourth),
            fifth as u8,
        ]);
    }
    put_varint(out, n)
}

// The byte of a number's low seven bits, where more bytes follow.
fn leading(n: u64) -> u8
    ensures { result ≡ n % 128 + 128 }
{
    (n % 128) as u8 + 128
}
