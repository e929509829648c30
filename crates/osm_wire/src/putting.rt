//! Appends fields in their shortest spelling.
ghost use Rattle.std.specs.Prelude.{◌≡◌, ◌≤◌, ◌<◌, ◌^◌, ◌++◌, length, take, OnErr, OnOk};
ghost use Rattle.osm_wire.specs.Messages.{Bytes as BytesOf, IsFieldNumber, Varint};
ghost use Rattle.osm_wire.specs.Written.{shortest_varint, written_field};

use osm_entity::{Bytes, NoMemory};

/// Appends the shortest varint of a number. At `Err` nothing is appended.
pub fn put_varint(out: &mut Bytes, n: u64) -> Result<(), NoMemory>
    ensures ok { OnOk result (out.new ≡ out.old ++ shortest_varint n) }
    ensures err { OnErr result (out.new ≡ out.old) }
{
    if n < 128 {
        return out.push(n as u8);
    }
    put_long(out, n)
}

/// Appends a field of this number that holds bytes. At `Err` nothing is appended.
pub fn put_bytes(out: &mut Bytes, number: u32, bytes: &[u8]) -> Result<(), NoMemory>
    requires { IsFieldNumber number }
    ensures ok { OnOk result (out.new ≡ out.old
        ++ written_field (record { number = number; value = BytesOf bytes.now })) }
    ensures err { OnErr result (out.new ≡ out.old) }
{
    let length = out.len();
    let written = put_bytes_by_parts(out, number, bytes);
    if written.is_err() {
        out.truncate(length);
    }
    written
}

/// Appends a field of this number that holds a number. At `Err` nothing is appended.
pub fn put_number(out: &mut Bytes, number: u32, n: u64) -> Result<(), NoMemory>
    requires { IsFieldNumber number }
    ensures ok { OnOk result (out.new ≡ out.old
        ++ written_field (record { number = number; value = Varint n })) }
    ensures err { OnErr result (out.new ≡ out.old) }
{
    let length = out.len();
    let written = put_number_by_parts(out, number, n);
    if written.is_err() {
        out.truncate(length);
    }
    written
}

// Appends the parts of the field one by one. At `Err` some of them may stand at the end.
fn put_bytes_by_parts(out: &mut Bytes, number: u32, bytes: &[u8]) -> Result<(), NoMemory>
    requires { IsFieldNumber number }
    ensures ok { OnOk result (out.new ≡ out.old
        ++ written_field (record { number = number; value = BytesOf bytes.now })) }
    ensures err { OnErr result (take (length out.old) out.new ≡ out.old) }
{
    put_varint(out, (number as u64) * 8 + 2)?;
    put_varint(out, bytes.len() as u64)?;
    out.append(bytes)
}

// Appends the parts of the field one by one. At `Err` some of them may stand at the end.
fn put_number_by_parts(out: &mut Bytes, number: u32, n: u64) -> Result<(), NoMemory>
    requires { IsFieldNumber number }
    ensures ok { OnOk result (out.new ≡ out.old
        ++ written_field (record { number = number; value = Varint n })) }
    ensures err { OnErr result (take (length out.old) out.new ≡ out.old) }
{
    put_varint(out, (number as u64) * 8)?;
    put_varint(out, n)
}

// Appends the varint of a number of any size.
fn put_long(out: &mut Bytes, n: u64) -> Result<(), NoMemory>
    ensures ok { OnOk result (out.new ≡ out.old ++ shortest_varint n) }
    ensures err { OnErr result (out.new ≡ out.old) }
{
    let mut bytes = [0; 10];
    let mut size = 0;
    let mut rest = n;
    while rest >= 128 {
        bytes[size] = (rest % 128) as u8 + 128;
        size += 1;
        rest /= 128;
    }
    bytes[size] = rest as u8;
    out.append(&bytes[..=size])
}
