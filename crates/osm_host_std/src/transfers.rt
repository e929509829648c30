//! Reads and writes of a file, tried again where a signal interrupts them.
ghost use Rattle.std.specs.Prelude.{◌≡◌, ◌<◌, ◌≤◌, length, take, IfOk, OnOk, OnErr};
ghost use Rattle.std.specs.Io.KnownBytes.{Appends, Consumes, IsAtEnd, Keeps};
ghost use Rattle.osm_host_std.specs.Written.{AppendsPrefix};

use osm_host::Failed;
use std::io::{ErrorKind, Read, Write};

// How often in a row a call may be interrupted before it counts as failed.
const TRIES: u32 = 1000;

/// One read that isn't interrupted. `Ok(0)` is the end of the file. At `Err` nothing was read.
pub(crate) fn read_some<F: Read>(file: &mut F, buf: &mut [u8]) -> Result<usize, Failed>
    requires { 0 < length buf.old }
    ensures fits { IfOk result (λ n. n ≤ length buf.new) }
    ensures ok { IfOk result (λ n.
        Consumes (F.remaining file.old) (F.remaining file.new) (take n buf.new)) }
    ensures end { IfOk result (λ n. n ≡ 0 → IsAtEnd (F.remaining file.new)) }
    ensures err { OnErr result (Keeps (F.remaining file.old) (F.remaining file.new)) }
{
    for _turn in 0..TRIES {
        match file.read(buf) {
            Ok(count) => return Ok(count),
            Err(error) => {
                if error.kind() != ErrorKind::Interrupted {
                    return Err(Failed);
                }
            }
        }
    }
    Err(Failed)
}

/// One write that isn't interrupted, of a prefix of the bytes. A write that takes none of them is a
/// fault: tried again, it might take none for ever.
fn write_some<F: Write>(file: &mut F, bytes: &[u8]) -> Result<usize, Failed>
    requires { 0 < length bytes.now }
    ensures fits { IfOk result (λ n. n ≤ length bytes.now) }
    ensures some { IfOk result (λ n. 0 < n) }
    ensures ok { IfOk result (λ n.
        Appends (F.contents file.old) (F.contents file.new) (take n bytes.now)) }
    ensures err { OnErr result (Keeps (F.contents file.old) (F.contents file.new)) }
{
    for _turn in 0..TRIES {
        match file.write(bytes) {
            Ok(0) => return Err(Failed),
            Ok(count) => return Ok(count),
            Err(error) => {
                if error.kind() != ErrorKind::Interrupted {
                    return Err(Failed);
                }
            }
        }
    }
    Err(Failed)
}

/// Writes the bytes whole. At `Err` the file took a prefix of them.
pub(crate) fn write_whole<F: Write>(file: &mut F, bytes: &[u8]) -> Result<(), Failed>
    ensures ok { OnOk result (Appends (F.contents file.old) (F.contents file.new) bytes.now) }
    ensures err { OnErr result
        (AppendsPrefix (F.contents file.old) (F.contents file.new) bytes.now) }
{
    let mut rest = bytes;
    while !rest.is_empty() {
        let count = write_some(file, rest)?;
        rest = &rest[count..];
    }
    Ok(())
}
