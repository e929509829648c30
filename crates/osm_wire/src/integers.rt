//! Whole numbers as varints code them. A number of 32 bits is the low 32 bits of its varint, and a
//! signed one is coded as it is (`int32`, `int64`) or by zigzag (`sint32`, `sint64`).
ghost use Rattle.std.specs.Prelude.{◌≡◌};
ghost use Rattle.osm_wire.specs.Integers.{int32, int64, sint32, uint32, unzigzagged, zigzagged};

/// The zigzag code of a signed number: 0, -1, 1, -2 are 0, 1, 2, 3.
#[inline(always)]
pub fn zigzag(n: i64) -> u64
    ensures { result ≡ zigzagged n }
{
    if n >= 0 {
        2 * n as u64
    } else {
        2 * (-1 - n) as u64 + 1
    }
}

/// The signed number of a zigzag code: 0, 1, 2, 3 are 0, -1, 1, -2. It reads a sint64.
#[inline(always)]
pub fn unzigzag(n: u64) -> i64
    ensures { result ≡ unzigzagged n }
{
    let half = (n / 2) as i64;
    if n % 2 == 0 { half } else { -1 - half }
}

/// The uint32 of a varint: its low 32 bits.
#[inline(always)]
pub fn uint32(n: u64) -> u32
    ensures { result ≡ uint32 n }
{
    (n % (1 << 32)) as u32
}

/// The int32 of a varint: its low 32 bits, signed.
#[inline(always)]
pub fn int32(n: u64) -> i32
    ensures { result ≡ int32 n }
{
    uint32(n).cast_signed()
}

/// The int64 of a varint: its 64 bits, signed.
#[inline(always)]
pub fn int64(n: u64) -> i64
    ensures { result ≡ int64 n }
{
    n.cast_signed()
}

/// The sint32 of a varint: its low 32 bits by zigzag.
#[inline(always)]
pub fn sint32(n: u64) -> i32
    ensures { result ≡ sint32 n }
{
    let code = uint32(n);
    let half = (code / 2) as i32;
    if code % 2 == 0 { half } else { -1 - half }
}
