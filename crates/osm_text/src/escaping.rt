//! Writes escaped texts, as `50%25%`: a reserved byte as its code point in hexadecimal digits
//! between two `%`, as the OPL file format manual says. Each reserved byte is ASCII.
ghost use Rattle.std.specs.Prelude.{◌≡◌, ◌<◌, ◌++◌, false, IfNone, IfSome, OnOk, OnErr, length, take};
ghost use Rattle.std.specs.Fmt.{digit_glyph};
ghost use Rattle.std.specs.List.{position};
ghost use Rattle.osm_text.specs.Escapes.{escaped, hex_escape, is_reserved};

use crate::scanning::{ByteTest, first_position, first_set};
use osm_entity::{Bytes, NoMemory, Text};
use std::simd::prelude::*;

/// Whether a byte is written as an escape.
#[derive(Clone, Copy)]
struct Reserved;

impl ByteTest for Reserved {
    ghost passes = { λ _. is_reserved };

    #[inline(always)]
    fn run_of_16(&self, bytes: &[u8], at: usize) -> usize {
        let lanes = u8x16::from_slice(&bytes[at..]);
        let low = lanes.simd_le(u8x16::splat(b' '));
        let percent = low | lanes.simd_eq(u8x16::splat(b'%'));
        let comma = percent | lanes.simd_eq(u8x16::splat(b','));
        let equals = comma | lanes.simd_eq(u8x16::splat(b'='));
        let at_sign = equals | lanes.simd_eq(u8x16::splat(b'@'));
        first_set(
            (at_sign | lanes.simd_eq(u8x16::splat(127))).to_bitmask(),
            16,
        )
    }

    #[inline(always)]
    fn run_of_8(&self, bytes: &[u8], at: usize) -> usize {
        let lanes = u8x8::from_slice(&bytes[at..]);
        let low = lanes.simd_le(u8x8::splat(b' '));
        let percent = low | lanes.simd_eq(u8x8::splat(b'%'));
        let comma = percent | lanes.simd_eq(u8x8::splat(b','));
        let equals = comma | lanes.simd_eq(u8x8::splat(b'='));
        let at_sign = equals | lanes.simd_eq(u8x8::splat(b'@'));
        first_set((at_sign | lanes.simd_eq(u8x8::splat(127))).to_bitmask(), 8)
    }

    #[inline(always)]
    fn run_of_4(&self, bytes: &[u8], at: usize) -> usize {
        let lanes = u8x4::from_slice(&bytes[at..]);
        let low = lanes.simd_le(u8x4::splat(b' '));
        let percent = low | lanes.simd_eq(u8x4::splat(b'%'));
        let comma = percent | lanes.simd_eq(u8x4::splat(b','));
        let equals = comma | lanes.simd_eq(u8x4::splat(b'='));
        let at_sign = equals | lanes.simd_eq(u8x4::splat(b'@'));
        first_set((at_sign | lanes.simd_eq(u8x4::splat(127))).to_bitmask(), 4)
    }

    fn passes(&self, byte: u8) -> bool {
        byte <= b' ' || matches!(byte, b'%' | b',' | b'=' | b'@' | 127)
    }
}

/// The position of the first reserved byte, counted from 0; `None` where there is none.
fn position_of_reserved(bytes: &[u8]) -> Option<usize>
    ensures { result ≡ position is_reserved bytes.now }
{
    first_position(&Reserved, bytes)
}

/// The bytes before the first reserved one, it, and those after it; `None` where there is none.
fn plain_part(bytes: &[u8]) -> Option<(&[u8], u8, &[u8])>
    ensures none { IfNone result (escaped bytes.now ≡ bytes.now) }
    ensures some { IfSome result (λ p.
        escaped bytes.now ≡ p.0.now ++ hex_escape p.1 ++ escaped p.2.now) }
    ensures shorter { IfSome result (λ p. length p.2.now < length bytes.now) }
{
    match position_of_reserved(bytes) {
        Some(at) => Some((&bytes[..at], bytes[at], &bytes[at + 1..])),
        None => None,
    }
}

fn hex_digit(n: u8) -> u8
    requires { n < 16 }
    ensures { result ≡ digit_glyph false n }
{
    if n < 10 { b'0' + n } else { b'a' + (n - 10) }
}

/// Appends the code point of a byte between two `%`. At `Err` nothing is appended.
fn push_escape(out: &mut Bytes, byte: u8) -> Result<(), NoMemory>
    ensures ok { OnOk result (out.new ≡ out.old ++ hex_escape byte) }
    ensures err { OnErr result (out.new ≡ out.old) }
{
    if byte < 16 {
        return out.append(&[b'%', hex_digit(byte), b'%']);
    }
    out.append(&[b'%', hex_digit(byte / 16), hex_digit(byte % 16), b'%'])
}

/// Appends the parts of the escaped bytes one by one. At `Err` some of them may stand at the end.
fn push_parts(out: &mut Bytes, bytes: &[u8]) -> Result<(), NoMemory>
    ensures ok { OnOk result (out.new ≡ out.old ++ escaped bytes.now) }
    ensures err { OnErr result (take (length out.old) out.new ≡ out.old) }
{
    let mut rest = bytes;
    while let Some((plain, reserved, more)) = plain_part(rest) {
        out.append(plain)?;
        push_escape(out, reserved)?;
        rest = more;
    }
    out.append(rest)
}

/// Appends the text in its escaped form. At `Err` nothing is appended.
pub fn escape(out: &mut Bytes, text: &Text) -> Result<(), NoMemory>
    ensures ok { OnOk result (out.new ≡ out.old ++ escaped text.now) }
    ensures err { OnErr result (out.new ≡ out.old) }
{
    let length = out.len();
    let written = push_parts(out, text.as_slice());
    if written.is_err() {
        out.truncate(length);
    }
    written
}
