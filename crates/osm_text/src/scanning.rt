//! Finds the first byte that passes a test: sixteen bytes at a time, or eight, or four. The last look
//! may overlap the one before.
ghost use Rattle.std.specs.Prelude.{◌≡◌, ◌≤◌, ◌<◌, ◌+◌, ◌==◌, ℕ, Bool, false, if◌then◌else◌, drop, length, slice_index, take};
ghost use Rattle.std.specs.Int.{trailing_zeros, w64};
ghost use Rattle.std.specs.List.{position, position_or_len};
ghost use Rattle.osm_text.specs.Scanning.{is_one_of_two};

use std::simd::prelude::*;

const LANES: usize = 16;

const HALF_LANES: usize = 8;

const FEW_LANES: usize = 4;

/// A test of bytes, many at once. Each run counts the bytes from `at` on before the first that
/// passes, of as many bytes as its name says.
pub(crate) trait ByteTest {
    /// Whether a byte passes.
    ghost passes: { Self → ℕ → Bool };

    fn run_of_16(&self, bytes: &[u8], at: usize) -> usize
        requires { at + 16 ≤ length bytes.now }
        ensures { result ≡ position_or_len (passes self.now) (take 16 (drop at bytes.now)) };

    fn run_of_8(&self, bytes: &[u8], at: usize) -> usize
        requires { at + 8 ≤ length bytes.now }
        ensures { result ≡ position_or_len (passes self.now) (take 8 (drop at bytes.now)) };

    fn run_of_4(&self, bytes: &[u8], at: usize) -> usize
        requires { at + 4 ≤ length bytes.now }
        ensures { result ≡ position_or_len (passes self.now) (take 4 (drop at bytes.now)) };

    fn passes(&self, byte: u8) -> bool
        ensures { result ≡ passes self.now byte };
}

/// The place of the lowest bit that is set, and `lanes` where none is.
#[inline(always)]
pub(crate) fn first_set(mask: u64, lanes: usize) -> usize
    ensures { result ≡ (if mask == 0 then lanes else trailing_zeros w64 mask) }
{
    if mask == 0 {
        lanes
    } else {
        mask.trailing_zeros() as usize
    }
}

/// The position of the first byte that passes, counted from 0; `None` where none does.
#[inline(always)]
pub(crate) fn first_position<T: ByteTest>(test: &T, bytes: &[u8]) -> Option<usize>
    ensures { result ≡ position (T.passes test.now) bytes.now }
{
    let mut at = 0;
    while bytes.len() - at >= LANES {
        let run = test.run_of_16(bytes, at);
        if run < LANES {
            return Some(at + run);
        }
        at += LANES;
    }
    position_in_last(test, bytes, at)
}

/// The same, where fewer than sixteen bytes are left from `at` on, and none passes before.
fn position_in_last<T: ByteTest>(test: &T, bytes: &[u8], at: usize) -> Option<usize>
    requires within { at ≤ length bytes.now }
    requires few { length bytes.now < at + 16 }
    requires none { (k : ℕ) → k < at → T.passes test.now (slice_index bytes.now k) ≡ false }
    ensures { result ≡ position (T.passes test.now) bytes.now }
{
    if at == bytes.len() {
        return None;
    }
    if bytes.len() < LANES {
        return position_in_short(test, bytes);
    }
    let last = bytes.len() - LANES;
    let run = test.run_of_16(bytes, last);
    if run < LANES { Some(last + run) } else { None }
}

/// The same of fewer than sixteen bytes.
fn position_in_short<T: ByteTest>(test: &T, bytes: &[u8]) -> Option<usize>
    requires { length bytes.now < 16 }
    ensures { result ≡ position (T.passes test.now) bytes.now }
{
    if bytes.len() < HALF_LANES {
        return position_in_few(test, bytes);
    }
    let run = test.run_of_8(bytes, 0);
    if run < HALF_LANES {
        return Some(run);
    }
    let last = bytes.len() - HALF_LANES;
    let run = test.run_of_8(bytes, last);
    if run < HALF_LANES {
        Some(last + run)
    } else {
        None
    }
}

/// The same of fewer than eight bytes.
fn position_in_few<T: ByteTest>(test: &T, bytes: &[u8]) -> Option<usize>
    requires { length bytes.now < 8 }
    ensures { result ≡ position (T.passes test.now) bytes.now }
{
    if bytes.len() < FEW_LANES {
        return bytes.iter().position(|byte| test.passes(*byte));
    }
    let run = test.run_of_4(bytes, 0);
    if run < FEW_LANES {
        return Some(run);
    }
    let last = bytes.len() - FEW_LANES;
    let run = test.run_of_4(bytes, last);
    if run < FEW_LANES {
        Some(last + run)
    } else {
        None
    }
}

/// Whether a byte is one of two.
#[derive(Clone, Copy)]
struct OneOfTwo {
    one: u8,
    other: u8,
}

impl ByteTest for OneOfTwo {
    ghost passes = { λ t. is_one_of_two t.one t.other };

    #[inline(always)]
    fn run_of_16(&self, bytes: &[u8], at: usize) -> usize {
        let lanes = u8x16::from_slice(&bytes[at..]);
        let marks = lanes.simd_eq(u8x16::splat(self.one)) | lanes.simd_eq(u8x16::splat(self.other));
        first_set(marks.to_bitmask(), LANES)
    }

    #[inline(always)]
    fn run_of_8(&self, bytes: &[u8], at: usize) -> usize {
        let lanes = u8x8::from_slice(&bytes[at..]);
        let marks = lanes.simd_eq(u8x8::splat(self.one)) | lanes.simd_eq(u8x8::splat(self.other));
        first_set(marks.to_bitmask(), HALF_LANES)
    }

    #[inline(always)]
    fn run_of_4(&self, bytes: &[u8], at: usize) -> usize {
        let lanes = u8x4::from_slice(&bytes[at..]);
        let marks = lanes.simd_eq(u8x4::splat(self.one)) | lanes.simd_eq(u8x4::splat(self.other));
        first_set(marks.to_bitmask(), FEW_LANES)
    }

    #[inline(always)]
    fn passes(&self, byte: u8) -> bool {
        byte == self.one || byte == self.other
    }
}

/// The position of the first byte that is one of the two, counted from 0; `None` where neither is
/// there.
#[inline(always)]
pub fn position_of_either(bytes: &[u8], one: u8, other: u8) -> Option<usize>
    ensures { result ≡ position (is_one_of_two one other) bytes.now }
{
    first_position(&OneOfTwo { one, other }, bytes)
}

/// The position of the first `byte`, counted from 0; `None` where it isn't there.
#[inline(always)]
pub fn position_of(bytes: &[u8], byte: u8) -> Option<usize>
    ensures { result ≡ position (λ b. b == byte) bytes.now }
{
    position_of_either(bytes, byte, byte)
}
