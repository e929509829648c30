//! Cuts bytes in two at the first of a byte, as a line at its first space.
ghost use Rattle.std.specs.Prelude.{◌≡◌, ◌<◌, ◌==◌, ◌∷◌, [], length, IfNone, IfSome};
ghost use Rattle.std.specs.List.{position, slice_split};

use crate::scanning::position_of;

/// The bytes before the first `byte` and those after it; `None` where it isn't there.
pub fn first_part(bytes: &[u8], byte: u8) -> Option<(&[u8], &[u8])>
    ensures none { IfNone result (slice_split (λ b. b == byte) bytes.now ≡ bytes.now ∷ []) }
    ensures some { IfSome result (λ p.
        slice_split (λ b. b == byte) bytes.now ≡ p.0.now ∷ slice_split (λ b. b == byte) p.1.now) }
    ensures shorter { IfSome result (λ p. length p.1.now < length bytes.now) }
{
    match position_of(bytes, byte) {
        Some(at) => Some((&bytes[..at], &bytes[at + 1..])),
        None => None,
    }
}
