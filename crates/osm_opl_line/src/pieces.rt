//! Parts a line at its spaces and tabs. A piece is never empty, so its first byte stands alone.
ghost use Rattle.std.specs.Prelude.{◌≡◌, ◌≤◌, ◌<◌, ◌+◌, ◌∷◌, [], ℕ, false, IfNone, IfSome, IsUtf8, length, slice_index};
ghost use Rattle.std.specs.List.{position};
ghost use Rattle.osm_opl_line.specs.Fields.{is_blank, pieces};

use osm_text::position_of_either;

/// The letter that begins the first piece, its content, and the bytes after it; `None` where there
/// is no piece.
#[inline(always)]
pub(crate) fn next_piece(bytes: &[u8]) -> Option<(u8, &[u8], &[u8])>
    ensures none { IfNone result (pieces bytes.now ≡ []) }
    ensures some { IfSome result (λ p. pieces bytes.now ≡ (p.0 ∷ p.1.now) ∷ pieces p.2.now) }
    ensures shorter { IfSome result (λ p. length p.1.now + length p.2.now < length bytes.now) }
    ensures utf8 { IfSome result (λ p.
        IsUtf8 bytes.now → p.0 < 128 → IsUtf8 p.1.now × IsUtf8 p.2.now) }
{
    match skip_blanks(bytes) {
        [letter, more @ ..] => {
            let (content, rest) = cut_at_blank(more);
            Some((*letter, content, rest))
        }
        [] => None,
    }
}

// The bytes from the first on that is no space or tab.
fn skip_blanks(bytes: &[u8]) -> &[u8]
    ensures same { pieces result.now ≡ pieces bytes.now }
    ensures begins { is_blank (slice_index result.now 0) ≡ false }
    ensures shorter { length result.now ≤ length bytes.now }
    ensures utf8 { IsUtf8 bytes.now → IsUtf8 result.now }
{
    let mut at = 0;
    while at < bytes.len() && is_space(bytes[at]) {
        at += 1;
    }
    &bytes[at..]
}

// The bytes before the first space or tab, and those after it; all of them where there is none.
fn cut_at_blank(bytes: &[u8]) -> (&[u8], &[u8])
    ensures cut { (letter : ℕ) → is_blank letter ≡ false →
        pieces (letter ∷ bytes.now) ≡ (letter ∷ result.0.now) ∷ pieces result.1.now }
    ensures shorter { length result.0.now + length result.1.now ≤ length bytes.now }
    ensures utf8 { IsUtf8 bytes.now → IsUtf8 result.0.now × IsUtf8 result.1.now }
{
    match position_of_blank(bytes) {
        Some(at) => (&bytes[..at], &bytes[at + 1..]),
        None => (bytes, &[]),
    }
}

// The position of the first space or tab.
fn position_of_blank(bytes: &[u8]) -> Option<usize>
    ensures { result ≡ position is_blank bytes.now }
{
    position_of_either(bytes, b' ', b'\t')
}

// A space or a tab.
fn is_space(byte: u8) -> bool
    ensures { result ≡ is_blank byte }
{
    byte == b' ' || byte == b'\t'
}
