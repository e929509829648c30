//! Cuts tags and members into their parts, which are slices of them.
ghost use Rattle.std.specs.Prelude.{◌≡◌, ◌≤◌, ◌<◌, ◌+◌, ◌≢◌, ◌==◌, ◌∷◌, Err, Some, IfNone, IfSome, IsTrue, IsUtf8, length, [], drop, take};
ghost use Rattle.std.specs.List.{position, slice_split};
ghost use Rattle.std.specs.Option.{ok_or};
ghost use Rattle.osm_entity.specs.declared.verdict.Cause.TheVariants.{BadField, BadNumber};
ghost use Rattle.osm_entity.specs.Ascii.{comma};
ghost use Rattle.osm_text.specs.Numbers.{whole};
ghost use Rattle.osm_opl_line.specs.Contents.{HasNoEscape, is_at_sign, is_equals, kind_by, member_in, member_of, ref_in, tag_in, tag_of, text_in};
ghost use Rattle.osm_opl_line.specs.Writing.{kind_letter};

use osm_entity::Kind;
use osm_text::{first_part, position_of, position_of_either};

/// The kind of a letter: `n`, `w` or `r`.
pub(crate) fn kind_of(letter: u8) -> Option<Kind>
    ensures { result ≡ kind_by letter }
{
    match letter {
        b'n' => Some(Kind::Node),
        b'w' => Some(Kind::Way),
        b'r' => Some(Kind::Relation),
        _ => None,
    }
}

/// The letter of a kind.
pub(crate) fn letter_of(kind: Kind) -> u8
    ensures { result ≡ kind_letter kind }
{
    match kind {
        Kind::Node => b'n',
        Kind::Way => b'w',
        Kind::Relation => b'r',
    }
}

fn find_equals(part: &[u8]) -> Option<usize>
    ensures { result ≡ position is_equals part.now }
{
    position_of(part, b'=')
}

fn find_at_sign(part: &[u8]) -> Option<usize>
    ensures { result ≡ position is_at_sign part.now }
{
    position_of(part, b'@')
}

/// The part before the first comma, the bytes after the comma, and whether it was seen that the part
/// has no `%`. `None` where there is no comma.
pub(crate) fn cut_part(bytes: &[u8]) -> Option<(&[u8], &[u8], bool)>
    ensures none { IfNone result (slice_split (λ b. b == comma) bytes.now ≡ bytes.now ∷ []) }
    ensures some { IfSome result (λ p.
        slice_split (λ b. b == comma) bytes.now
        ≡ p.0.now ∷ slice_split (λ b. b == comma) p.1.now) }
    ensures shorter { IfSome result (λ p. length p.1.now < length bytes.now) }
    ensures plain { IfSome result (λ p. IsTrue p.2 → HasNoEscape p.0.now) }
{
    let at = position_of_either(bytes, b',', b'%')?;
    if bytes[at] == b',' {
        return Some((&bytes[..at], &bytes[at + 1..], true));
    }
    let (part, more) = first_part(bytes, b',')?;
    Some((part, more, false))
}

/// The escaped key and value of a tag; `None` where it has no `=`, or no key before it.
pub(crate) fn cut_tag(part: &[u8]) -> Option<(&[u8], &[u8])>
    ensures none { IfNone result (tag_in part.now ≡ Err BadField) }
    ensures some { IfSome result (λ p.
        tag_in part.now ≡ tag_of (text_in p.0.now) (text_in p.1.now)) }
    ensures named { IfSome result (λ p. p.0.now ≢ []) }
    ensures key { IfSome result (λ p. take (length p.0.now) part.now ≡ p.0.now) }
    ensures value { IfSome result (λ p. drop (length p.0.now + 1) part.now ≡ p.1.now) }
    ensures shorter { IfSome result (λ p. length p.0.now + length p.1.now < length part.now) }
    ensures utf8 { IfSome result (λ p. IsUtf8 part.now → IsUtf8 p.0.now × IsUtf8 p.1.now) }
{
    match find_equals(part) {
        Some(at) if at > 0 => Some((&part[..at], &part[at + 1..])),
        _ => None,
    }
}

/// The number of a ref; `None` where it doesn't begin with `n`.
pub(crate) fn cut_ref(part: &[u8]) -> Option<&[u8]>
    ensures none { IfNone result (ref_in part.now ≡ Err BadField) }
    ensures some { IfSome result (λ id. ref_in part.now ≡ ok_or (whole id.now) BadNumber) }
{
    match part {
        [b'n', id @ ..] => Some(id),
        _ => None,
    }
}

/// The kind, the number and the escaped role of a member; `None` where it has no letter of a kind
/// or no `@`.
pub(crate) fn cut_member(part: &[u8]) -> Option<(Kind, &[u8], &[u8])>
    ensures none { IfNone result (member_in part.now ≡ Err BadField) }
    ensures some { IfSome result (λ p.
        member_in part.now ≡ member_of (Some p.0) (whole p.1.now) (text_in p.2.now)) }
    ensures shorter { IfSome result (λ p. length p.2.now < length part.now) }
    ensures utf8 { IfSome result (λ p. IsUtf8 part.now → IsUtf8 p.2.now) }
{
    let [letter, rest @ ..] = part else {
        return None;
    };
    let kind = kind_of(*letter)?;
    let at = find_at_sign(rest)?;
    Some((kind, &rest[..at], &rest[at + 1..]))
}
