//! Reads escaped texts, as `50%25%`: one to eight hexadecimal digits of either case between two `%`
//! stand for the character of that code point, as the OPL file format manual says.
ghost use Rattle.std.specs.Prelude.{◌≡◌, ◌<◌, ◌≤◌, ◌++◌, ◌∷◌, ◌==◌, ◌+◌, ℕ, None, Some, IfOk, IfNone, IfSome, OnErr, OnOk, IsErrOf, IsUtf8, if◌then◌else◌, length};
ghost use Rattle.std.specs.Char.{digit_value, encode_utf8, is_digit, len_utf8};
ghost use Rattle.std.specs.Fmt.{◌++?◌};
ghost use Rattle.std.specs.Option.{option_map};
ghost use Rattle.std.specs.Str.Parse.{digits_value};
ghost use Rattle.osm_text.specs.Escapes.{are_hex, escape_code, unescaped};
ghost use Rattle.osm_text.specs.declared.unescaping.EscapeError.TheVariants.{BadEscape, Memory};

use crate::cutting::first_part;
use osm_entity::{Bytes, NoMemory, Text};
use std::alloc::Global;
use thiserror::Error;

/// Why an escaped text was not read.
#[derive(Clone, Copy, Debug, PartialEq, Eq, Error)]
pub enum EscapeError {
    /// A `%` that begins no escape, or a number that is no character.
    #[error("bad escape")]
    BadEscape,
    /// Out of memory.
    #[error("out of memory")]
    Memory,
}

impl From<NoMemory> for EscapeError {
    ghost from_gives = { λ _ e. e ≡ Memory };

    fn from(_: NoMemory) -> Self {
        EscapeError::Memory
    }
}

fn hex_value(byte: u8) -> Option<u32>
    ensures { result ≡ (if is_digit byte 16 then Some (digit_value byte) else None) }
{
    char::from(byte).to_digit(16)
}

/// The number that up to eight hexadecimal digits write; `None` where there are none, or other
/// bytes.
fn hex_number(bytes: &[u8]) -> Option<u32>
    requires { length bytes.now ≤ 8 }
    ensures { result ≡ (
        if are_hex bytes.now then Some (digits_value 16 bytes.now) else None) }
{
    if bytes.is_empty() {
        return None;
    }
    let mut number = 0;
    for byte in bytes {
        match hex_value(*byte) {
            Some(value) => number = number * 16 + value,
            None => return None,
        }
    }
    Some(number)
}

/// The character of a code point in hexadecimal digits; `None` where there is none.
fn char_of(bytes: &[u8]) -> Option<char>
    ensures { result ≡ escape_code bytes.now }
{
    if bytes.len() > 8 {
        return None;
    }
    match hex_number(bytes) {
        Some(number) => char::from_u32(number),
        None => None,
    }
}

/// Appends the character's UTF-8. At `Err` nothing is appended.
fn push_char(out: &mut Bytes, c: char) -> Result<(), NoMemory>
    ensures ok { OnOk result (out.new ≡ out.old ++ encode_utf8 c) }
    ensures err { OnErr result (out.new ≡ out.old) }
    ensures utf8 { OnOk result (IsUtf8 out.old → IsUtf8 out.new) }
{
    let mut buffer = [0; 4];
    out.append(c.encode_utf8(&mut buffer).as_bytes())
}

/// The character of an escape, where `after` stands behind its first `%`, and the bytes behind its
/// second; `None` where there is no escape.
fn read_escape(after: &[u8]) -> Option<(char, &[u8])>
    ensures none { IfNone result (unescaped (37 ∷ after.now) ≡ None) }
    ensures some { IfSome result (λ p.
        unescaped (37 ∷ after.now) ≡ Some (encode_utf8 p.0) ++? unescaped p.1.now) }
    ensures utf8 { IfSome result (λ p. IsUtf8 after.now → IsUtf8 p.1.now) }
    ensures shorter { IfSome result (λ p. length p.1.now < length after.now) }
    ensures room { IfSome result (λ p. len_utf8 p.0 + length p.1.now ≤ length after.now + 1) }
{
    let (code, rest) = first_part(after, b'%')?;
    let c = char_of(code)?;
    Some((c, rest))
}

/// Appends the character of an escape, where `after` stands behind its first `%`, and gives the
/// bytes behind its second. `BadEscape` where there is no escape.
fn push_escaped<'a>(out: &mut Bytes, after: &'a [u8]) -> Result<&'a [u8], EscapeError>
    requires { IsUtf8 after.now }
    ensures value { IfOk result (λ rest.
        Some out.old ++? unescaped (37 ∷ after.now) ≡ Some out.new ++? unescaped rest.now) }
    ensures utf8 { IfOk result (λ rest. (IsUtf8 out.old → IsUtf8 out.new) × IsUtf8 rest.now) }
    ensures shorter { IfOk result (λ rest. length rest.now < length after.now) }
    ensures refused { IsErrOf result EscapeError.BadEscape → unescaped (37 ∷ after.now) ≡ None }
{
    let Some((c, rest)) = read_escape(after) else {
        return Err(EscapeError::BadEscape);
    };
    push_char(out, c)?;
    Ok(rest)
}

/// The bytes of the text that was escaped.
fn unescaped_bytes(alloc: Global, bytes: &[u8]) -> Result<Bytes, EscapeError>
    requires { IsUtf8 bytes.now }
    ensures value { IfOk result (λ text. unescaped bytes.now ≡ Some text) }
    ensures utf8 { IfOk result (λ text. IsUtf8 text) }
    ensures refused { IsErrOf result EscapeError.BadEscape → unescaped bytes.now ≡ None }
{
    // An escape is no shorter than its character.
    let mut out = Bytes::with_room(alloc, bytes.len())?;
    let mut rest = bytes;
    while let Some((plain, after)) = first_part(rest, b'%') {
        out.append(plain)?;
        rest = push_escaped(&mut out, after)?;
    }
    out.append(rest)?;
    Ok(out)
}

/// The text that was escaped. `BadEscape` exactly where a `%` begins no escape or its number is no
/// character, else only `Memory`.
pub fn unescape(alloc: Global, bytes: &[u8]) -> Result<Text, EscapeError>
    requires { IsUtf8 bytes.now }
    ensures value { IfOk result (λ text. unescaped bytes.now ≡ Some text) }
    ensures refused { IsErrOf result EscapeError.BadEscape → unescaped bytes.now ≡ None }
{
    if first_part(bytes, b'%').is_none() {
        return Ok(Text::from_utf8(alloc, bytes)?);
    }
    let text = unescaped_bytes(alloc, bytes)?;
    Ok(Text::from_utf8(alloc, text.as_slice())?)
}

/// How many bytes the text that was escaped has; `None` exactly where a `%` begins no escape or its
/// number is no character. It takes no memory.
pub fn unescaped_length(bytes: &[u8]) -> Option<usize>
    ensures value { result ≡ option_map length (unescaped bytes.now) }
    ensures shorter { IfSome result (λ n. n ≤ length bytes.now) }
{
    let mut total = 0;
    let mut rest = bytes;
    while let Some((plain, after)) = first_part(rest, b'%') {
        let (c, more) = read_escape(after)?;
        total += plain.len() + c.len_utf8();
        rest = more;
    }
    Some(total + rest.len())
}
