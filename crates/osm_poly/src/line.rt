//! Lines of a polygon file, without the blanks at both ends. Those that are empty then are passed
//! over, but counted.
ghost use Rattle.std.specs.Prelude.{◌≡◌, ◌<◌, ◌≤◌, ◌+◌, ◌-◌, ◌^◌, [], ◌∷◌, length, IfOk, IfErr};
ghost use Rattle.std.specs.List.{position, position_or_len, suffix_len};
ghost use Rattle.osm_poly.specs.Lines.{is_blank_byte, is_ink, poly_lines, said_after_name, said_from, stripped};

use osm_text::first_part;

fn is_blank(byte: u8) -> bool
    ensures { result ≡ is_blank_byte byte }
{
    byte == b' ' || byte == b'\t' || byte == b'\r'
}

fn find_ink(line: &[u8]) -> Option<usize>
    ensures { result ≡ position is_ink line.now }
{
    line.iter().position(|byte| !is_blank(*byte))
}

fn position_of_ink(line: &[u8]) -> usize
    ensures value { result ≡ position_or_len is_ink line.now }
    ensures within { result ≤ length line.now }
{
    find_ink(line).unwrap_or(line.len())
}

/// How many bytes there are without the blanks at their end.
fn inked_length(line: &[u8]) -> usize
    ensures value { result ≡ length line.now - suffix_len is_blank_byte line.now }
    ensures within { result ≤ length line.now }
{
    let mut end = line.len();
    while end > 0 && is_blank(line[end - 1]) {
        end -= 1;
    }
    end
}

/// A line without the blanks at both ends.
fn strip(line: &[u8]) -> &[u8]
    ensures { result.now ≡ stripped line.now }
{
    let line = &line[position_of_ink(line)..];
    &line[..inked_length(line)]
}

/// The first line that isn't empty, the bytes after it, and its number, where the first line of
/// `bytes` has the number `first`. `Err` has the number after the last line.
pub(crate) fn next_line(bytes: &[u8], first: u64) -> Result<(&[u8], &[u8], u64), u64>
    requires fits { first + length bytes.now < 2 ^ 64 - 1 }
    ensures said { IfOk result (λ p.
        said_from first bytes.now ≡ (p.2, p.0.now) ∷ said_from (p.2 + 1) p.1.now) }
    ensures same { IfOk result (λ p.
        first + length (poly_lines bytes.now) ≡ p.2 + 1 + length (poly_lines p.1.now)) }
    ensures fits { IfOk result (λ p. p.2 + 1 + length p.1.now ≤ first + length bytes.now) }
    ensures shorter { IfOk result (λ p. length p.1.now < length bytes.now) }
    ensures none { IfErr result (λ _. said_from first bytes.now ≡ []) }
    ensures end { IfErr result (λ end. first + length (poly_lines bytes.now) ≡ end) }
{
    let mut rest = bytes;
    let mut number = first;
    while let Some((line, more)) = first_part(rest, b'\n') {
        let line = strip(line);
        if !line.is_empty() {
            return Ok((line, more, number));
        }
        rest = more;
        number += 1;
    }
    let line = strip(rest);
    if line.is_empty() {
        return Err(number);
    }
    Ok((line, &[], number))
}

/// The bytes after the first line, which is the file's name. `Err` has the number after the last
/// line, where there is no other.
pub(crate) fn after_name(bytes: &[u8]) -> Result<&[u8], u64>
    ensures said { IfOk result (λ rest. said_after_name bytes.now ≡ said_from 2 rest.now) }
    ensures same { IfOk result (λ rest.
        1 + length (poly_lines bytes.now) ≡ 2 + length (poly_lines rest.now)) }
    ensures none { IfErr result (λ _. said_after_name bytes.now ≡ []) }
    ensures end { IfErr result (λ end. 1 + length (poly_lines bytes.now) ≡ end) }
{
    match first_part(bytes, b'\n') {
        Some((_, rest)) => Ok(rest),
        None => {
            if strip(bytes).is_empty() {
                Err(1)
            } else {
                Err(2)
            }
        }
    }
}
