//! The string table of a block: where its texts lie in the block's bytes, and the texts.
ghost use Rattle.std.specs.Prelude.{◌≡◌, [], length, map, true, false, All, None, Some, OnOk, IfErr, IfSome, IfNone};
ghost use Rattle.std.specs.List.{list_all};
ghost use Rattle.std.specs.Option.{option_map};
ghost use Rattle.std.specs.Str.{is_utf8};
ghost use Rattle.osm_wire.specs.Entries.{single_bytes};
ghost use Rattle.osm_wire.specs.Messages.{good_front};
ghost use Rattle.osm_block_read.specs.Strings.{table_texts};
ghost use Rattle.osm_block_read.specs.Spans.{IsSpanIn, part_in};
ghost use Rattle.osm_block_read.specs.Table.{IsNextSpan, IsSingleSpan, IsWellRest, entries_left};
ghost use Rattle.osm_block_read.specs.Told.{BadTextWhere, BadWireWhere};

use crate::error::{BAD_WIRE, BlockError};
use crate::header::is_text;
use crate::message::Message;
use crate::span::Span;
use osm_entity::{Cause, Text};
use osm_wire::Fields;

/// Where the one entry of a field of a message lies, which is well formed. `None` where it has no
/// entry, two, or one that isn't bytes.
pub(crate) fn single_span(message: &[u8], number: u32) -> Option<Span>
    requires { (good_front message.now).fault ≡ None }
    ensures { IsSingleSpan message.now (single_bytes number (good_front message.now).items) result }
{
    let mut fields = Fields::new(message);
    let first = next_span(message, &mut fields, number)??;
    match next_span(message, &mut fields, number)? {
        Some(_) => None,
        None => Some(first),
    }
}

/// Reads where the texts of a string table lie, which itself lies at `table`, in the place of what
/// `spans` held.
pub(crate) fn read_table(spans: &mut Vec<Span>, raw: &[u8], table: Span) -> Result<(), BlockError>
    requires { IsSpanIn (length raw.now) table }
    ensures ok { OnOk result (
        table_texts (part_in raw.now table) ≡ Some (map (part_in raw.now) spans.new.items)) }
    ensures within { OnOk result (All (IsSpanIn (length raw.now)) spans.new.items) }
    ensures bad { IfErr result (BadWireWhere (table_texts (part_in raw.now table) ≡ None)) }
{
    spans.clear();
    let begin = &raw[..table.end];
    let content = &begin[table.start..];
    Message::new(content).ok_or(BAD_WIRE)?;
    let mut fields = Fields::new(content);
    while let Some(span) = next_span(begin, &mut fields, 1).ok_or(BAD_WIRE)? {
        spans.push(span)?;
    }
    Ok(())
}

/// Makes the texts that lie at these spans, in the place of those before. Each is made once, and
/// copied for the entities that name it.
pub(crate) fn make_texts(
    texts: &mut Vec<Text>,
    raw: &[u8],
    spans: &[Span],
) -> Result<(), BlockError>
    requires { All (IsSpanIn (length raw.now)) spans.now }
    ensures ok { OnOk result (texts.new.items ≡ map (part_in raw.now) spans.now) }
    ensures utf8 { OnOk result (list_all is_utf8 (map (part_in raw.now) spans.now) ≡ true) }
    ensures bad { IfErr result (BadTextWhere
        (list_all is_utf8 (map (part_in raw.now) spans.now) ≡ false)) }
{
    let alloc = *texts.allocator();
    texts.clear();
    for span in spans {
        let part = &raw[span.start..span.end];
        if !is_text(part) {
            return Err(BlockError::Bad(Cause::BadText));
        }
        texts.push(Text::from_utf8(alloc, part)?)?;
    }
    Ok(())
}

// Where the bytes of the next entry of a field lie among all bytes up to the end of its message.
// `None` where it isn't bytes.
fn next_span(bytes: &[u8], fields: &mut Fields<'_>, number: u32) -> Option<Option<Span>>
    requires { IsWellRest bytes.now fields.old }
    ensures some { IfSome result (λ o. IfSome o (λ span.
        IsNextSpan bytes.now number span fields.old fields.new)) }
    ensures end { IfSome result (λ o. IfNone o (entries_left number fields.old ≡ Some [])) }
    ensures bad { IfNone result (entries_left number fields.old ≡ None) }
    ensures rest { IsWellRest bytes.now fields.new }
{
    while let Some(Ok(field)) = fields.next() {
        if field.number != number {
            continue;
        }
        return match field.value.bytes() {
            Ok(content) => {
                let end = bytes.len() - fields.rest().len();
                let start = end - content.len();
                Some(Some(Span { start, end }))
            }
            Err(_) => None,
        };
    }
    Some(None)
}
