//! Judges the fields of a line together, once each was read without a fault.
ghost use Rattle.std.specs.Prelude.{◌≡◌, ℤ, IfOk, IfErr, IfNone, IfSome};
ghost use Rattle.osm_entity.specs.Entities.{weight_of};
ghost use Rattle.osm_entity.specs.declared.kind.Flow.{Flow};
ghost use Rattle.osm_opl_line.specs.Draft.{IsRead, fields_drafted, list_drafted, seen};
ghost use Rattle.osm_opl_line.specs.Item.{entity_of, item_of};
ghost use Rattle.osm_opl_line.specs.Line.{Bad, Good, judged, lacks_degrees, lacks_place};

use crate::draft::Draft;
use crate::line::Line;
use osm_entity::{Cause, Flow, GREATEST_WEIGHT, Kind};

/// The line of an entity with these fields, or what is wrong with them together.
pub(crate) fn judge<'a>(
    draft: Draft<'a>,
    flow: Flow,
    kind: Kind,
    id: i64,
) -> Result<Line<'a>, Cause>
    requires { IsRead draft }
    ensures fields { IfOk result (λ l. l ≡ fields_drafted flow kind id draft.entry) }
    ensures good { IfOk result (λ l.
        judged (fields_drafted flow kind id draft.entry) ≡ Good (item_of l)) }
    ensures refused { IfErr result (λ cause.
        judged (fields_drafted flow kind id draft.entry) ≡ Bad cause) }
{
    if let Some(cause) = common_fault(&draft, flow, kind) {
        return Err(cause);
    }
    let list = list_of(&draft, kind);
    Ok(Line {
        flow,
        kind,
        id,
        v: draft.v,
        d: draft.d,
        c: draft.c,
        t: draft.t,
        i: draft.i,
        u: draft.u,
        tags: draft.tags,
        x: draft.x,
        y: draft.y,
        list,
        numbers: draft.numbers,
        made: draft.made,
    })
}

// What is wrong with the fields together.
fn common_fault(draft: &Draft<'_>, flow: Flow, kind: Kind) -> Option<Cause>
    requires { IsRead draft.now }
    ensures some { IfSome result (λ cause.
        (id : ℤ) → judged (fields_drafted flow kind id draft.now) ≡ Bad cause) }
    ensures none { IfNone result ((id : ℤ) → judged (fields_drafted flow kind id draft.now)
        ≡ Good (item_of (fields_drafted flow kind id draft.now))) }
{
    if lacks_place(draft, flow, kind) {
        Some(Cause::NoPlace)
    } else if flow == Flow::Entities && draft.numbers.deleted {
        Some(Cause::Deleted)
    } else if weight(draft, kind) > GREATEST_WEIGHT {
        Some(Cause::TooHeavy)
    } else {
        None
    }
}

// A node needs a place, unless it is deleted.
fn lacks_place(draft: &Draft<'_>, flow: Flow, kind: Kind) -> bool
    requires { IsRead draft.now }
    ensures { (id : ℤ) → result ≡ lacks_place kind (fields_drafted flow kind id draft.now) }
{
    let numbers = &draft.numbers;
    let is_gone = flow == Flow::Changes && numbers.deleted;
    kind == Kind::Node && lacks_degrees(is_gone, numbers.lon, numbers.lat)
}

// A place with one degree is none, and only a deleted node may have none.
fn lacks_degrees(is_gone: bool, lon: Option<i64>, lat: Option<i64>) -> bool
    ensures { result ≡ lacks_degrees is_gone lon lat }
{
    match (lon, lat) {
        (Some(_), Some(_)) => false,
        (None, None) => !is_gone,
        _ => true,
    }
}

// What the entity weighs.
fn weight(draft: &Draft<'_>, kind: Kind) -> u64
    requires { IsRead draft.now }
    ensures { (flow : Flow) (id : ℤ) →
        result ≡ weight_of (entity_of (fields_drafted flow kind id draft.now)) }
{
    let list_weight = match kind {
        Kind::Node => 0,
        Kind::Way => draft.refs_weight,
        Kind::Relation => draft.members_weight,
    };
    128 + draft.user_weight + draft.tags_weight + list_weight
}

// The list of a way or a relation.
fn list_of<'a>(draft: &Draft<'a>, kind: Kind) -> Option<&'a [u8]>
    ensures { seen result ≡ list_drafted kind draft.now }
{
    match kind {
        Kind::Node => None,
        Kind::Way => draft.refs,
        Kind::Relation => draft.members,
    }
}
