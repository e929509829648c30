//! A line that was cut into its fields.
ghost use Rattle.std.specs.Prelude.{◌≡◌, None};

use osm_entity::{Flow, Kind, Member, Sequence, Tag, Text};
use std::marker::Model;

/// The fields of a line that says an item. A field is the content after its letter, and `None`
/// where the line has none.
#[derive(Debug, Drop)]
pub struct Line<'a> {
    pub flow: Flow,
    pub kind: Kind,
    pub id: i64,
    /// The version.
    pub v: Option<&'a [u8]>,
    /// Whether the entity is deleted: `D`, and `V` where it is visible.
    pub d: Option<&'a [u8]>,
    /// The changeset.
    pub c: Option<&'a [u8]>,
    /// The time.
    pub t: Option<&'a [u8]>,
    /// The uid.
    pub i: Option<&'a [u8]>,
    /// The user.
    pub u: Option<&'a [u8]>,
    /// The field `T`.
    pub tags: Option<&'a [u8]>,
    /// Degrees east of Greenwich.
    pub x: Option<&'a [u8]>,
    /// Degrees north of the equator.
    pub y: Option<&'a [u8]>,
    /// The field `N` of a way, or `M` of a relation.
    pub list: Option<&'a [u8]>,
    pub(crate) numbers: Numbers,
    pub(crate) made: Made,
}

/// The texts and lists of the fields that were made when the line was cut; none where they weren't.
#[derive(Debug, Drop)]
pub(crate) struct Made {
    pub user: Option<Text>,
    pub tags: Option<Sequence<Tag>>,
    pub refs: Option<Sequence<i64>>,
    pub members: Option<Sequence<Member>>,
}

impl Made {
    /// Nothing.
    pub(crate) fn none() -> Self
        ensures user { result.user ≡ None }
        ensures tags { result.tags ≡ None }
        ensures refs { result.refs ≡ None }
        ensures members { result.members ≡ None }
    {
        Made {
            user: None,
            tags: None,
            refs: None,
            members: None,
        }
    }
}

/// The numbers of the fields, which are read once, when the line is cut.
#[derive(Clone, Copy, Debug)]
pub(crate) struct Numbers {
    pub version: u32,
    pub deleted: bool,
    pub changeset: u64,
    /// Seconds since 1970-01-01T00:00:00Z; 0 where it isn't known.
    pub time: u32,
    pub uid: u32,
    /// Nanodegrees; none where the field is empty or absent.
    pub lon: Option<i64>,
    pub lat: Option<i64>,
}

impl<'a> Model for Line<'a> {
    ghost use Rattle.osm_opl_line.specs.Fields.{Fields};

    ghost Value = { Fields };

    ghost use Rattle.osm_opl_line.specs.Cut.{fields_seen, IsCut};

    ghost view = { fields_seen };

    ghost invariant = { IsCut };
}
