//! The values of lists: tags, refs and members. Each is said by a part between commas, weighs
//! something, and is written as a part again.
ghost use Rattle.std.specs.Prelude.{◌≡◌, ◌≤◌, ◌+◌, ◌*◌, ◌++◌, ◌∷◌, ℕ, List, Result, Err, Ok, IfOk, IsUtf8, OnErr, OnOk, length, take};
ghost use Rattle.std.specs.Fmt.{signed_decimal};
ghost use Rattle.osm_entity.specs.Entities.{member_weight, tag_weight};
ghost use Rattle.osm_entity.specs.Prefixes.{IsPrefix};
ghost use Rattle.osm_entity.specs.declared.verdict.Cause.{Cause};
ghost use Rattle.osm_opl_line.specs.Contents.{HasNoEscape, member_in, ref_in, tag_in};
ghost use Rattle.osm_opl_line.specs.Cut.{weighed};
ghost use Rattle.osm_opl_line.specs.Line.{longest_line};
ghost use Rattle.osm_opl_line.specs.Writing.{kind_letter, member_text, ref_text, tag_text};

use crate::contents::{ContentError, make_plain_text, make_text, weigh_text};
use crate::parting::{cut_member, cut_ref, cut_tag, letter_of};
use osm_entity::{Bytes, Cause, Kind, Member, NoMemory, Tag};
use osm_text::{escape, read_whole, write_whole};
use std::alloc::Global;

/// A value of a list: a tag, a ref or a member.
pub(crate) trait Part: Drop {
    /// The value that a part says, or the cause why it is bad.
    ghost says: { List ℕ → Result Self Cause };

    /// What a value weighs.
    ghost weight: { Self → ℕ };

    /// The part of a value.
    ghost text: { Self → List ℕ };

    /// What the value of a part weighs, or the cause why it is bad. Nothing is copied.
    fn weigh(part: &[u8]) -> Result<u64, Cause>
        requires { length part.now ≤ longest_line }
        ensures value { result ≡ weighed weight (says part.now) }
        ensures small { IfOk result (λ n. n ≤ 32 + length part.now) };

    /// The value that a part says, which is the first `len` of these bytes, or the cause why it is
    /// bad.
    fn make(alloc: Global, bytes: &[u8], len: usize) -> Result<Self, ContentError>
        requires within { len ≤ length bytes.now }
        requires utf8 { IsUtf8 (take len bytes.now) }
        ensures value { IfOk result (λ value. says (take len bytes.now) ≡ Ok value) }
        ensures light { IfOk result (λ value. weight value ≤ 32 + len) }
        ensures refused { (cause : Cause) → result ≡ Err (ContentError.Bad cause) →
            says (take len bytes.now) ≡ Err cause };

    /// The same of a part in which there is no `%`.
    fn make_plain(alloc: Global, bytes: &[u8], len: usize) -> Result<Self, ContentError>
        requires within { len ≤ length bytes.now }
        requires utf8 { IsUtf8 (take len bytes.now) }
        requires plain { HasNoEscape (take len bytes.now) }
        ensures value { IfOk result (λ value. says (take len bytes.now) ≡ Ok value) }
        ensures light { IfOk result (λ value. weight value ≤ 32 + len) }
        ensures refused { (cause : Cause) → result ≡ Err (ContentError.Bad cause) →
            says (take len bytes.now) ≡ Err cause };

    /// What the value weighs.
    fn weighs(&self) -> u64
        requires { weight self.now ≤ 33 * longest_line }
        ensures { result ≡ weight self.now };

    /// Appends the part of a value. At `Err` some of it may stand at the end.
    fn append_to(&self, out: &mut Bytes) -> Result<(), NoMemory>
        ensures ok { OnOk result (out.new ≡ out.old ++ text self.now) }
        ensures err { OnErr result (IsPrefix out.old out.new) };
}

impl Part for Tag {
    ghost says = { tag_in };

    ghost weight = { tag_weight };

    ghost text = { tag_text };

    // The cause of a bad key comes before that of a bad value.
    fn weigh(part: &[u8]) -> Result<u64, Cause> {
        let Some((key, value)) = cut_tag(part) else {
            return Err(Cause::BadField);
        };
        let key = weigh_text(key)?;
        let value = weigh_text(value)?;
        Ok(32 + key + value)
    }

    fn make(alloc: Global, bytes: &[u8], len: usize) -> Result<Self, ContentError> {
        let Some((key, value)) = cut_tag(&bytes[..len]) else {
            return Err(ContentError::Bad(Cause::BadField));
        };
        let value_at = key.len() + 1;
        let key = make_text(alloc, bytes, key.len())?;
        let value = make_text(alloc, &bytes[value_at..], value.len())?;
        Ok(Tag { key, value })
    }

    fn make_plain(alloc: Global, bytes: &[u8], len: usize) -> Result<Self, ContentError> {
        let Some((key, value)) = cut_tag(&bytes[..len]) else {
            return Err(ContentError::Bad(Cause::BadField));
        };
        let value_at = key.len() + 1;
        let key = make_plain_text(alloc, bytes, key.len())?;
        let value = make_plain_text(alloc, &bytes[value_at..], value.len())?;
        Ok(Tag { key, value })
    }

    fn weighs(&self) -> u64 {
        32 + self.key.as_slice().len() as u64 + self.value.as_slice().len() as u64
    }

    fn append_to(&self, out: &mut Bytes) -> Result<(), NoMemory> {
        escape(out, &self.key)?;
        out.push(b'=')?;
        escape(out, &self.value)
    }
}

impl Part for i64 {
    ghost says = { ref_in };

    ghost weight = { λ _. 32 };

    ghost text = { ref_text };

    fn weigh(part: &[u8]) -> Result<u64, Cause> {
        let Some(id) = cut_ref(part) else {
            return Err(Cause::BadField);
        };
        match read_whole(id) {
            Ok(_) => Ok(32),
            Err(_) => Err(Cause::BadNumber),
        }
    }

    fn make(_: Global, bytes: &[u8], len: usize) -> Result<Self, ContentError> {
        let Some(id) = cut_ref(&bytes[..len]) else {
            return Err(ContentError::Bad(Cause::BadField));
        };
        match read_whole(id) {
            Ok(id) => Ok(id),
            Err(_) => Err(ContentError::Bad(Cause::BadNumber)),
        }
    }

    fn make_plain(alloc: Global, bytes: &[u8], len: usize) -> Result<Self, ContentError> {
        Self::make(alloc, bytes, len)
    }

    fn weighs(&self) -> u64 {
        32
    }

    fn append_to(&self, out: &mut Bytes) -> Result<(), NoMemory> {
        append_id(out, Kind::Node, *self)
    }
}

impl Part for Member {
    ghost says = { member_in };

    ghost weight = { member_weight };

    ghost text = { member_text };

    // The cause of a bad number comes before that of a bad role.
    fn weigh(part: &[u8]) -> Result<u64, Cause> {
        let Some((_, id, role)) = cut_member(part) else {
            return Err(Cause::BadField);
        };
        match read_whole(id) {
            Ok(_) => Ok(32 + weigh_text(role)?),
            Err(_) => Err(Cause::BadNumber),
        }
    }

    fn make(alloc: Global, bytes: &[u8], len: usize) -> Result<Self, ContentError> {
        let Some((kind, id, role)) = cut_member(&bytes[..len]) else {
            return Err(ContentError::Bad(Cause::BadField));
        };
        let Ok(id) = read_whole(id) else {
            return Err(ContentError::Bad(Cause::BadNumber));
        };
        let role = make_text(alloc, role, role.len())?;
        Ok(Member { kind, id, role })
    }

    fn make_plain(alloc: Global, bytes: &[u8], len: usize) -> Result<Self, ContentError> {
        Self::make(alloc, bytes, len)
    }

    fn weighs(&self) -> u64 {
        32 + self.role.as_slice().len() as u64
    }

    fn append_to(&self, out: &mut Bytes) -> Result<(), NoMemory> {
        append_id(out, self.kind, self.id)?;
        out.push(b'@')?;
        escape(out, &self.role)
    }
}

/// Appends a kind and an id. At `Err` some of it may stand at the end.
pub(crate) fn append_id(out: &mut Bytes, kind: Kind, id: i64) -> Result<(), NoMemory>
    ensures ok { OnOk result (out.new ≡ out.old ++ kind_letter kind ∷ signed_decimal id) }
    ensures err { OnErr result (IsPrefix out.old out.new) }
{
    out.push(letter_of(kind))?;
    write_whole(out, id)
}
