//! The fields of a line that is being cut, and what was read from them so far.
ghost use Rattle.std.specs.Prelude.{◌≡◌, ◌≤◌, ◌<◌, ℕ, None, Some, OnOk, IsUtf8, is_some, length, if◌then◌else◌};
ghost use Rattle.std.specs.Result.{result_err};
ghost use Rattle.osm_entity.specs.Ascii.{capital_m, capital_n, capital_t, letter_c, letter_d, letter_i, letter_t};
ghost use Rattle.osm_entity.specs.Ascii.{letter_u, letter_v, letter_x, letter_y};
ghost use Rattle.osm_entity.specs.declared.verdict.Cause.TheVariants.{TwiceField};
ghost use Rattle.osm_opl_line.specs.Draft.{Fills, IsRead, draft_fault, refusal, slot_of};
ghost use Rattle.osm_opl_line.specs.Line.{longest_line};

use crate::contents::{read_changeset, read_count, read_degrees, read_deleted, read_seconds};
use crate::line::{Made, Numbers};
use crate::weighing::{weigh_user, weigh_values};
use osm_entity::{Cause, Kind};
use std::alloc::Global;

/// The contents of the fields that were met, the numbers that they say, and what they weigh.
#[derive(Drop)]
pub(crate) struct Draft<'a> {
    pub v: Option<&'a [u8]>,
    pub d: Option<&'a [u8]>,
    pub c: Option<&'a [u8]>,
    pub t: Option<&'a [u8]>,
    pub i: Option<&'a [u8]>,
    pub u: Option<&'a [u8]>,
    pub tags: Option<&'a [u8]>,
    pub x: Option<&'a [u8]>,
    pub y: Option<&'a [u8]>,
    pub refs: Option<&'a [u8]>,
    pub members: Option<&'a [u8]>,
    pub numbers: Numbers,
    pub made: Made,
    pub user_weight: u64,
    pub tags_weight: u64,
    pub refs_weight: u64,
    pub members_weight: u64,
}

impl<'a> Draft<'a> {
    /// No field yet.
    pub(crate) fn new() -> Draft<'a>
        ensures read { IsRead result }
        ensures free { (letter : ℕ) → slot_of result letter ≡ None }
    {
        Draft {
            v: None,
            d: None,
            c: None,
            t: None,
            i: None,
            u: None,
            tags: None,
            x: None,
            y: None,
            refs: None,
            members: None,
            numbers: Numbers {
                version: 0,
                deleted: false,
                changeset: 0,
                time: 0,
                uid: 0,
                lon: None,
                lat: None,
            },
            made: Made::none(),
            user_weight: 0,
            tags_weight: 0,
            refs_weight: 0,
            members_weight: 0,
        }
    }

    /// Takes the field of an entity of this kind with this letter and content, or gives what is
    /// wrong with it.
    pub(crate) fn take(
        &mut self,
        making: Option<Global>,
        kind: Kind,
        letter: u8,
        content: &'a [u8],
    ) -> Result<(), Cause>
        requires short { length content.now ≤ longest_line }
        requires utf8 { letter < 128 → IsUtf8 content.now }
        ensures refused { result_err result ≡ draft_fault kind letter content.now self.old }
        ensures ok { OnOk result (Fills letter content.now self.old self.new) }
        ensures ascii { OnOk result (letter < 128) }
    {
        match letter {
            b'v' => self.take_version(content),
            b'd' => self.take_deleted(content),
            b'c' => self.take_changeset(content),
            b't' => self.take_time(content),
            b'i' => self.take_uid(content),
            b'u' => self.take_user(making, content),
            b'T' => self.take_tags(making, content),
            b'x' if kind == Kind::Node => self.take_lon(content),
            b'y' if kind == Kind::Node => self.take_lat(content),
            b'N' if kind == Kind::Way => self.take_refs(making, content),
            b'M' if kind == Kind::Relation => self.take_members(making, content),
            _ => Err(Cause::BadField),
        }
    }

    fn take_version(&mut self, content: &'a [u8]) -> Result<(), Cause>
        ensures refused { result_err result ≡ refusal letter_v content.now self.old }
        ensures ok { OnOk result (Fills letter_v content.now self.old self.new) }
    {
        check_free(self.v)?;
        self.numbers.version = read_count(content)?;
        self.v = Some(content);
        Ok(())
    }

    fn take_deleted(&mut self, content: &'a [u8]) -> Result<(), Cause>
        ensures refused { result_err result ≡ refusal letter_d content.now self.old }
        ensures ok { OnOk result (Fills letter_d content.now self.old self.new) }
    {
        check_free(self.d)?;
        self.numbers.deleted = read_deleted(content)?;
        self.d = Some(content);
        Ok(())
    }

    fn take_changeset(&mut self, content: &'a [u8]) -> Result<(), Cause>
        ensures refused { result_err result ≡ refusal letter_c content.now self.old }
        ensures ok { OnOk result (Fills letter_c content.now self.old self.new) }
    {
        check_free(self.c)?;
        self.numbers.changeset = read_changeset(content)?;
        self.c = Some(content);
        Ok(())
    }

    fn take_time(&mut self, content: &'a [u8]) -> Result<(), Cause>
        ensures refused { result_err result ≡ refusal letter_t content.now self.old }
        ensures ok { OnOk result (Fills letter_t content.now self.old self.new) }
    {
        check_free(self.t)?;
        self.numbers.time = read_seconds(content)?;
        self.t = Some(content);
        Ok(())
    }

    fn take_uid(&mut self, content: &'a [u8]) -> Result<(), Cause>
        ensures refused { result_err result ≡ refusal letter_i content.now self.old }
        ensures ok { OnOk result (Fills letter_i content.now self.old self.new) }
    {
        check_free(self.i)?;
        self.numbers.uid = read_count(content)?;
        self.i = Some(content);
        Ok(())
    }

    fn take_user(&mut self, making: Option<Global>, content: &'a [u8]) -> Result<(), Cause>
        requires short { length content.now ≤ longest_line }
        requires utf8 { IsUtf8 content.now }
        ensures refused { result_err result ≡ refusal letter_u content.now self.old }
        ensures ok { OnOk result (Fills letter_u content.now self.old self.new) }
    {
        check_free(self.u)?;
        let user = weigh_user(making, content)?;
        self.user_weight = user.weight;
        self.made.user = user.made;
        self.u = Some(content);
        Ok(())
    }

    fn take_tags(&mut self, making: Option<Global>, content: &'a [u8]) -> Result<(), Cause>
        requires short { length content.now ≤ longest_line }
        requires utf8 { IsUtf8 content.now }
        ensures refused { result_err result ≡ refusal capital_t content.now self.old }
        ensures ok { OnOk result (Fills capital_t content.now self.old self.new) }
    {
        check_free(self.tags)?;
        let tags = weigh_values(making, content)?;
        self.tags_weight = tags.weight;
        self.made.tags = tags.made;
        self.tags = Some(content);
        Ok(())
    }

    fn take_lon(&mut self, content: &'a [u8]) -> Result<(), Cause>
        ensures refused { result_err result ≡ refusal letter_x content.now self.old }
        ensures ok { OnOk result (Fills letter_x content.now self.old self.new) }
    {
        check_free(self.x)?;
        self.numbers.lon = read_degrees(content, 180)?;
        self.x = Some(content);
        Ok(())
    }

    fn take_lat(&mut self, content: &'a [u8]) -> Result<(), Cause>
        ensures refused { result_err result ≡ refusal letter_y content.now self.old }
        ensures ok { OnOk result (Fills letter_y content.now self.old self.new) }
    {
        check_free(self.y)?;
        self.numbers.lat = read_degrees(content, 90)?;
        self.y = Some(content);
        Ok(())
    }

    fn take_refs(&mut self, making: Option<Global>, content: &'a [u8]) -> Result<(), Cause>
        requires short { length content.now ≤ longest_line }
        requires utf8 { IsUtf8 content.now }
        ensures refused { result_err result ≡ refusal capital_n content.now self.old }
        ensures ok { OnOk result (Fills capital_n content.now self.old self.new) }
    {
        check_free(self.refs)?;
        let refs = weigh_values(making, content)?;
        self.refs_weight = refs.weight;
        self.made.refs = refs.made;
        self.refs = Some(content);
        Ok(())
    }

    fn take_members(&mut self, making: Option<Global>, content: &'a [u8]) -> Result<(), Cause>
        requires short { length content.now ≤ longest_line }
        requires utf8 { IsUtf8 content.now }
        ensures refused { result_err result ≡ refusal capital_m content.now self.old }
        ensures ok { OnOk result (Fills capital_m content.now self.old self.new) }
    {
        check_free(self.members)?;
        let members = weigh_values(making, content)?;
        self.members_weight = members.weight;
        self.made.members = members.made;
        self.members = Some(content);
        Ok(())
    }
}

// A letter comes once: its slot is free.
fn check_free(slot: Option<&[u8]>) -> Result<(), Cause>
    ensures { result_err result ≡ (if is_some slot.entry then Some TwiceField else None) }
{
    match slot {
        Some(_) => Err(Cause::TwiceField),
        None => Ok(()),
    }
}
