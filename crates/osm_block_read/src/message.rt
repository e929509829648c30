//! What the fields of a message say, each looked up by its number.
ghost use Rattle.std.specs.Prelude.{◌≡◌, [], None, Some, IfNone, IfSome};
ghost use Rattle.std.specs.Option.{option_map};
ghost use Rattle.osm_wire.specs.Entries.{message_fields, needed, number_given, scalar, single_bytes};
ghost use Rattle.osm_wire.specs.Messages.{good_front};
ghost use Rattle.osm_block_read.specs.Told.{IsNextEntry, bytes_to_come};

use osm_wire::Fields;
use std::marker::Model;

/// A message that is well formed. Contracts see it as its fields.
#[derive(Debug, Drop)]
pub(crate) struct Message<'a> {
    bytes: &'a [u8],
}

impl<'a> Model for Message<'a> {
    ghost use Rattle.std.specs.Prelude.{◌≡◌, List, None};
    ghost use Rattle.osm_wire.specs.Messages.{FieldValue, good_front};

    ghost Value = { List FieldValue };

    ghost view = { λ m. (good_front m.bytes.now).items };

    ghost invariant = { λ m. (good_front m.bytes.now).fault ≡ None };
}

impl<'a> Message<'a> {
    /// The message of these bytes. `None` where they aren't well formed.
    pub(crate) fn new(bytes: &'a [u8]) -> Option<Message<'a>>
        ensures { result ≡ message_fields bytes.now }
    {
        let mut fields = Fields::new(bytes);
        loop {
            match fields.next() {
                Some(Ok(_)) => {}
                Some(Err(_)) => return None,
                None => return Some(Message { bytes }),
            }
        }
    }

    /// Its fields.
    pub(crate) fn fields(&self) -> Fields<'a>
        ensures items { (good_front result).items ≡ self.now }
        ensures fine { (good_front result).fault ≡ None }
    {
        Fields::new(self.bytes)
    }

    /// The number of the last entry of a field, where it has one. `None` where an entry is no
    /// number.
    pub(crate) fn last(&self, number: u32) -> Option<Option<u64>>
        ensures { result ≡ number_given None number self.now }
    {
        let mut last = None;
        let mut fields = self.fields();
        while let Some(Ok(field)) = fields.next() {
            if field.number != number {
                continue;
            }
            last = Some(field.value.number().ok()?);
        }
        Some(last)
    }

    /// The number of the last entry of a field, or this one where it has none. `None` where an
    /// entry is no number.
    pub(crate) fn scalar(&self, absent: u64, number: u32) -> Option<u64>
        ensures { result ≡ scalar absent number self.now }
    {
        Some(self.last(number)?.unwrap_or(absent))
    }

    /// The number of the last entry of a field. `None` where it has none, or one that is no number.
    pub(crate) fn needed(&self, number: u32) -> Option<u64>
        ensures { result ≡ needed number self.now }
    {
        self.last(number)?
    }

    /// The entries of a field, which should be bytes.
    pub(crate) fn entries(&self, number: u32) -> Entries<'a>
        ensures { result ≡ record { number = number; fields = self.now } }
    {
        Entries {
            fields: self.fields(),
            number,
        }
    }

    /// The bytes of a field's one entry, where it has one. `None` where it has two, or one that
    /// isn't bytes.
    pub(crate) fn single(&self, number: u32) -> Option<Option<&'a [u8]>>
        ensures { option_map (option_map (λ s. s.now)) result ≡ single_bytes number self.now }
    {
        let mut entries = self.entries(number);
        let Some(first) = entries.next()? else {
            return Some(None);
        };
        match entries.next()? {
            Some(_) => None,
            None => Some(Some(first)),
        }
    }
}

/// The entries of a field that are still to come. Contracts see its number, and the fields of its
/// message that are still to come.
#[derive(Debug, Drop)]
pub(crate) struct Entries<'a> {
    fields: Fields<'a>,
    number: u32,
}

impl<'a> Model for Entries<'a> {
    ghost use Rattle.std.specs.Prelude.{◌≡◌, None};
    ghost use Rattle.osm_wire.specs.Messages.{good_front};
    ghost use Rattle.osm_block_read.specs.Told.{EntriesValue};

    ghost Value = { EntriesValue };

    ghost view = { λ e. record { number = e.number; fields = (good_front e.fields).items } };

    ghost invariant = { λ e. (good_front e.fields).fault ≡ None };
}

impl<'a> Entries<'a> {
    /// The bytes of the next entry, where there is one. `None` where it isn't bytes.
    pub(crate) fn next(&mut self) -> Option<Option<&'a [u8]>>
        ensures some { IfSome result (λ o. IfSome o (λ s. IsNextEntry s.now self.old self.new)) }
        ensures end { IfSome result (λ o. IfNone o (bytes_to_come self.old ≡ Some [])) }
        ensures bad { IfNone result (bytes_to_come self.old ≡ None) }
    {
        while let Some(Ok(field)) = self.fields.next() {
            if field.number == self.number {
                return Some(Some(field.value.bytes().ok()?));
            }
        }
        Some(None)
    }
}
