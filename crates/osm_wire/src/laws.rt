//! Laws over messages: what their fields are, and that what is written is read back.
ghost use Rattle.std.specs.Prelude.{◌≡◌, ◌≤◌, ◌<◌, ◌^◌, ◌++◌, ℕ, ℤ, All, FitsSigned, List, None, Ok, Err, Option, Some, length, take};
ghost use Rattle.std.specs.Int.{w64};
ghost use Rattle.osm_wire.specs.Entries.{message_fields};
ghost use Rattle.osm_wire.specs.Pieces.{IsAfterPieces};
ghost use Rattle.osm_wire.specs.Integers.{unzigzagged, zigzagged};
ghost use Rattle.osm_wire.specs.Messages.{FieldValue, Spells, SpellsField, good_front, packed_pieces};
ghost use Rattle.osm_wire.specs.Refusals.{IsMessagePieces, IsPackedPieces, RefusesField};
ghost use Rattle.osm_wire.specs.Varints.{SpellsNumber};
ghost use Rattle.osm_wire.specs.Written.{IsField, packed, shortest_varint, written_field, written_message};
ghost use Rattle.osm_wire.specs.declared.error.WireError.{WireError};

/// The fields that are read of a message are `good_front` of it: they spell a prefix of it, no longer
/// list of fields does, and what follows them is refused. What a message spells is read, with the
/// fault of what follows, and nothing else is. The same holds of the numbers of a packed payload.
pub fn good_fronts_are_read()
    ensures good { (message : List ℕ) → IsMessagePieces message (good_front message) }
    ensures only { (before rest : List ℕ) (fields : List FieldValue) (fault : Option WireError) →
        Spells before fields → IsAfterPieces RefusesField rest fault
        → good_front (before ++ rest) ≡ record { items = fields; fault = fault } }
    ensures packed { (bytes : List ℕ) → IsPackedPieces bytes (packed_pieces bytes) }
{}

/// The shortest varint of a number spells it, and no spelling has fewer bytes.
pub fn varints_are_shortest()
    ensures spells { (n : ℕ) → n < 2 ^ 64 → SpellsNumber (shortest_varint n) n }
    ensures shortest { (n : ℕ) (bytes : List ℕ) → SpellsNumber bytes n →
        length (shortest_varint n) ≤ length bytes }
{}

/// A written field spells the field, and written messages and packed numbers are read back.
pub fn written_fields_read_back()
    ensures field { (f : FieldValue) → IsField f → SpellsField (written_field f) f }
    ensures message { (fields : List FieldValue) → All IsField fields →
        message_fields (written_message fields) ≡ Some fields }
    ensures packed { (numbers : List ℕ) → All (λ n. n < 2 ^ 64) numbers →
        packed_pieces (packed numbers) ≡ record { items = numbers; fault = None } }
{}

/// Zigzag and its way back are inverse to each other.
pub fn zigzag_reads_back()
    ensures signed { (z : ℤ) → unzigzagged (zigzagged z) ≡ z }
    ensures code { (n : ℕ) → zigzagged (unzigzagged n) ≡ n }
{}
