//! Protobuf messages, both ways: a message is cut into fields that are slices of it, and fields are
//! appended in their shortest spelling.
//!
//! After the Protobuf encoding, with refusals of our own: a group, a tenth varint byte above 1, a
//! known field of another wire type than its own, and a singular message that is given twice.
#![tactic(auto)]

mod cutting;
mod error;
mod field;
mod integers;
mod laws;
mod putting;
mod varints;

pub use cutting::Fields;
pub use error::WireError;
pub use field::{Field, Value};
pub use integers::{int32, int64, sint32, uint32, unzigzag, zigzag};
pub use laws::{
    good_fronts_are_read, varints_are_shortest, written_fields_read_back, zigzag_reads_back,
};
pub use putting::{put_bytes, put_number, put_varint};
pub use varints::varint;
