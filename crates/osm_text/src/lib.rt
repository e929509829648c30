//! Small texts, both ways: whole numbers, degrees in nanodegrees, times as seconds since 1970, and
//! escaped texts.
#![tactic(auto)]

mod cutting;
mod degrees;
mod digits;
mod escape_laws;
mod escaping;
mod example_laws;
mod fraction;
mod laws;
mod nano;
mod scanning;
mod short;
mod time;
mod time_laws;
mod unescaping;
mod whole;

pub use cutting::first_part;
pub use degrees::read_nano;
pub use escape_laws::escaped_reads_back;
pub use escaping::escape;
pub use example_laws::{far_degrees, no_numbers_and_times};
pub use laws::{nano_reads_back, whole_reads_back};
pub use nano::write_nano;
pub use scanning::{position_of, position_of_either};
pub use time::{BadTime, read_time, write_time};
pub use time_laws::{dates_have_their_numbers, days_follow, time_reads_back};
pub use unescaping::{EscapeError, unescape, unescaped_length};
pub use whole::{BadNumber, read_whole, write_whole};
