//! Times as texts, as `2010-01-01T00:00:00Z`, both ways: seconds since 1970-01-01T00:00:00Z.
//! Dates are those of the calendar of `jiff`; the form of the texts is narrower than what it reads.
ghost use Rattle.std.specs.Prelude.{◌≡◌, ◌<◌, ◌≤◌, ◌+◌, true, length, pos, unsigned_abs};
ghost use Rattle.std.specs.Prelude.{◌∷◌, ◌++◌, [], take, OnErr, OnOk};
ghost use Rattle.std.specs.List.{list_all};
ghost use Rattle.std.specs.Result.{result_ok};
ghost use Rattle.jiff.specs.Words.{civil_seconds};
ghost use Rattle.osm_text.specs.Moments.{fitting_seconds};
ghost use Rattle.osm_text.specs.Times.{are_two_digits, has_form, has_marks, number_at};
ghost use Rattle.osm_text.specs.Times.{clock_at, clock_places, date_places, day_at, time, time_at};
ghost use Rattle.osm_text.specs.Times.{clock_after, date_after, date_text, time_text, two_text};

use jiff::civil::DateTime;
use jiff_core::civil::Date;
use osm_entity::{Bytes, NoMemory};

/// A text that is no time, or a time that 32 bits of seconds since 1970 can't hold.
#[derive(Clone, Copy, Debug, PartialEq, Eq)]
pub struct BadTime;

/// Whether the marks between the digits stand at their places.
fn are_marks_there(bytes: &[u8]) -> bool
    requires { length bytes.now ≡ 20 }
    ensures { result ≡ has_marks bytes.now }
{
    let is_date = bytes[4] == b'-' && bytes[7] == b'-' && bytes[10] == b'T';
    is_date && bytes[13] == b':' && bytes[16] == b':' && bytes[19] == b'Z'
}

/// Whether two digits stand at a place.
fn is_pair(bytes: &[u8], place: usize) -> bool
    requires { place + 2 ≤ length bytes.now }
    ensures { result ≡ are_two_digits bytes.now place }
{
    bytes[place].is_ascii_digit() && bytes[place + 1].is_ascii_digit()
}

/// Whether there are digits where a date has them.
fn has_date_digits(bytes: &[u8]) -> bool
    requires { length bytes.now ≡ 20 }
    ensures { result ≡ list_all (are_two_digits bytes.now) date_places }
{
    is_pair(bytes, 0) && is_pair(bytes, 2) && is_pair(bytes, 5) && is_pair(bytes, 8)
}

/// Whether there are digits where a time of the day has them.
fn has_clock_digits(bytes: &[u8]) -> bool
    requires { length bytes.now ≡ 20 }
    ensures { result ≡ list_all (are_two_digits bytes.now) clock_places }
{
    is_pair(bytes, 11) && is_pair(bytes, 14) && is_pair(bytes, 17)
}

/// Whether the bytes have the form `YYYY-MM-DDTHH:MM:SSZ`.
fn is_formed(bytes: &[u8]) -> bool
    ensures { result ≡ has_form bytes.now }
{
    bytes.len() == 20 && are_marks_there(bytes) && has_date_digits(bytes) && has_clock_digits(bytes)
}

/// The number that the two digits at a place write.
fn two_digits(bytes: &[u8], place: usize) -> i8
    requires within { place + 2 ≤ length bytes.now }
    requires digits { are_two_digits bytes.now place ≡ true }
    ensures value { result ≡ pos (number_at place 2 bytes.now) }
    ensures size { number_at place 2 bytes.now < 100 }
{
    ((bytes[place] - b'0') * 10 + (bytes[place + 1] - b'0')) as i8
}

/// The year, in a text of this form.
fn year_of(bytes: &[u8]) -> i16
    requires { has_form bytes.now ≡ true }
    ensures value { result ≡ pos (number_at 0 4 bytes.now) }
    ensures size { number_at 0 4 bytes.now < 10000 }
{
    i16::from(two_digits(bytes, 0)) * 100 + i16::from(two_digits(bytes, 2))
}

/// The seconds to a date and a time of the day. `BadTime` before 1970 and from 2^32 on.
/// Seconds are taken as they are: by way of a `Timestamp` they would be divided out of 128 bits.
fn seconds_of(moment: DateTime) -> Result<u32, BadTime>
    ensures { result_ok result ≡ fitting_seconds (civil_seconds moment) }
{
    u32::try_from(moment.to_plain().to_second()).map_err(|_| BadTime)
}

/// The seconds to the date and the time of the day in a text of this form. `BadTime` where one of
/// them doesn't exist, before 1970 and from 2^32 on.
fn seconds_in(bytes: &[u8]) -> Result<u32, BadTime>
    requires { has_form bytes.now ≡ true }
    ensures { result_ok result ≡ time_at (day_at bytes.now) (clock_at bytes.now) }
{
    let moment = DateTime::new(
        year_of(bytes),
        two_digits(bytes, 5),
        two_digits(bytes, 8),
        two_digits(bytes, 11),
        two_digits(bytes, 14),
        two_digits(bytes, 17),
        0,
    );
    match moment {
        Ok(moment) => seconds_of(moment),
        Err(_) => Err(BadTime),
    }
}

/// Reads a time, as `2010-01-01T00:00:00Z`, and gives seconds since 1970-01-01T00:00:00Z.
/// `BadTime` exactly where the text is no such time: where it has another form, its date or its
/// time of the day doesn't exist, or it lies before 1970 or after 2106-02-07T06:28:15Z.
#[tactic(auto, unfolding(crate::specs::Times::time))]
pub fn read_time(bytes: &[u8]) -> Result<u32, BadTime>
    ensures { result_ok result ≡ time bytes.now }
{
    if !is_formed(bytes) {
        return Err(BadTime);
    }
    seconds_in(bytes)
}

/// A number below 100 in two digits.
fn pair(n: u32) -> [u8; 2]
    requires { n < 100 }
    ensures { result ≡ two_text n }
{
    [b'0' + (n / 10) as u8, b'0' + (n % 10) as u8]
}

/// The date of a day by its number from 1970-01-01. Only the core of `jiff` gives a date by that.
fn date_of(day: u32) -> Date
    requires { day < 50_000 }
    ensures year { result.year ≡ pos (date_after day).year }
    ensures month { result.month ≡ (date_after day).month }
    ensures day { result.day ≡ (date_after day).day }
{
    match Date::from_unix_epoch_day(i64::from(day)) {
        Ok(date) => date,
        Err(_) => unreachable!(),
    }
}

/// A date and the `T` after it.
fn date_bytes(date: Date) -> [u8; 11]
    ensures { result ≡ date_text (unsigned_abs date.year) date.month date.day ++ 84 ∷ [] }
{
    let year = u32::from(date.year.unsigned_abs());
    let [y1, y2] = pair(year / 100);
    let [y3, y4] = pair(year % 100);
    let [m1, m2] = pair(u32::from(date.month));
    let [d1, d2] = pair(u32::from(date.day));
    [y1, y2, y3, y4, b'-', m1, m2, b'-', d1, d2, b'T']
}

/// A time of the day and the `Z` after it.
fn clock_bytes(seconds: u32) -> [u8; 9]
    requires { seconds < 86400 }
    ensures { result ≡ clock_after seconds ++ 90 ∷ [] }
{
    let [h1, h2] = pair(seconds / 3_600);
    let [m1, m2] = pair(seconds / 60 % 60);
    let [s1, s2] = pair(seconds % 60);
    [h1, h2, b':', m1, m2, b':', s1, s2, b'Z']
}

/// Appends the two halves of the text one by one. At `Err` the first may stand at the end.
fn write_halves(out: &mut Bytes, t: u32) -> Result<(), NoMemory>
    ensures ok { OnOk result (out.new ≡ out.old ++ time_text t) }
    ensures err { OnErr result (take (length out.old) out.new ≡ out.old) }
{
    out.append(&date_bytes(date_of(t / 86_400)))?;
    out.append(&clock_bytes(t % 86_400))
}

/// Appends the time this number of seconds after 1970-01-01T00:00:00Z, as `2010-01-01T00:00:00Z`.
/// At `Err` nothing is appended.
pub fn write_time(out: &mut Bytes, t: u32) -> Result<(), NoMemory>
    ensures ok { OnOk result (out.new ≡ out.old ++ time_text t) }
    ensures err { OnErr result (out.new ≡ out.old) }
{
    let length = out.len();
    let written = write_halves(out, t);
    if written.is_err() {
        out.truncate(length);
    }
    written
}
