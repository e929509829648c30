//! Laws over the calendar and the texts of times: days follow one another, and what is written
//! reads back.
ghost use Rattle.std.specs.Prelude.{◌≡◌, ◌<◌, ◌+◌, ◌^◌, ℕ, Some, true};
ghost use Rattle.osm_text.specs.Times.{DateValue, date_after, day_number, is_date, next_date};
ghost use Rattle.osm_text.specs.Times.{time, time_text};

/// The day after a date that exists has the next number: in a month, at its end and at the year's.
pub fn days_follow()
    ensures { (d : DateValue) → is_date d.year d.month d.day ≡ true →
        day_number (next_date d).year (next_date d).month (next_date d).day
        ≡ day_number d.year d.month d.day + 1 }
{}

/// The date a number of days after 1970-01-01 has that day number.
pub fn dates_have_their_numbers()
    ensures { (n : ℕ) →
        day_number (date_after n).year (date_after n).month (date_after n).day ≡ n }
{}

/// The text of each time reads back.
pub fn time_reads_back()
    ensures { (t : ℕ) → t < 2 ^ 32 → time (time_text t) ≡ Some t }
{}
