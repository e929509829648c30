//! Examples of numbers and times by their definitions, where no line of a file shows them: degrees
//! past those of a place, and texts that no field has. Worked out by hand.
ghost use Rattle.std.specs.Prelude.{◌≡◌, ◌^◌, [], pos, negsuc, codes, None, Some};
ghost use Rattle.osm_text.specs.Nano.{nano};
ghost use Rattle.osm_text.specs.Numbers.{nano_text, whole};
ghost use Rattle.osm_text.specs.Times.{time};

/// Degrees past those of a place are read up to 10^9, cut behind the ninth decimal, and written.
pub fn far_degrees()
    ensures read { nano (codes "1234.5") ≡ Some (pos 1234500000000) }
    ensures nines { nano (codes "999999999.999999999") ≡ Some (pos 999999999999999999) }
    ensures most { nano (codes "1000000000") ≡ Some (pos (10 ^ 18)) }
    ensures exponent { nano (codes "1e9") ≡ Some (pos (10 ^ 18)) }
    ensures cut { nano (codes "1000000000.0000000009") ≡ Some (pos (10 ^ 18)) }
    ensures long { nano (codes "1.0000000000000000001e9") ≡ Some (pos (10 ^ 18)) }
    ensures negative { nano (codes "-1.0000000000000000009e9") ≡ Some (negsuc 999999999999999999) }
    ensures written { nano_text (pos (10 ^ 18)) ≡ codes "1000000000" }
{}

/// The empty text and a text with a space are no number of degrees, no whole number and no time.
pub fn no_numbers_and_times()
    ensures no_degrees { nano [] ≡ None }
    ensures space_before { nano (codes " 1") ≡ None }
    ensures space_after { nano (codes "1 ") ≡ None }
    ensures no_number { whole (codes " 1") ≡ None }
    ensures no_time { time [] ≡ None }
    ensures space_within { time (codes "2010-01-01 00:00:00Z") ≡ None }
{}
