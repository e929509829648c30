//! Laws over the texts of numbers: what is written reads back.
ghost use Rattle.std.specs.Prelude.{◌≡◌, ◌≤◌, ◌^◌, ℤ, Some, FitsSigned, nat_abs};
ghost use Rattle.std.specs.Fmt.{signed_decimal};
ghost use Rattle.std.specs.Int.{w64};
ghost use Rattle.osm_text.specs.Nano.{nano};
ghost use Rattle.osm_text.specs.Numbers.{nano_text, whole};

/// The text of each whole number within 64 bits reads back.
pub fn whole_reads_back()
    ensures { (z : ℤ) → FitsSigned w64 z → whole (signed_decimal z) ≡ Some z }
{}

/// The text of each number up to 10^18 nanodegrees in size reads back.
pub fn nano_reads_back()
    ensures { (z : ℤ) → nat_abs z ≤ 10 ^ 18 → nano (nano_text z) ≡ Some z }
{}
