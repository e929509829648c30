//! The law over escaped texts: what is written reads back.
ghost use Rattle.std.specs.Prelude.{◌≡◌, ℕ, List, Some};
ghost use Rattle.osm_text.specs.Escapes.{escaped, unescaped};

/// The escaped form of each text reads back, of any bytes at all.
pub fn escaped_reads_back()
    ensures { (text : List ℕ) → unescaped (escaped text) ≡ Some text }
{}
