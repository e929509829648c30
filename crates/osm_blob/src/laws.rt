//! What holds of the frames of any bytes.
ghost use Rattle.std.specs.Prelude.{◌≡◌, ◌≢◌, ◌<◌, ◌≤◌, ℕ, List, ◌++◌, Option, length};
ghost use Rattle.std.specs.List.{flat_map};
ghost use Rattle.osm_entity.specs.declared.verdict.Cause.{Cause};
ghost use Rattle.osm_blob.specs.Leading.{Short, Whole, leading_frame};
ghost use Rattle.osm_blob.specs.Frames.{Bad, frames_of, frames_with_more, frames_with_pieces};
ghost use Rattle.osm_blob.specs.Messages.{raw_limit};
ghost use Rattle.osm_blob.specs.Written.{written_frame};
ghost use Rattle.osm_blob.specs.declared.messages.What.{What};
ghost use Rattle.osm_blob.specs.declared.messages.What.TheVariants.{Other};

/// When more bytes come, the frames before them stay, and go on with what was left. However a file
/// is cut into pieces, its frames are those of the whole. Behind a bad frame nothing changes them.
pub fn frames_go_on()
    ensures more { (bytes more : List ℕ) →
        frames_of (bytes ++ more) ≡ frames_with_more (frames_of bytes) more }
    ensures pieces { (bytes : List ℕ) (pieces : List (List ℕ)) →
        frames_with_pieces (frames_of bytes) pieces
        ≡ frames_of (bytes ++ flat_map (λ p. p) pieces) }
    ensures bad { (bytes more : List ℕ) (cause : Cause) (blamed : Option What) →
        (frames_of bytes).stop ≡ Bad cause blamed → frames_of (bytes ++ more) ≡ frames_of bytes }
{}

/// What bytes begin with stays what it is when more come. Where they are too few to tell, they are
/// fewer than 33,620,995, whatever lengths they say: 4, a blob header and a blob. A whole frame is
/// within the bytes, and its raw content is no longer than the frame.
pub fn leading_frames_stay()
    ensures stays { (bytes more : List ℕ) →
        leading_frame bytes ≢ Short → leading_frame (bytes ++ more) ≡ leading_frame bytes }
    ensures short { (bytes : List ℕ) → leading_frame bytes ≡ Short → length bytes < 33620995 }
    ensures whole { (bytes : List ℕ) (what : What) (raw : List ℕ) (size : ℕ) →
        leading_frame bytes ≡ Whole what raw size →
        (4 ≤ size) × (size ≤ length bytes) × (length raw ≤ size) }
{}

/// A written frame is read back, whatever comes behind it.
pub fn written_frames_read_back()
    ensures { (what : What) (raw more : List ℕ) → what ≢ Other → length raw < raw_limit →
        leading_frame (written_frame what raw ++ more)
        ≡ Whole what raw (length (written_frame what raw)) }
{}
