//! Puts items into a sink, each as a line.
ghost use Rattle.std.specs.Prelude.{◌≡◌, [], ◌∷◌, ◌++◌, ℕ, List, IfOk, OnOk, OnErr, Option};
ghost use Rattle.std.specs.Io.KnownBytes.{append_known};
ghost use Rattle.osm_entity.specs.Items.{ItemValue};
ghost use Rattle.osm_host.specs.Counts.{CountsRefusal};
ghost use Rattle.osm_host.specs.Puts.{TakesPrefix};
ghost use Rattle.osm_opl_line.specs.Writing.{line_text};
ghost use Rattle.osm_opl.specs.Written.{TookItems, TookSome};

use osm_entity::{Bytes, Flow, Item, NoMemory};
use osm_host::{HostError, Sink};
use osm_opl_line::write_line;
use std::alloc::Global;
use std::marker::Model;

/// The room for a line at first; a longer line takes more.
const LINE_ROOM: usize = 4096;

/// Writes OPL files, and is seen as the line that it put last. It keeps the room of the longest
/// line so far.
#[derive(Drop)]
pub struct OplWriter {
    line: Bytes,
}

impl Model for OplWriter {
    ghost use Rattle.std.specs.Prelude.{ℕ, List};

    ghost Value = { List ℕ };

    ghost view = { λ w. w.line };
}

impl OplWriter {
    /// A writer of a file of this flow, which has put no line. It is made as a writer of any format
    /// is, and an item's line is the same in both flows: so it needn't keep which one it is.
    pub fn new(alloc: Global, _flow: Flow) -> Result<OplWriter, NoMemory>
        ensures { IfOk result (λ w. w ≡ []) }
    {
        Ok(OplWriter {
            line: Bytes::with_room(alloc, LINE_ROOM)?,
        })
    }

    /// Puts the line of an item, in one put: where the sink took the lines of some items, it then
    /// took this one's too. After an error it took a prefix of that, and the writer isn't called
    /// again.
    pub fn put<K: Sink>(&mut self, sink: &mut K, item: &Item) -> Result<(), HostError>
        // What the sink took by this put.
        ensures ok { OnOk result
            (K.taken sink.new ≡ append_known (K.taken sink.old) (line_text item.now)) }
        ensures err { OnErr result
            (TakesPrefix (line_text item.now) (K.taken sink.old) (K.taken sink.new)) }

        // What it took since it had taken `first`.
        ensures all { OnOk result ((first : Option (List ℕ)) (items : List ItemValue) →
            TookItems first (K.taken sink.old) items →
            TookItems first (K.taken sink.new) (items ++ item.now ∷ [])) }
        ensures some { OnErr result ((first : Option (List ℕ)) (items : List ItemValue) →
            TookItems first (K.taken sink.old) items →
            TookSome first (K.taken sink.new) (items ++ item.now ∷ [])) }

        // What else changes.
        ensures name { K.name sink.new ≡ K.name sink.old }
        ensures faults { CountsRefusal result (K.faults sink.old) (K.faults sink.new) }
        ensures line { OnOk result (self.new ≡ line_text item.now) }
    {
        self.line.truncate(0);
        write_line(&mut self.line, item)?;
        sink.put(self.line.as_slice())
    }
}
