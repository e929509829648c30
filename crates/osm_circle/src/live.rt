//! Marks on the senses that can still lie in a bare circle.
ghost use Rattle.std.specs.Prelude.{◌≡◌, ◌≢◌, ◌+◌, ◌<◌, ◌≤◌, true, false, length};
ghost use Rattle.osm_circle.specs.Search.{IsUsable, is_live, live_count};
ghost use Rattle.osm_circle.specs.declared.circle.Sense.{Sense};

use crate::circle::Sense;
use crate::walking::is_spool;
use osm_graph::Graph;

/// Which senses can still lie in a bare circle, by pipe.
#[derive(Drop)]
pub(crate) struct Live {
    along: [bool; 128],
    against: [bool; 128],
}

impl Live {
    /// All senses but those along a spool.
    pub(crate) fn of(graph: &Graph) -> Live
        requires { length graph.now.pipes ≤ 128 }
        ensures usable { (s : Sense) → is_live result s ≡ true → IsUsable graph.now.pipes s }
        ensures all { (s : Sense) → IsUsable graph.now.pipes s → is_live result s ≡ true }
    {
        let mut along = [false; 128];
        let mut against = [false; 128];
        for pipe in 0..graph.pipes() {
            along[pipe as usize] = !is_spool(graph.pipe(pipe).store);
            against[pipe as usize] = true;
        }
        Live { along, against }
    }

    /// Whether a sense is marked.
    pub(crate) fn has(&self, sense: Sense) -> bool
        requires { sense.pipe < 128 }
        ensures { result ≡ is_live self.now sense }
    {
        if sense.along {
            self.along[sense.pipe as usize]
        } else {
            self.against[sense.pipe as usize]
        }
    }

    /// Takes the mark of a sense.
    pub(crate) fn remove(&mut self, sense: Sense)
        requires { sense.pipe < 128 }
        ensures others { (s : Sense) → s ≢ sense → is_live self.new s ≡ is_live self.old s }
        ensures fewer { (s : Sense) → is_live self.new s ≡ true → is_live self.old s ≡ true }
        ensures count { is_live self.old sense ≡ true
            → live_count self.new + 1 ≡ live_count self.old }
    {
        if sense.along {
            self.along[sense.pipe as usize] = false;
        } else {
            self.against[sense.pipe as usize] = false;
        }
    }
}
