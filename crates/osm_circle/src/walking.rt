//! Walks over pipes: where a sense starts and ends, and where a list of senses leads.
ghost use Rattle.std.specs.Prelude.{◌≡◌, ℕ, ◌<◌, Some, length, All, IfSome, IfNone};
ghost use Rattle.osm_circle.specs.Circles.{IsWalk, is_spool, sense_end, sense_start};

use crate::circle::Sense;
use osm_graph::{Graph, Store};

/// Whether a store takes any number of items.
pub(crate) fn is_spool(store: Store) -> bool
    ensures { result ≡ is_spool store }
{
    matches!(store, Store::Spool)
}

/// The task at which a sense starts.
pub(crate) fn start_of(graph: &Graph, sense: Sense) -> u32
    requires { sense.pipe < length graph.now.pipes }
    ensures { result ≡ sense_start graph.now.pipes sense }
{
    let pipe = graph.pipe(sense.pipe);
    if sense.along { pipe.from } else { pipe.to }
}

/// The task at which a sense ends.
pub(crate) fn end_of(graph: &Graph, sense: Sense) -> u32
    requires { sense.pipe < length graph.now.pipes }
    ensures { result ≡ sense_end graph.now.pipes sense }
{
    let pipe = graph.pipe(sense.pipe);
    if sense.along { pipe.to } else { pipe.from }
}

/// The task to which senses lead from the task `start`. `None` where they are no walk from there.
pub(crate) fn walk_end(graph: &Graph, start: u32, senses: &[Sense]) -> Option<u32>
    requires { All (λ s. s.pipe < length graph.now.pipes) senses.now }
    ensures some { IfSome result (IsWalk graph.now.pipes start senses.now) }
    ensures none { IfNone result ((task : ℕ) → IsWalk graph.now.pipes start senses.now task → ⊥) }
{
    let mut task = start;
    for sense in senses {
        if start_of(graph, *sense) != task {
            return None;
        }
        task = end_of(graph, *sense);
    }
    Some(task)
}
