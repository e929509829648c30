//! Tests whether senses are a bare circle.
ghost use Rattle.std.specs.Prelude.{◌≡◌, ◌≢◌, ◌<◌, ◌≤◌, ◌↔◌, IsTrue, true, false, length, All, AllPairs, Any};
ghost use Rattle.osm_circle.specs.Circles.{IsBareCircle, IsClosedWalk, first_pipe, is_spool};
ghost use Rattle.osm_graph.specs.Pipes.{pipe_of};

use crate::circle::Sense;
use crate::walking::{is_spool, start_of, walk_end};
use osm_graph::Graph;

fn are_known(graph: &Graph, senses: &[Sense]) -> bool
    ensures { IsTrue result ↔ All (λ s. s.pipe < length graph.now.pipes) senses.now }
{
    let count = graph.pipes();
    senses.iter().all(|sense| sense.pipe < count)
}

fn has_pipe(senses: &[Sense], pipe: u32) -> bool
    ensures { IsTrue result ↔ Any (λ s. s.pipe ≡ pipe) senses.now }
{
    senses.iter().any(|sense| sense.pipe == pipe)
}

fn are_different(senses: &[Sense]) -> bool
    ensures { IsTrue result ↔ AllPairs (λ s t. s.pipe ≢ t.pipe) senses.now }
{
    for at in 0..senses.len() {
        if has_pipe(&senses[..at], senses[at].pipe) {
            return false;
        }
    }
    true
}

fn is_closed(graph: &Graph, senses: &[Sense]) -> bool
    requires long { 0 < length senses.now }
    requires known { All (λ s. s.pipe < length graph.now.pipes) senses.now }
    ensures { IsTrue result ↔ IsClosedWalk graph.now.pipes senses.now }
{
    let start = start_of(graph, senses[0]);
    match walk_end(graph, start, senses) {
        Some(end) => end == start,
        None => false,
    }
}

fn has_along(senses: &[Sense]) -> bool
    ensures { IsTrue result ↔ Any (λ s. s.along ≡ true) senses.now }
{
    senses.iter().any(|sense| sense.along)
}

fn are_bare(graph: &Graph, senses: &[Sense]) -> bool
    requires { All (λ s. s.pipe < length graph.now.pipes) senses.now }
    ensures { IsTrue result ↔ All (λ s. s.along ≡ true
        → is_spool (pipe_of graph.now.pipes s.pipe).store ≡ false) senses.now }
{
    for sense in senses {
        if sense.along && is_spool(graph.pipe(sense.pipe).store) {
            return false;
        }
    }
    true
}

fn is_lowest_first(senses: &[Sense]) -> bool
    requires { 0 < length senses.now }
    ensures { IsTrue result ↔ All (λ s. first_pipe senses.now ≤ s.pipe) senses.now }
{
    let first = senses[0].pipe;
    senses.iter().all(|sense| first <= sense.pipe)
}

/// Whether senses are a bare circle of pipes.
pub(crate) fn is_bare(graph: &Graph, senses: &[Sense]) -> bool
    ensures { IsTrue result ↔ IsBareCircle graph.now.pipes senses.now }
{
    2 <= senses.len()
        && are_known(graph, senses)
        && are_different(senses)
        && is_closed(graph, senses)
        && has_along(senses)
        && are_bare(graph, senses)
        && is_lowest_first(senses)
}
