//! The search for a bare circle.
//!
//! It walks from task to task over live senses, never back over the pipe that it came by. Where it
//! comes to a task of the walk again, it has a circle. Where no live sense is left, the last one
//! lies in no bare circle: it loses its mark, and the walk steps back. So it walks over each sense
//! at most once, and looks at each pipe and at each task of the walk once a step.
ghost use Rattle.std.specs.Prelude.{◌≡◌, ◌≢◌, ◌<◌, ◌≤◌, true, List, Some, None, Option, length, get_or, All, IfSome, IfNone, IfErr, OnOk};
ghost use Rattle.osm_circle.specs.Circles.{IsBareCircle, sense_start};
ghost use Rattle.osm_circle.specs.Search.{CanFollow, IsForward, IsRing, is_live};
ghost use Rattle.osm_circle.specs.declared.circle.Sense.{Sense};

use crate::circle::{Circle, Sense};
use crate::live::Live;
use crate::walking::{end_of, start_of};
use arrayvec::ArrayVec;
use osm_graph::Graph;

// The sense over a pipe with which a walk goes on from its last sense, if there is one.
fn sense_over(graph: &Graph, last: Option<Sense>, pipe: u32) -> Option<Sense>
    requires forward { IsForward graph.now.pipes }
    requires exists { pipe < length graph.now.pipes }
    requires known { IfSome last (λ s. s.pipe < length graph.now.pipes) }
    ensures some { IfSome result (λ s. (s.pipe ≡ pipe) × CanFollow graph.now.pipes last s) }
    ensures only { (s : Sense) → s.pipe ≡ pipe → CanFollow graph.now.pipes last s
        → result ≡ Some s }
{
    let Some(last) = last else {
        return Some(Sense { pipe, along: true });
    };
    let task = end_of(graph, last);
    if pipe == last.pipe {
        None
    } else if graph.pipe(pipe).from == task {
        Some(Sense { pipe, along: true })
    } else if graph.pipe(pipe).to == task {
        Some(Sense { pipe, along: false })
    } else {
        None
    }
}

// The first live sense with which a walk goes on from its last sense.
fn next_sense(graph: &Graph, live: &Live, last: Option<Sense>) -> Option<Sense>
    requires forward { IsForward graph.now.pipes }
    requires few { length graph.now.pipes ≤ 128 }
    requires known { IfSome last (λ s. s.pipe < length graph.now.pipes) }
    ensures some { IfSome result (λ s. (is_live live.now s ≡ true)
        × CanFollow graph.now.pipes last s) }
    ensures known { IfSome result (λ s. s.pipe < length graph.now.pipes) }
    ensures none { IfNone result ((s : Sense) → s.pipe < length graph.now.pipes
        → CanFollow graph.now.pipes last s → is_live live.now s ≡ true → ⊥) }
{
    for pipe in 0..graph.pipes() {
        if let Some(sense) = sense_over(graph, last, pipe) {
            if live.has(sense) {
                return Some(sense);
            }
        }
    }
    None
}

// The place of the sense of a walk that starts at a task, if there is one.
fn place_of(graph: &Graph, walk: &[Sense], task: u32) -> Option<usize>
    requires { All (λ s. s.pipe < length graph.now.pipes) walk.now }
    ensures some { IfSome result (λ at. (at < length walk.now)
        × ((d : Sense) → sense_start graph.now.pipes (get_or walk.now at d) ≡ task)) }
    ensures none { IfNone result (All (λ s. sense_start graph.now.pipes s ≢ task) walk.now) }
{
    for at in 0..walk.len() {
        if start_of(graph, walk[at]) == task {
            return Some(at);
        }
    }
    None
}

// The place of the sense over the lowest pipe.
fn lowest_of(senses: &[Sense]) -> usize
    requires { 0 < length senses.now }
    ensures place { result < length senses.now }
    ensures lowest { (d : Sense)
        → All (λ s. (get_or senses.now result d).pipe ≤ s.pipe) senses.now }
{
    let mut lowest = 0;
    for at in 0..senses.len() {
        if senses[at].pipe < senses[lowest].pipe {
            lowest = at;
        }
    }
    lowest
}

// The circle of senses that lead back to where they start, from its lowest pipe on.
fn circle_of(graph: &Graph, senses: &[Sense]) -> Circle
    requires forward { IsForward graph.now.pipes }
    requires few { length senses.now ≤ 128 }
    requires ring { IsRing graph.now.pipes senses.now }
    ensures { IsBareCircle graph.now.pipes result }
{
    let mut circle = Circle::of(senses);
    circle.turn(lowest_of(senses));
    circle
}

/// Looks for a bare circle of a graph, and takes no memory. `Err` exactly where there is one, with
/// one of them.
pub fn check(graph: &Graph) -> Result<(), Circle>
    ensures none { OnOk result ((circle : List Sense) → IsBareCircle graph.now.pipes circle → ⊥) }
    ensures found { IfErr result (IsBareCircle graph.now.pipes) }
{
    graph.kept();
    let mut live = Live::of(graph);
    let mut walk: ArrayVec<Sense, 128> = ArrayVec::new();
    loop {
        match next_sense(graph, &live, walk.last().copied()) {
            Some(next) => {
                let place = place_of(graph, walk.as_slice(), end_of(graph, next));
                walk.push(next);
                if let Some(at) = place {
                    return Err(circle_of(graph, &walk.as_slice()[at..]));
                }
            }
            None => match walk.pop() {
                Some(last) => live.remove(last),
                None => return Ok(()),
            },
        }
    }
}
