//! Runs and groups of a ring's edges, with bounds round each, so that a place is compared with few
//! of the edges: with those of the runs whose bounds don't tell how many count. A run is 32 edges
//! that follow each other, and a group 32 runs.
ghost use Rattle.std.specs.Prelude.{◌≡◌, true, IfOk, IsTrue, drop, take};
ghost use Rattle.std.specs.List.{count_by, list_all};
ghost use Rattle.osm_area.specs.Bounds.{bounds_hold, groups_fit, runs_fit};
ghost use Rattle.osm_area.specs.Edges.{counts, is_odd, is_ring_place, steps};

use crate::bounds::{Bounds, bounds_of, lie_east, reach};
use crate::edge::{eastern_counts_odd, path_counts_odd};
use osm_entity::{NoMemory, Place, Sequence};
use std::alloc::Global;

/// The edges of a run.
const RUN: usize = 32;

/// The edges of a group.
const GROUP: usize = 1024;

/// Bounds round all edges of a group, and round each of its runs.
#[derive(Debug, Drop)]
pub(crate) struct Group {
    bounds: Bounds,
    runs: Sequence<Bounds>,
}

/// The places of a path up to the end of its first run.
fn first_run(path: &[Place]) -> &[Place]
    ensures { result.now ≡ take 33 path.now }
{
    if path.len() > RUN {
        return &path[..RUN + 1];
    }
    path
}

/// The places of a path from the end of its first run on.
fn after_run(path: &[Place]) -> &[Place]
    ensures { result.now ≡ drop 32 path.now }
{
    if path.len() > RUN {
        return &path[RUN..];
    }
    &path[path.len()..]
}

/// The places of a path up to the end of its first group.
fn first_group(path: &[Place]) -> &[Place]
    ensures { result.now ≡ take 1025 path.now }
{
    if path.len() > GROUP {
        return &path[..GROUP + 1];
    }
    path
}

/// The places of a path from the end of its first group on.
fn after_group(path: &[Place]) -> &[Place]
    ensures { result.now ≡ drop 1024 path.now }
{
    if path.len() > GROUP {
        return &path[GROUP..];
    }
    &path[path.len()..]
}

/// The bounds of the runs of a path.
fn runs_of(alloc: Global, path: &[Place]) -> Result<Sequence<Bounds>, NoMemory>
    ensures { IfOk result (λ runs. runs_fit runs path.now ≡ true) }
{
    let mut runs = Sequence::new(alloc);
    let mut rest = path;
    while rest.len() > 1 {
        runs.push(bounds_of(first_run(rest)))?;
        rest = after_run(rest);
    }
    Ok(runs)
}

/// The groups of a path.
pub(crate) fn groups_of(alloc: Global, path: &[Place]) -> Result<Sequence<Group>, NoMemory>
    ensures { IfOk result (λ groups. groups_fit groups path.now ≡ true) }
{
    let mut groups = Sequence::new(alloc);
    let mut rest = path;
    while rest.len() > 1 {
        let group = first_group(rest);
        let runs = runs_of(alloc, group)?;
        groups.push(Group {
            bounds: bounds_of(group),
            runs,
        })?;
        rest = after_group(rest);
    }
    Ok(groups)
}

/// Whether an odd number of the edges of a run count for a place.
fn run_counts_odd(run: &[Place], bounds: &Bounds, place: &Place) -> bool
    requires places { IsTrue (list_all is_ring_place run.now) }
    requires fits { list_all (bounds_hold bounds.now) run.now ≡ true }
    ensures { result ≡ is_odd (count_by (counts place.now) (steps run.now)) }
{
    if !reach(bounds, place) {
        return false;
    }
    if lie_east(bounds, place) {
        return eastern_counts_odd(run, place);
    }
    path_counts_odd(run, place)
}

/// Whether an odd number of the edges of a path in runs count for a place.
fn runs_count_odd(path: &[Place], runs: &[Bounds], place: &Place) -> bool
    requires places { IsTrue (list_all is_ring_place path.now) }
    requires fits { runs_fit runs.now path.now ≡ true }
    ensures { result ≡ is_odd (count_by (counts place.now) (steps path.now)) }
{
    let mut odd = false;
    let mut rest = path;
    for run in runs {
        odd = odd != run_counts_odd(first_run(rest), run, place);
        rest = after_run(rest);
    }
    odd
}

/// Whether an odd number of the edges of a group count for a place.
fn group_counts_odd(path: &[Place], group: &Group, place: &Place) -> bool
    requires places { IsTrue (list_all is_ring_place path.now) }
    requires whole { list_all (bounds_hold group.now.bounds) path.now ≡ true }
    requires runs { runs_fit group.now.runs path.now ≡ true }
    ensures { result ≡ is_odd (count_by (counts place.now) (steps path.now)) }
{
    if !reach(&group.bounds, place) {
        return false;
    }
    if lie_east(&group.bounds, place) {
        return eastern_counts_odd(path, place);
    }
    runs_count_odd(path, group.runs.as_slice(), place)
}

/// Whether an odd number of the edges of a path in groups count for a place.
pub(crate) fn groups_count_odd(path: &[Place], groups: &[Group], place: &Place) -> bool
    requires places { IsTrue (list_all is_ring_place path.now) }
    requires fits { groups_fit groups.now path.now ≡ true }
    ensures { result ≡ is_odd (count_by (counts place.now) (steps path.now)) }
{
    let mut odd = false;
    let mut rest = path;
    for group in groups {
        odd = odd != group_counts_odd(first_group(rest), group, place);
        rest = after_group(rest);
    }
    odd
}
