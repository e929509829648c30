//! The pipes of a graph, made and put at the ports of its tasks.
ghost use Rattle.std.specs.Prelude.{◌≡◌, ◌<◌, ◌≤◌, ℕ, [], false, length, Some, None, IfOk, OnOk, vec_capacity, vec_len};
ghost use Rattle.osm_entity.specs.Ports.{has_end};
ghost use Rattle.osm_net.specs.Nets.{CanHold, HasRoom};
ghost use Rattle.osm_pipe.specs.Pipes.{capacity_of, half};
ghost use Rattle.osm_threads.specs.Meetings.{AreApart};
ghost use Rattle.osm_threads.specs.Ports.{in_row};
ghost use Rattle.osm_threads.specs.Rows.{AreMade, HaveNothing, IsPutAt, IsPutInRow, inlets_of, limit_of, outlets_of};

use crate::ports::{Inlet, Outlet, TaskPorts};
use osm_entity::NoMemory;
use osm_graph::{Pipe, Store};
use osm_pipe::{Giver, Taker, bounded, spool};
use std::alloc::Global;
use std::sync::Wait;

/// Makes a row of outputs at least this long.
#[tactic(auto, using(crate::proofs::RowLemmas::grown_row))]
fn grow_outlets(outlets: &mut Vec<Outlet>, count: usize) -> Result<(), NoMemory>
    ensures same { (p : ℕ) → in_row outlets.new.items p ≡ in_row outlets.old.items p }
    ensures long { OnOk result (count ≤ vec_len outlets.new) }
{
    for number in outlets.len()..count {
        let _number = number;
        match outlets.push(Outlet::new()) {
            Ok(()) => {}
            Err(_) => return Err(NoMemory),
        }
    }
    Ok(())
}

/// Makes a row of inputs at least this long.
#[tactic(auto, using(crate::proofs::RowLemmas::grown_row))]
fn grow_inlets(inlets: &mut Vec<Inlet>, count: usize) -> Result<(), NoMemory>
    ensures same { (p : ℕ) → in_row inlets.new.items p ≡ in_row inlets.old.items p }
    ensures long { OnOk result (count ≤ vec_len inlets.new) }
{
    for number in inlets.len()..count {
        let _number = number;
        match inlets.push(Inlet::new()) {
            Ok(()) => {}
            Err(_) => return Err(NoMemory),
        }
    }
    Ok(())
}

/// Puts the giver of a pipe at a port of a row.
#[tactic(auto, using(crate::proofs::RowLemmas::put_grown))]
fn put_giver(outlets: &mut Vec<Outlet>, port: u32, giver: Giver) -> Result<(), NoMemory>
    requires { has_end giver.list ≡ false }
    ensures { OnOk result (IsPutInRow outlets.old.items outlets.new.items port (Some giver)) }
{
    grow_outlets(outlets, port as usize + 1)?;
    outlets[port as usize] = Outlet::of(giver);
    Ok(())
}

/// Puts the taker of a pipe at a port of a row.
#[tactic(auto, using(crate::proofs::RowLemmas::put_grown))]
fn put_taker(inlets: &mut Vec<Inlet>, port: u32, taker: Taker) -> Result<(), NoMemory>
    requires { has_end taker.list ≡ false }
    ensures { OnOk result (IsPutInRow inlets.old.items inlets.new.items port (Some taker)) }
{
    grow_inlets(inlets, port as usize + 1)?;
    inlets[port as usize] = Inlet::of(taker);
    Ok(())
}

/// Puts the giver of a pipe at a port of a task.
#[tactic(auto, using(crate::proofs::RowLemmas::outlets_put, crate::proofs::RowLemmas::inlets_same))]
fn join_giver(
    tasks: &mut Vec<TaskPorts>,
    task: u32,
    port: u32,
    giver: Giver,
) -> Result<(), NoMemory>
    requires exists { task < vec_len tasks.old }
    requires open { has_end giver.list ≡ false }
    ensures outlets { OnOk result
        (IsPutAt (outlets_of tasks.old.items) (outlets_of tasks.new.items) task port (Some giver)) }
    ensures inlets { inlets_of tasks.new.items ≡ inlets_of tasks.old.items }
    ensures count { vec_len tasks.new ≡ vec_len tasks.old }
{
    let ports = &mut tasks[task as usize];
    put_giver(&mut ports.outlets, port, giver)
}

/// Puts the taker of a pipe at a port of a task.
#[tactic(auto, using(crate::proofs::RowLemmas::inlets_put, crate::proofs::RowLemmas::outlets_same))]
fn join_taker(
    tasks: &mut Vec<TaskPorts>,
    task: u32,
    port: u32,
    taker: Taker,
) -> Result<(), NoMemory>
    requires exists { task < vec_len tasks.old }
    requires open { has_end taker.list ≡ false }
    ensures inlets { OnOk result
        (IsPutAt (inlets_of tasks.old.items) (inlets_of tasks.new.items) task port (Some taker)) }
    ensures outlets { outlets_of tasks.new.items ≡ outlets_of tasks.old.items }
    ensures count { vec_len tasks.new ≡ vec_len tasks.old }
{
    let ports = &mut tasks[task as usize];
    put_taker(&mut ports.inlets, port, taker)
}

/// A new pipe that holds as much as a graph's pipe.
fn new_pipe<R: Wait>(rt: &R, alloc: Global, store: Store) -> Result<(Giver, Taker), NoMemory>
    requires { HasRoom store 0 }
    ensures new { IfOk result (λ r. (r.0 ≡ half r.0.pipe []) × (r.1 ≡ half r.0.pipe [])) }
    ensures limit { IfOk result (λ r. capacity_of r.0.pipe ≡ limit_of store) }
{
    match store {
        Store::Bounded(capacity) => bounded(rt, alloc, capacity),
        Store::Spool => spool(rt, alloc),
    }
}

/// Room for this many values.
pub fn room<T: Drop>(alloc: Global, count: usize) -> Result<Vec<T>, NoMemory>
    ensures none { IfOk result (λ values. values.items ≡ []) }
    ensures room { IfOk result (λ values. count ≤ vec_capacity values) }
{
    match Vec::with_capacity(alloc, count) {
        Ok(values) => Ok(values),
        Err(_) => Err(NoMemory),
    }
}

/// Ports of tasks that have no pipe yet.
#[tactic(auto, using(crate::proofs::RowLemmas::nothing_yet, crate::proofs::RowLemmas::nothing_more))]
pub fn bare_tasks(alloc: Global, count: usize) -> Result<Vec<TaskPorts>, NoMemory>
    ensures none { IfOk result (λ tasks. HaveNothing tasks.items) }
    ensures count { IfOk result (λ tasks. vec_len tasks ≡ count) }
{
    let mut tasks = room(alloc, count)?;
    for number in 0..count {
        let _number = number;
        tasks.push_reserved(TaskPorts {
            inlets: Vec::new(alloc),
            outlets: Vec::new(alloc),
        });
    }
    Ok(tasks)
}

/// Makes each pipe of a graph, and puts its halves at their ports.
#[tactic(auto, using(crate::proofs::PipeLemmas::none_made))]
pub fn join_all<R: Wait>(
    rt: &R,
    alloc: Global,
    pipes: &[Pipe],
    tasks: &mut Vec<TaskPorts>,
) -> Result<(), NoMemory>
    requires apart { AreApart pipes.now (vec_len tasks.old) }
    requires hold { CanHold pipes.now }
    requires none { HaveNothing tasks.old.items }
    ensures made { OnOk result (AreMade pipes.now (length pipes.now)
        (inlets_of tasks.new.items) (outlets_of tasks.new.items)) }
    ensures count { vec_len tasks.new ≡ vec_len tasks.old }
{
    for pipe in pipes {
        let (giver, taker) = new_pipe(rt, alloc, pipe.store)?;
        join_giver(tasks, pipe.from, pipe.from_port, giver)?;
        join_taker(tasks, pipe.to, pipe.to_port, taker)?;
    }
    Ok(())
}
