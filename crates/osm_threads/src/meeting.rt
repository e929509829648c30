//! The meets of all pipes, after all threads were joined.
ghost use Rattle.std.specs.Prelude.{◌≡◌, ◌<◌, true, length, Some, None, IsSome, vec_len};
ghost use Rattle.osm_threads.specs.Meetings.{AreApart, MayAllMeet};
ghost use Rattle.osm_threads.specs.Ports.{in_row, is_shut};
ghost use Rattle.osm_threads.specs.Rows.{HaveMet, IsPutAt, IsPutInRow, half_at, inlets_of, outlets_of};

use crate::ports::{Inlet, Outlet, TaskPorts};
use osm_graph::Pipe;
use osm_pipe::{Sent, Taken, meet};
use std::sync::Wait;

/// Takes what was sent away from a port of a row.
#[tactic(auto, using(crate::proofs::PortLemmas::within_row, crate::proofs::RowLemmas::put_in_row))]
fn sent_in_row(outlets: &mut Vec<Outlet>, port: u32) -> Sent
    requires there { IsSome (in_row outlets.old.items port) }
    requires shut { is_shut (in_row outlets.old.items port) ≡ true }
    ensures sent { in_row outlets.old.items port ≡ Some result }
    ensures rest { IsPutInRow outlets.old.items outlets.new.items port None }
{
    let outlet = &mut outlets[port as usize];
    outlet.leave()
}

/// Takes what was taken away from a port of a row.
#[tactic(auto, using(crate::proofs::PortLemmas::within_row, crate::proofs::RowLemmas::put_in_row))]
fn taken_in_row(inlets: &mut Vec<Inlet>, port: u32) -> Taken
    requires { IsSome (in_row inlets.old.items port) }
    ensures taken { in_row inlets.old.items port ≡ Some result }
    ensures rest { IsPutInRow inlets.old.items inlets.new.items port None }
{
    let inlet = &mut inlets[port as usize];
    inlet.leave()
}

/// Takes what was sent away from a port of a task.
#[tactic(auto, using(crate::proofs::RowLemmas::outlets_at, crate::proofs::RowLemmas::inlets_same))]
fn sent_of(tasks: &mut Vec<TaskPorts>, task: u32, port: u32) -> Sent
    requires exists { task < vec_len tasks.old }
    requires there { IsSome (half_at (outlets_of tasks.old.items) task port) }
    requires shut { is_shut (half_at (outlets_of tasks.old.items) task port) ≡ true }
    ensures sent { half_at (outlets_of tasks.old.items) task port ≡ Some result }
    ensures rest { IsPutAt (outlets_of tasks.old.items) (outlets_of tasks.new.items) task port None }
    ensures inlets { inlets_of tasks.new.items ≡ inlets_of tasks.old.items }
    ensures count { vec_len tasks.new ≡ vec_len tasks.old }
{
    let ports = &mut tasks[task as usize];
    sent_in_row(&mut ports.outlets, port)
}

/// Takes what was taken away from a port of a task.
#[tactic(auto, using(crate::proofs::RowLemmas::inlets_at, crate::proofs::RowLemmas::outlets_same))]
fn taken_of(tasks: &mut Vec<TaskPorts>, task: u32, port: u32) -> Taken
    requires exists { task < vec_len tasks.old }
    requires there { IsSome (half_at (inlets_of tasks.old.items) task port) }
    ensures taken { half_at (inlets_of tasks.old.items) task port ≡ Some result }
    ensures rest { IsPutAt (inlets_of tasks.old.items) (inlets_of tasks.new.items) task port None }
    ensures outlets { outlets_of tasks.new.items ≡ outlets_of tasks.old.items }
    ensures count { vec_len tasks.new ≡ vec_len tasks.old }
{
    let ports = &mut tasks[task as usize];
    taken_in_row(&mut ports.inlets, port)
}

/// Joins the two halves of each pipe.
pub fn meet_all<R: Wait>(rt: &R, pipes: &[Pipe], mut tasks: Vec<TaskPorts>)
    requires apart { AreApart pipes.now (vec_len tasks) }
    requires may { MayAllMeet pipes.now (inlets_of tasks.items) (outlets_of tasks.items) }
    ensures { HaveMet pipes.now (length pipes.now) (inlets_of tasks.items) (outlets_of tasks.items) }
{
    for pipe in pipes {
        let sent = sent_of(&mut tasks, pipe.from, pipe.from_port);
        let taken = taken_of(&mut tasks, pipe.to, pipe.to_port);
        meet(rt, sent, taken);
    }
}
