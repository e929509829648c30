//! One task at work over its ports, until its machine has ended or is out of memory.
ghost use Rattle.std.specs.Prelude.{◌≡◌, true, false};
ghost use Rattle.osm_entity.specs.Machines.{IsSameTask};
ghost use Rattle.osm_entity.specs.declared.stream.Want.TheVariants.{Ended};
ghost use Rattle.osm_threads.specs.Work.{HasLeftOff, HasWorked, HaveBrokenOff, HaveSamePipes, IsAtWork};

use crate::ports::{TaskPorts, break_all, drain_all, give_at, take_at};
use osm_entity::Want;
use osm_net::TaskMachine;
use std::sync::Wait;

/// Moves messages between a machine and its ports until the machine has ended: whether it has. Where
/// it hasn't, memory was wanted.
fn drive<M: TaskMachine, R: Wait>(rt: &R, machine: &mut M, ports: &mut TaskPorts) -> bool
    requires { IsAtWork M.of machine.old machine.old ports.old }
    ensures pipes { HaveSamePipes ports.old ports.new }
    ensures same { IsSameTask M.of machine.old machine.new }
    ensures named { M.names machine.new ≡ M.names machine.old }
    ensures work { result ≡ true → IsAtWork M.of machine.old machine.new ports.new }
    ensures ended { result ≡ true → M.of.wanted machine.new ≡ Ended }
    ensures left_off { result ≡ false → HasLeftOff M.of machine.old machine.new ports.new }
{
    for _ in rt.forever() {
        match machine.want() {
            Want::Ended => return true,
            Want::Pull => match machine.pull() {
                Ok(()) => {}
                Err(_) => return false,
            },
            Want::Take(port) => {
                let message = take_at(rt, &mut ports.inlets, port);
                match machine.accept(port, message) {
                    Ok(()) => {}
                    Err(_) => return false,
                }
            }
            Want::Give(port) => match machine.hand(port) {
                Ok(message) => {
                    if give_at(rt, &mut ports.outlets, port, message) {
                        continue;
                    }
                    return false;
                }
                Err(_) => return false,
            },
        }
    }
    unreachable!()
}

/// Gives broken ends, so that no task waits for this one, and then takes all that comes, so that none
/// waits for room.
fn break_off<R: Wait>(rt: &R, ports: &mut TaskPorts)
    ensures pipes { HaveSamePipes ports.old ports.new }
    ensures off { HaveBrokenOff ports.old ports.new }
{
    break_all(rt, &mut ports.outlets);
    drain_all(rt, &mut ports.inlets);
}

/// Works to the machine's end, or until memory was wanted: whether the machine has ended.
pub fn work<M: TaskMachine, R: Wait>(rt: &R, machine: &mut M, ports: &mut TaskPorts) -> bool
    requires { IsAtWork M.of machine.old machine.old ports.old }
    ensures pipes { HaveSamePipes ports.old ports.new }
    ensures same { IsSameTask M.of machine.old machine.new }
    ensures named { M.names machine.new ≡ M.names machine.old }
    ensures worked { HasWorked M.of machine.old machine.new ports.new result }
{
    if drive(rt, machine, ports) {
        return true;
    }
    break_off(rt, ports);
    false
}
