//! The machines of all kinds of tasks, as machines of a network.
use crate::machine::TaskMachine;
use osm_entity::{Message, NoMemory, Want};
use osm_host::{Sink, Source};
use osm_machine::Machine;

impl<S: Source + Drop, K: Sink + Drop> TaskMachine for Machine<S, K> {
    ghost use Rattle.osm_machine.specs.MachineDevices.{DeviceNames, device_names};
    ghost use Rattle.osm_machine.specs.MachineKinds.{machines};
    ghost use Rattle.osm_net.specs.SourceNames.{kinds_are_lawful, names_source, pullers_name_sources};

    ghost Named = { DeviceNames };

    ghost of = { machines };

    ghost names = { device_names };

    ghost reads = { names_source };

    ghost lawful = { kinds_are_lawful };

    ghost readers = { pullers_name_sources };

    fn want(&self) -> Want {
        Machine::want(self)
    }

    fn pull(&mut self) -> Result<(), NoMemory> {
        Machine::pull(self)
    }

    fn accept(&mut self, port: u32, message: Message) -> Result<(), NoMemory> {
        Machine::accept(self, port, message)
    }

    fn hand(&mut self, port: u32) -> Result<Message, NoMemory> {
        Machine::hand(self, port)
    }
}
