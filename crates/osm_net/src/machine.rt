//! Machines as a network sees them: by their contract alone.
ghost use Rattle.std.specs.Prelude.{◌≡◌, true, Bool, IfOk, OnErr, OnOk};
ghost use Rattle.osm_entity.specs.Calls.{Gives, Pulls, StopsInGive, StopsInPull, StopsInTake, Takes};
ghost use Rattle.osm_entity.specs.Machines.{AreLawful, IsSameTask, Meanings};
ghost use Rattle.osm_entity.specs.declared.stream.Want.TheVariants.{Give, Pull, Take};

use osm_entity::{Message, NoMemory, Want};

/// One task at work, one message at a time. After `NoMemory` it isn't called again. It keeps its
/// name, which says also whether it reads a source: only such a task pulls.
pub trait TaskMachine {
    ghost Named: { Type 0 };

    ghost of: { Meanings Self };

    ghost names: { Self → Named };

    ghost reads: { Named → Bool };

    /// What the task can do next.
    fn want(&self) -> Want
        ensures { result ≡ of.wanted self.now };

    /// Pulls a piece of the task's source, where it wants that.
    fn pull(&mut self) -> Result<(), NoMemory>
        requires { of.wanted self.old ≡ Pull }
        ensures pulls { OnOk result (Pulls of self.old self.new) }
        ensures stops { OnErr result (StopsInPull of self.old self.new) }
        ensures same { IsSameTask of self.old self.new }
        ensures names { names self.new ≡ names self.old };

    /// Takes a message at an input, where it wants that.
    fn accept(&mut self, port: u32, message: Message) -> Result<(), NoMemory>
        requires { of.wanted self.old ≡ Take port }
        ensures takes { OnOk result (Takes of port message self.old self.new) }
        ensures stops { OnErr result (StopsInTake of port message self.old self.new) }
        ensures same { IsSameTask of self.old self.new }
        ensures names { names self.new ≡ names self.old };

    /// Gives the next message at an output, where it wants that.
    fn hand(&mut self, port: u32) -> Result<Message, NoMemory>
        requires { of.wanted self.old ≡ Give port }
        ensures gives { IfOk result (λ message. Gives of port message self.old self.new) }
        ensures stops { OnErr result (StopsInGive of self.old self.new) }
        ensures same { IsSameTask of self.old self.new }
        ensures names { names self.new ≡ names self.old };

    ghost lawful: { AreLawful of };

    ghost readers: { (m : Self) → of.wanted m ≡ Pull → reads (names m) ≡ true };
}
