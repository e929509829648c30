//! How it stands with the puts of a writer.
ghost use Rattle.std.specs.Prelude.{◌≡◌, ◌≢◌, ◌↔◌, IsTrue, OnErr, OnOk};
ghost use Rattle.osm_machine.specs.Sinks.{puts_after};
ghost use Rattle.osm_machine.specs.declared.puts.Puts.TheVariants.{Good, Stopped};

use osm_entity::NoMemory;
use osm_host::HostError;

/// How it stands with the puts of a writer.
#[derive(Clone, Copy, Debug, PartialEq, Eq)]
pub enum Puts {
    /// All were taken.
    Good,
    /// The last one failed; none comes after it.
    Refused,
    /// The last one was out of memory; none comes after it.
    Stopped,
}

impl Puts {
    /// How it stands after a put that answered so.
    pub fn after(put: Result<(), HostError>) -> Puts
        ensures { result ≡ puts_after put }
    {
        match put {
            Ok(()) => Puts::Good,
            Err(HostError::Failed) => Puts::Refused,
            Err(HostError::Memory) => Puts::Stopped,
        }
    }

    /// Whether all were taken.
    pub fn is_good(self) -> bool
        ensures { IsTrue result ↔ self ≡ Good }
    {
        matches!(self, Puts::Good)
    }

    /// Whether the writer may go on: `NoMemory` exactly where a put was out of memory.
    pub fn go_on(self) -> Result<(), NoMemory>
        ensures ok { OnOk result (self ≢ Stopped) }
        ensures err { OnErr result (self ≡ Stopped) }
    {
        match self {
            Puts::Good | Puts::Refused => Ok(()),
            Puts::Stopped => Err(NoMemory),
        }
    }
}
