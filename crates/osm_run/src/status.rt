//! The status of a run: its code, its fault, and how far each source was read.
ghost use Rattle.std.specs.Prelude.{◌≡◌, false};
ghost use Rattle.osm_run.specs.Codes.{code_of};

use osm_entity::Sequence;
use osm_report::Fault;

/// How far the source of a reader was read.
#[derive(Clone, Copy, Debug, PartialEq, Eq)]
pub struct SourceEnd {
    /// The reader's task, from 0.
    pub task: u32,
    /// How many bytes its source gave.
    pub given: u64,
    /// Whether it then answered its end.
    pub clean: bool,
}

impl SourceEnd {
    /// The entry of a reader before any task ran.
    pub fn at_rest(task: u32) -> SourceEnd
        ensures { result ≡ record { task = task; given = 0; clean = false } }
    {
        SourceEnd {
            task,
            given: 0,
            clean: false,
        }
    }
}

/// One entry for each reader, in command order; none where the run ended before sinks were made.
pub type Ends = Sequence<SourceEnd>;

/// The status of a run.
#[derive(Debug, Drop)]
pub struct Status {
    /// 0 clean, 2 a refused command, 3 a bare circle, 4 a wrong input, 5 a failed device, 6 out of
    /// memory.
    pub code: u8,
    pub fault: Fault,
    pub ends: Ends,
}

impl Status {
    ghost use Rattle.osm_run.specs.Codes.{code_of};

    /// The status of a run with this fault and these entries.
    pub(crate) fn of(fault: Fault, ends: Ends) -> Status
        ensures code { result.code ≡ code_of fault }
        ensures fault { result.fault ≡ fault }
        ensures ends { result.ends ≡ ends }
    {
        Status {
            code: code_of(&fault),
            fault,
            ends,
        }
    }
}

// The exit status of a run with this fault.
fn code_of(fault: &Fault) -> u8
    ensures { result ≡ code_of fault.now }
{
    match fault {
        Fault::Clean => 0,
        Fault::Words(_) => 2,
        Fault::Task(_) => 2,
        Fault::Graph(_) => 2,
        Fault::Buffering(_) => 3,
        Fault::Input {
            task: _,
            cause: _,
            spot: _,
        } => 4,
        Fault::TooLong { task: _ } => 4,
        Fault::Device { task: _, call: _ } => 5,
        Fault::Memory => 6,
    }
}
