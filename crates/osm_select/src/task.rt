//! The machine of the tasks bounding-box and bounding-polygon.
ghost use Rattle.std.specs.Prelude.{◌≡◌, IfOk, IsOk, OnErr, OnOk};
ghost use Rattle.osm_entity.specs.Calls.{Gives, StopsInTake, Takes};
ghost use Rattle.osm_entity.specs.Machines.{IsNew, IsSameTask};
ghost use Rattle.osm_entity.specs.OneInput.{meanings_of};
ghost use Rattle.osm_entity.specs.declared.stream.Want.TheVariants.{Give, Take};
ghost use Rattle.osm_select.specs.Selected.{area_holds, area_selected};
ghost use Rattle.osm_select.specs.Selecting.{selecting};

use crate::holding::Holding;
use crate::passing::Passing;
use osm_area::Area;
use osm_entity::{AreaOptions, Message, NoMemory, Verdict, Want};
use std::alloc::Global;
use std::marker::Model;

/// How a task goes about it.
#[derive(Drop)]
enum Course {
    /// It judges each item as it comes.
    Passes(Passing),
    /// It holds its items until their end.
    Holds(Holding),
}

/// Whether a task has to hold its items: a later item can then decide on an earlier one.
fn looks_ahead(options: AreaOptions) -> bool
    ensures { result ≡ area_holds options }
{
    options.complete_ways || options.cascading_relations
}

impl Course {
    fn new(alloc: Global, area: Area, options: AreaOptions) -> Self
        ensures new { IsNew (meanings_of selecting) result }
        ensures rule { selecting.rule result ≡ area_selected area options }
        ensures holds { selecting.holds result ≡ area_holds options }
    {
        if looks_ahead(options) {
            let complete = options.complete_ways;
            return Course::Holds(Holding::new(alloc, area, complete, options.clip));
        }
        Course::Passes(Passing::new(alloc, area, options.clip))
    }

    fn accept(&mut self, port: u32, message: Message) -> Result<(), NoMemory>
        requires { selecting.wanted self.old ≡ Take port }
        ensures takes { OnOk result (Takes (meanings_of selecting) port message self.old self.new) }
        ensures stops { OnErr result
            (StopsInTake (meanings_of selecting) port message self.old self.new) }
        ensures same { IsSameTask (meanings_of selecting) self.old self.new }
    {
        match self {
            Course::Passes(passing) => passing.accept(port, message),
            Course::Holds(holding) => holding.accept(port, message),
        }
    }

    fn hand(&mut self, port: u32) -> Message
        requires { selecting.wanted self.old ≡ Give port }
        ensures gives { Gives (meanings_of selecting) port result self.old self.new }
        ensures same { IsSameTask (meanings_of selecting) self.old self.new }
    {
        match self {
            Course::Passes(passing) => passing.hand(port),
            Course::Holds(holding) => holding.hand(port),
        }
    }
}

/// Gives the items of a stream that an area keeps (`docs/COMMANDS.md`, "Choosing").
///
/// Where no option looks ahead it holds the ids of what it kept and one message. Where ways are
/// completed or relations cascade it holds all items of its input until their end, those outside
/// too; then the ids of what it keeps and, for each member that is a relation, an id or two; and
/// where it clips the ids of what it gives.
#[derive(Drop)]
pub struct AreaTask {
    course: Course,
}

impl Model for AreaTask {
    ghost use Rattle.osm_select.specs.declared.task.Course.{Course};

    ghost Value = { Course };

    ghost view = { λ t. t.course };
}

impl AreaTask {
    /// A task that took nothing yet. It takes no memory, and always answers `Ok`.
    pub fn new(alloc: Global, area: Area, options: AreaOptions) -> Result<AreaTask, NoMemory>
        ensures new { IfOk result (IsNew (meanings_of selecting)) }
        ensures rule { IfOk result (λ task. selecting.rule task ≡ area_selected area options) }
        ensures holds { IfOk result (λ task. selecting.holds task ≡ area_holds options) }
        ensures ok { IsOk result }
    {
        Ok(AreaTask {
            course: Course::new(alloc, area, options),
        })
    }

    /// What it can do next. Its ports are 0.
    pub fn want(&self) -> Want
        ensures { result ≡ selecting.wanted self.now }
    {
        match &self.course {
            Course::Passes(passing) => passing.want(),
            Course::Holds(holding) => holding.want(),
        }
    }

    /// Takes a message, where it wants that. At `Err` it is out of memory, and stays so; then only
    /// `verdict` is called.
    pub fn accept(&mut self, port: u32, message: Message) -> Result<(), NoMemory>
        requires { selecting.wanted self.old ≡ Take port }
        ensures takes { OnOk result (Takes (meanings_of selecting) port message self.old self.new) }
        ensures stops { OnErr result
            (StopsInTake (meanings_of selecting) port message self.old self.new) }
        ensures same { IsSameTask (meanings_of selecting) self.old self.new }
    {
        self.course.accept(port, message)
    }

    /// Gives a message, where it wants that. It takes no memory.
    pub fn hand(&mut self, port: u32) -> Message
        requires { selecting.wanted self.old ≡ Give port }
        ensures gives { Gives (meanings_of selecting) port result self.old self.new }
        ensures same { IsSameTask (meanings_of selecting) self.old self.new }
    {
        self.course.hand(port)
    }

    /// How it stands with it: running until it gave its end; then clean, passed behind a broken
    /// end, or out of order at the number of the first item whose kind goes back, counted from 1.
    pub fn verdict(&self) -> Verdict
        ensures { result ≡ selecting.verdict self.now }
    {
        match &self.course {
            Course::Passes(passing) => passing.verdict(),
            Course::Holds(holding) => holding.verdict(),
        }
    }
}
