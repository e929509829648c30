//! What words ask for: a graph of tasks, and whether it is run.
ghost use Rattle.std.specs.Prelude.{◌≡◌, ◌≢◌, [], IfErr, IfNone, IfOk, IfSome, Ok, Err};
ghost use Rattle.osm_report.specs.declared.fault.Fault.TheVariants.{Memory};
ghost use Rattle.osm_run.specs.Commands.{AreTasksKept};
ghost use Rattle.osm_run.specs.Codes.{code_of};
ghost use Rattle.osm_run.specs.Asked.{HasNoCircle, IsRefusal, graph_asked};

use crate::status::{Ends, Status};
use osm_circle::check;
use osm_entity::Text;
use osm_graph::{Graph, connect};
use osm_report::Fault;
use osm_tasks::{Task, resolve};
use osm_words::split;
use std::alloc::Global;

/// The graph that words ask for, where it is run. At `Err` the words are refused with that status;
/// any words may be out of memory.
pub fn graph_to_run(alloc: Global, words: &[Text]) -> Result<Graph, Status>
    ensures asked { IfOk result (λ graph. graph_asked words.now ≡ Ok graph) }
    ensures bare { IfOk result HasNoCircle }
    ensures refused { IfErr result (λ status. IsRefusal (graph_asked words.now) status.fault) }
    ensures ends { IfErr result (λ status. status.ends ≡ []) }
    ensures code { IfErr result (λ status. status.code ≡ code_of status.fault) }
{
    match graph_asked(alloc, words) {
        Ok(graph) => match refusal_of(&graph) {
            Some(fault) => Err(Status::of(fault, Ends::new(alloc))),
            None => Ok(graph),
        },
        Err(fault) => Err(Status::of(fault, Ends::new(alloc))),
    }
}

// The graph that words ask for, or the fault of the first refusal.
fn graph_asked(alloc: Global, words: &[Text]) -> Result<Graph, Fault>
    ensures ok { IfOk result (λ graph. graph_asked words.now ≡ Ok graph) }
    ensures refused { IfErr result (λ fault. fault ≢ Memory
        → graph_asked words.now ≡ Err fault) }
{
    let list = split(alloc, words)?;
    let tasks = resolve(alloc, &list)?;
    let graph = connect(alloc, tasks)?;
    Ok(graph)
}

// The fault with which a graph is refused, a bare circle; `None` where it is run.
fn refusal_of(graph: &Graph) -> Option<Fault>
    ensures refused { IfSome result (λ fault. IsRefusal (Ok graph.now) fault) }
    ensures run { IfNone result (HasNoCircle graph.now) }
{
    match check(graph) {
        Err(circle) => Some(Fault::Buffering(circle)),
        Ok(()) => None,
    }
}

/// What each task of a command keeps.
pub fn tasks_kept(tasks: &[Task])
    ensures { AreTasksKept tasks.now }
{
    for task in tasks {
        task.kept();
    }
}
