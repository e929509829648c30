//! Connects the tasks of a command.
ghost use Rattle.std.specs.Prelude.{◌≡◌, ◌≢◌, Ok, Err, IfOk, IfErr};
ghost use Rattle.osm_graph.specs.Joining.{connected};
ghost use Rattle.osm_graph.specs.declared.fault.GraphError.TheVariants.{Memory};

use crate::fault::GraphError;
use crate::files::check_files;
use crate::graph::Graph;
use crate::joining::join;
use osm_tasks::Tasks;
use std::alloc::Global;

/// Joins tasks into a graph. Task by task each input takes a pipe and then each output puts one:
/// an input with a name takes the pipe that an earlier output put by that name, and one without a
/// name takes the latest pipe without a name that is still open, as brackets match.
///
/// The first refusal counts: port by port `PipeUnknown`, `PipeTaken`, `NoPipe` or `WrongType` of an
/// input and `TooManyPipes` or `PipeTwice` of an output, then `UnusedPipes`, then `SameFile`. Any
/// tasks may be out of memory. After a refusal the tasks are gone.
pub fn connect(alloc: Global, tasks: Tasks) -> Result<Graph, GraphError>
    ensures ok { IfOk result (λ graph. connected tasks ≡ Ok graph) }
    ensures refused { IfErr result (λ e. e ≢ Memory → connected tasks ≡ Err e) }
{
    let pipes = join(alloc, tasks.as_slice())?;
    check_files(tasks.as_slice())?;
    Ok(Graph { tasks, pipes })
}
