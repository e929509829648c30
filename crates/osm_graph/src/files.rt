//! Looks for tasks that share a file of which one is a writer.
ghost use Rattle.std.specs.Prelude.{◌≡◌, ◌≢◌, None, Some, IfErr, OnOk, position};
ghost use Rattle.osm_graph.specs.Files.{clashes, file_fault};
ghost use Rattle.osm_graph.specs.declared.fault.GraphError.TheVariants.{Memory};

use crate::fault::GraphError;
use crate::number::number_of;
use osm_tasks::{Task, TaskKind};

/// Refuses the lowest task that has the file of an earlier one, where one of the two writes it.
pub(crate) fn check_files(tasks: &[Task]) -> Result<(), GraphError>
    ensures fine { OnOk result (file_fault tasks.now ≡ None) }
    ensures refused { IfErr result (λ e. e ≢ Memory → file_fault tasks.now ≡ Some e) }
{
    for (at, task) in tasks.iter().enumerate() {
        if let Some(earlier) = clash(&tasks[..at], &task.kind) {
            let task = number_of(at)?;
            let earlier = number_of(earlier)?;
            return Err(GraphError::SameFile { task, earlier });
        }
    }
    Ok(())
}

// The first of the earlier tasks whose file a task can't have beside it.
fn clash(earlier: &[Task], kind: &TaskKind) -> Option<usize>
    ensures { result ≡ position (λ t. clashes t.kind kind.now) earlier.now }
{
    earlier.iter().position(|task| clashes(&task.kind, kind))
}

fn clashes(one: &TaskKind, other: &TaskKind) -> bool
    ensures { result ≡ clashes one.now other.now }
{
    match one.file() {
        Some(name) => match other.file() {
            Some(file) => { name.as_slice() == file.as_slice() && (one.writes() || other.writes()) }
            None => false,
        },
        None => false,
    }
}
