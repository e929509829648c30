//! Resolves a list of tasks by the catalogue.
ghost use Rattle.std.specs.Prelude.{◌≡◌, ◌≢◌, None, Some, Ok, Err, IfOk, IfErr, OnOk};
ghost use Rattle.std.specs.List.{find};
ghost use Rattle.osm_tasks.specs.Catalogue.{all_tasks};
ghost use Rattle.osm_tasks.specs.Resolving.{is_task_called, resolved, resolved_task, said_fault, task_said};
ghost use Rattle.osm_tasks.specs.declared.fault.TaskError.TheVariants.{Memory};

use crate::checking::{box_fault, options_fault};
use crate::fault::TaskError;
use crate::making::kind_of;
use crate::naming::TaskName;
use crate::pipes::{INPUT, OUTPUT, pipe_names};
use crate::task::{Task, Tasks};
use osm_words::{OptionWord, TaskList, TaskWords};
use std::alloc::Global;

/// All tasks, in the order of the catalogue.
const TASKS: [TaskName; 28] = [
    TaskName::ReadPbf,
    TaskName::ReadOpl,
    TaskName::ReadOplChange,
    TaskName::ReadEmpty,
    TaskName::ReadMade,
    TaskName::WritePbf,
    TaskName::WriteOpl,
    TaskName::WriteOplChange,
    TaskName::WriteNull,
    TaskName::WriteSummary,
    TaskName::Merge,
    TaskName::MergeChange,
    TaskName::AppendChange,
    TaskName::ApplyChange,
    TaskName::SimplifyChange,
    TaskName::Tee,
    TaskName::TeeChange,
    TaskName::Buffer,
    TaskName::BufferChange,
    TaskName::Spool,
    TaskName::SpoolChange,
    TaskName::BoundingBox,
    TaskName::BoundingPolygon,
    TaskName::TagFilter,
    TaskName::UsedNode,
    TaskName::UsedWay,
    TaskName::Sort,
    TaskName::SortChange,
];

/// Looks up each task of a list in the catalogue, with its options and the names of its pipes.
/// The first refusal counts: task by task, `UnknownTask`, then the words in their order, each as
/// `UnknownOption`, `Repeated` or `BadValue`, then `Missing`, then `BadBox`; the number of a tee's
/// outputs is looked at before its words. Any list may be out of memory.
pub fn resolve(alloc: Global, list: &TaskList) -> Result<Tasks, TaskError>
    ensures ok { IfOk result (λ tasks. resolved list.now ≡ Ok tasks) }
    ensures refused { IfErr result (λ e. e ≢ Memory → resolved list.now ≡ Err e) }
{
    let mut tasks = Tasks::new(alloc);
    let list = list.as_slice();
    for (at, words) in list.iter().enumerate() {
        let number = number_of(at)?;
        let task = resolve_task(alloc, number, words)?;
        tasks.push(task)?;
    }
    Ok(tasks)
}

// A task's number. Tasks past the last number could not be held.
fn number_of(at: usize) -> Result<u32, TaskError>
    ensures ok { IfOk result (λ number. number ≡ at) }
    ensures err { IfErr result (λ e. e ≡ Memory) }
{
    match u32::try_from(at) {
        Ok(number) => Ok(number),
        Err(_) => Err(TaskError::Memory),
    }
}

fn resolve_task(alloc: Global, task: u32, words: &TaskWords) -> Result<Task, TaskError>
    ensures ok { IfOk result (λ t. resolved_task task words.now ≡ Ok t) }
    ensures refused { IfErr result (λ e. e ≢ Memory → resolved_task task words.now ≡ Err e) }
{
    match task_named(words.name.as_slice()) {
        Some(name) => resolve_as(alloc, task, name, words.options.as_slice()),
        None => Err(TaskError::UnknownTask {
            task,
            word: words.word,
        }),
    }
}

fn task_named(name: &[u8]) -> Option<TaskName>
    ensures { result ≡ find (is_task_called name.now) all_tasks }
{
    TASKS.iter().copied().find(|task| task.is_task_called(name))
}

impl TaskName {
    // Whether this is its name or its short name.
    fn is_task_called(self, name: &[u8]) -> bool
        ensures { result ≡ is_task_called name.now self }
    {
        name == self.name() || name == self.short()
    }
}

fn resolve_as(
    alloc: Global,
    task: u32,
    name: TaskName,
    words: &[OptionWord],
) -> Result<Task, TaskError>
    ensures ok { IfOk result (λ t. t ≡ task_said name words.now) }
    ensures fine { OnOk result (said_fault task name words.now ≡ None) }
    ensures refused { IfErr result (λ e. e ≢ Memory → said_fault task name words.now ≡ Some e) }
{
    if let Some(fault) = options_fault(task, name, words) {
        return Err(fault);
    }
    let kind = kind_of(alloc, name, words)?;
    if let Some(fault) = box_fault(task, &kind) {
        return Err(fault);
    }
    let inputs = pipe_names(alloc, INPUT, words, name.inputs().len())?;
    let outputs = pipe_names(alloc, OUTPUT, words, name.outputs(words))?;
    Ok(Task {
        kind,
        inputs,
        outputs,
    })
}
