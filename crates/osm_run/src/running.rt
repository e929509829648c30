//! The run of a command line: on one thread, or on a thread for each task.
ghost use Rattle.std.specs.Prelude.{◌≡◌, ◌≤◌, ◌-◌, ℕ, List};
ghost use Rattle.osm_host.specs.Moments.{Moment, moment};
ghost use Rattle.osm_run.specs.Asked.{graph_asked};
ghost use Rattle.osm_run.specs.Codes.{code_of};
ghost use Rattle.osm_run.specs.Prepared.{IsPrepared};
ghost use Rattle.osm_run.specs.WordsRun.{IsCountedWordsRun, IsRefusedOrCounted, IsRefusedOrRun, IsWordsRun};

use crate::asking::tasks_kept;
use crate::concluding::{conclude, say_fault};
use crate::preparing::{Prepared, Ready, prepare};
use crate::status::Status;
use osm_entity::{Steps, Text};
use osm_host::Host;
use osm_net::run_tasks_alone;
use osm_threads::run_tasks;
use std::alloc::Global;
use std::sync::Wait;
use std::sync::ledger::Ledger;
use std::thread::Threads;

/// Runs the command of these words, each task on a thread of its own, and answers its status. Where
/// a thread can't be started, the tasks run on this thread.
///
/// Words are refused by the first of these: they are no list of tasks, a task isn't in the
/// catalogue, pipes don't join the tasks or two tasks share a file that one of them writes, the
/// pipes have a bare circle. Then no file was opened. Polygon files are read before all others are
/// opened. A fault is said in one line, in one call. Threads wait for each other.
pub fn run<R: Threads + Wait + Sync, H: Host>(
    rt: &R,
    alloc: Global,
    words: &[Text],
    host: &mut H,
) -> Status
    ensures { IsWordsRun words.now
        (moment H.files H.said H.mute H.count H.gave H.known host.old)
        (moment H.files H.said H.mute H.count H.gave H.known host.new) result }
{
    let status = run_words(rt, alloc, words, host);
    say_fault(host, &status.fault);
    status
}

/// The same on one thread, which always returns. `steps` counts each message taken, each message
/// given, and each pull of a reader.
pub fn run_alone<H: Host, L: Ledger>(
    alloc: Global,
    words: &[Text],
    host: &mut H,
    steps: &mut Steps<L>,
) -> Status
    ensures run { IsCountedWordsRun words.now
        (moment H.files H.said H.mute H.count H.gave H.known host.old)
        (moment H.files H.said H.mute H.count H.gave H.known host.new) result
        (steps.new - steps.old) }
    ensures later { steps.old ≤ steps.new }
{
    let status = run_words_alone(alloc, words, host, steps);
    say_fault(host, &status.fault);
    status
}

// Runs the command of these words on threads, and says nothing.
fn run_words<R: Threads + Wait + Sync, H: Host>(
    rt: &R,
    alloc: Global,
    words: &[Text],
    host: &mut H,
) -> Status
    ensures run { IsRefusedOrRun (graph_asked words.now)
        (moment H.files H.said H.mute H.count H.gave H.known host.old)
        (moment H.files H.said H.mute H.count H.gave H.known host.new) result }
    ensures code { result.code ≡ code_of result.fault }
    ensures said { H.said host.new ≡ H.said host.old }
    ensures mute { H.mute host.new ≡ H.mute host.old }
{
    match prepare(alloc, words, host) {
        Ok(prepared) => run_prepared(rt, alloc, prepared, host),
        Err(status) => status,
    }
}

// Runs the command of these words on one thread, and says nothing.
fn run_words_alone<H: Host, L: Ledger>(
    alloc: Global,
    words: &[Text],
    host: &mut H,
    steps: &mut Steps<L>,
) -> Status
    ensures run { IsRefusedOrCounted (graph_asked words.now)
        (moment H.files H.said H.mute H.count H.gave H.known host.old)
        (moment H.files H.said H.mute H.count H.gave H.known host.new) result
        (steps.new - steps.old) }
    ensures code { result.code ≡ code_of result.fault }
    ensures said { H.said host.new ≡ H.said host.old }
    ensures mute { H.mute host.new ≡ H.mute host.old }
    ensures later { steps.old ≤ steps.new }
{
    match prepare(alloc, words, host) {
        Ok(prepared) => run_prepared_alone(alloc, prepared, host, steps),
        Err(status) => status,
    }
}

// Runs a prepared command on threads.
fn run_prepared<R: Threads + Wait + Sync, H: Host>(
    rt: &R,
    alloc: Global,
    prepared: Prepared<H::In, H::Out>,
    host: &mut H,
) -> Status
    requires { (words : List (List ℕ)) × (before : Moment) × IsPrepared words before
        (moment H.files H.said H.mute H.count H.gave H.known host.old) prepared }
    ensures run { (words : List (List ℕ)) (before : Moment) → IsPrepared words before
        (moment H.files H.said H.mute H.count H.gave H.known host.old) prepared →
        IsRefusedOrRun (graph_asked words) before
        (moment H.files H.said H.mute H.count H.gave H.known host.new) result }
    ensures code { result.code ≡ code_of result.fault }
    ensures said { H.said host.new ≡ H.said host.old }
    ensures mute { H.mute host.new ≡ H.mute host.old }
{
    let Prepared { graph, ready } = prepared;
    let Ready {
        machines,
        left,
        ends,
    } = ready;
    graph.kept();
    let all = graph.tasks();
    let tasks = all.as_slice();
    tasks_kept(tasks);
    let pipes = graph.as_pipes();
    let finished = run_tasks(rt, alloc, pipes, machines);
    conclude(&graph, finished, left, ends, host)
}

// Runs a prepared command on one thread.
fn run_prepared_alone<H: Host, L: Ledger>(
    alloc: Global,
    prepared: Prepared<H::In, H::Out>,
    host: &mut H,
    steps: &mut Steps<L>,
) -> Status
    requires { (words : List (List ℕ)) × (before : Moment) × IsPrepared words before
        (moment H.files H.said H.mute H.count H.gave H.known host.old) prepared }
    ensures run { (words : List (List ℕ)) (before : Moment) → IsPrepared words before
        (moment H.files H.said H.mute H.count H.gave H.known host.old) prepared →
        IsRefusedOrCounted (graph_asked words) before
        (moment H.files H.said H.mute H.count H.gave H.known host.new) result
        (steps.new - steps.old) }
    ensures code { result.code ≡ code_of result.fault }
    ensures said { H.said host.new ≡ H.said host.old }
    ensures mute { H.mute host.new ≡ H.mute host.old }
    ensures later { steps.old ≤ steps.new }
{
    let Prepared { graph, ready } = prepared;
    let Ready {
        machines,
        left,
        ends,
    } = ready;
    graph.kept();
    let all = graph.tasks();
    let tasks = all.as_slice();
    tasks_kept(tasks);
    let pipes = graph.as_pipes();
    let finished = run_tasks_alone(alloc, pipes, machines, steps);
    conclude(&graph, finished, left, ends, host)
}
