//! The starts of all threads, each in the scope of the one before, and their joins.
//!
//! All threads wait at their gates until the last one was started, so that either all tasks work or
//! none has touched its machine.
ghost use Rattle.std.specs.Prelude.{◌≡◌, ◌++◌, ◌∷◌, [], ◌+◌, ◌<◌, ◌≤◌, All, map, IfNone, IfSome, false, vec_capacity, vec_len};
ghost use Rattle.std.specs.List.{AllZip};
ghost use Rattle.std.specs.Thread.{IsSend, IsSync};
ghost use Rattle.osm_entity.specs.declared.stream.Message.TheVariants as Says;
ghost use Rattle.osm_pipe.specs.Pipes.{half};
ghost use Rattle.osm_threads.specs.Homes.{IsHome, gate_word};
ghost use Rattle.osm_threads.specs.Starts.{IsBackOf, IsOneMore, IsReadyStart, told_by};

use crate::homing::{ComesHome, Home, Job, run_task};
use crate::ports::TaskPorts;
use osm_entity::End;
use osm_net::TaskMachine;
use osm_pipe::{Giver, Sent, meet};
use std::snapshot::Snapshot;
use std::sync::Wait;
use std::thread;
use std::thread::Threads;

/// A job that waits for its thread, and the giver of its gate.
#[derive(Drop)]
pub struct Start<M> {
    pub job: Job<M>,
    pub gate: Giver,
}

/// What is back of a job. It is whole where its machine has ended.
#[derive(Drop)]
pub struct Back<M> {
    pub machine: M,
    pub ports: TaskPorts,
    pub whole: bool,
}

/// What is back, the words of the gates that have not met yet, and whether all threads were started.
#[derive(Drop)]
pub struct Run<M> {
    pub backs: Vec<Back<M>>,
    pub words: Vec<Sent>,
    pub all: bool,
}

/// Tells all gates.
fn tell_all<R: Wait>(rt: &R, mut gates: Vec<Giver>, words: Vec<Sent>, end: End) -> Vec<Sent>
    requires none { words.items ≡ [] }
    requires room { vec_len gates ≤ vec_capacity words }
    ensures told { result.items ≡ map (told_by end) gates.items }
    ensures room { vec_capacity result ≡ vec_capacity words }
{
    match gates.pop() {
        None => words,
        Some(gate) => {
            let mut words = tell_all(rt, gates, words, end);
            words.push_reserved(gate.end(rt, end));
            words
        }
    }
}

/// Takes the last start from the others.
#[tactic(auto, using(crate::proofs::StartLemmas::ready_split))]
fn last_start<M: TaskMachine>(starts: &mut Vec<Start<M>>) -> Option<Start<M>>
    requires { All (IsReadyStart M.of) starts.old.items }
    ensures none { IfNone result (starts.old.items ≡ []) }
    ensures some { IfSome result (λ start. starts.old.items ≡ starts.new.items ++ start ∷ []) }
    ensures ready { IfSome result (λ start. IsReadyStart M.of start
        × All (IsReadyStart M.of) starts.new.items) }
{
    starts.pop()
}

/// Takes the last word from the others.
fn last_word(words: &mut Vec<Sent>) -> Sent
    requires { 0 < vec_len words.old }
    ensures { words.old.items ≡ words.new.items ++ result ∷ [] }
{
    match words.pop() {
        Some(word) => word,
        None => unreachable!(),
    }
}

/// Joins the gate of a task that came home with the word that it was told. The others have met no
/// gate yet.
fn come_home<M: TaskMachine + Drop, R: Wait>(
    rt: &R,
    run: &mut Run<M>,
    home: Home<M>,
    job: Snapshot<Job<M>>,
    others: Snapshot<Vec<Giver>>,
)
    requires home { IsHome M.of M.names job.value home }
    requires room { vec_len run.old.backs + 1 ≤ vec_capacity run.old.backs }
    requires words { run.old.words.items ≡ map (told_by (gate_word run.old.all)) others.value.items
        ++ half job.value.gate.pipe (Says.End (gate_word run.old.all) ∷ []) ∷ [] }
    ensures backs { IsOneMore M.of M.names run.old.all job.value run.old.backs.items
        run.new.backs.items }
    ensures count { vec_len run.new.backs ≡ vec_len run.old.backs + 1 }
    ensures room { vec_capacity run.new.backs ≡ vec_capacity run.old.backs }
    ensures words { run.new.words.items ≡ map (told_by (gate_word run.old.all)) others.value.items }
    ensures all { run.new.all ≡ run.old.all }
{
    let _job = job;
    let _others = others;
    let Home {
        machine,
        ports,
        gate,
        whole,
    } = home;
    let word = last_word(&mut run.words);
    meet(rt, word, gate);
    run.backs.push_reserved(Back {
        machine,
        ports,
        whole,
    });
}

/// The jobs that were not started are back as they are.
#[tactic(auto, using(crate::proofs::StartLemmas::zip_push))]
fn stay<M: TaskMachine + Drop>(mut starts: Vec<Start<M>>, backs: Vec<Back<M>>) -> Vec<Back<M>>
    requires none { backs.items ≡ [] }
    requires room { vec_len starts ≤ vec_capacity backs }
    ensures stayed { AllZip (IsBackOf M.of M.names false) starts.items result.items }
    ensures count { vec_len result ≡ vec_len starts }
    ensures room { vec_capacity result ≡ vec_capacity backs }
{
    match starts.pop() {
        None => backs,
        Some(start) => {
            let mut backs = stay(starts, backs);
            backs.push_reserved(Back {
                machine: start.job.machine,
                ports: start.job.ports,
                whole: false,
            });
            backs
        }
    }
}

/// A home that is known to be of its job.
fn known_home<M: TaskMachine>(home: Home<M>, job: &Snapshot<Job<M>>) -> Home<M>
    requires { IsHome M.of M.names job.now.value home }
    ensures { IsHome M.of M.names job.now.value result }
{
    let _job = job;
    home
}

/// Starts a thread for each job, tells all gates whether all were started, and joins them. `gates`
/// has the givers for the gates of the threads that run.
#[tactic(auto, using(crate::proofs::StartLemmas::zip_more))]
pub fn start_all<M: TaskMachine + Send + Drop, R: Threads + Wait + Sync>(
    rt: &R,
    mut starts: Vec<Start<M>>,
    gates: Vec<Giver>,
    words: Vec<Sent>,
    backs: Vec<Back<M>>,
) -> Run<M>
    requires ready { All (IsReadyStart M.of) starts.items }
    requires gate_room { vec_len gates + vec_len starts ≤ vec_capacity gates }
    requires no_word { words.items ≡ [] }
    requires word_room { vec_len gates + vec_len starts ≤ vec_capacity words }
    requires no_back { backs.items ≡ [] }
    requires back_room { vec_len starts ≤ vec_capacity backs }
    ensures backs { AllZip (IsBackOf M.of M.names result.all) starts.items result.backs.items }
    ensures count { vec_len result.backs ≡ vec_len starts }
    ensures words { result.words.items ≡ map (told_by (gate_word result.all)) gates.items }
    ensures room { vec_capacity result.backs ≡ vec_capacity backs }
{
    match last_start(&mut starts) {
        None => {
            let words = tell_all(rt, gates, words, End::Done);
            Run {
                backs,
                words,
                all: true,
            }
        }
        Some(start) => thread::scope(
            thread::scope_env(),
            rt,
            move |scope| -> Run<M>
                requires { IsSync R.row × IsSend M.row × IsReadyStart M.of start
                    × All (IsReadyStart M.of) starts.items
                    × (vec_len gates + (vec_len starts + 1) ≤ vec_capacity gates)
                    × (words.items ≡ []) × (vec_len gates + (vec_len starts + 1) ≤ vec_capacity words)
                    × (backs.items ≡ []) × (vec_len starts + 1 ≤ vec_capacity backs) }
                ensures { AllZip (IsBackOf M.of M.names result.all) (starts.items ++ start ∷ []) result.backs.items
                    × (vec_len result.backs ≡ vec_len starts + 1)
                    × (result.words.items ≡ map (told_by (gate_word result.all)) gates.items)
                    × (vec_capacity result.backs ≡ vec_capacity backs) }
            {
                let start = start;
                let others = Snapshot::of(&gates);
                let Start { job, gate } = start;
                let mut gates = gates;
                gates.push_reserved(gate);
                let known = Snapshot::of(&job);
                let promise = ComesHome(Snapshot::of(&job));
                match scope.spawn_with(promise, move || run_task(rt, job)) {
                    Ok(handle) => {
                        let mut run = start_all(rt, starts, gates, words, backs);
                        let home = known_home(handle.join(rt), &known);
                        come_home(rt, &mut run, home, known, others);
                        run
                    }
                    Err(refused) => {
                        let words = tell_all(rt, gates, words, End::Broken);
                        let backs = stay(starts, backs);
                        let mut run = Run {
                            backs,
                            words,
                            all: false,
                        };
                        let home = known_home((refused.value)(), &known);
                        come_home(rt, &mut run, home, known, others);
                        run
                    }
                }
            },
        ),
    }
}
