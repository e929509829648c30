//! Runs an Osmosis command line over real files.
#![tactic(auto)]

ghost use Rattle.std.specs.Prelude.{◌≡◌, ◌<◌};
ghost use Rattle.osm_host.specs.Moments.{moment};
ghost use Rattle.osm_cli.specs.ExitCode.{IsExitCode, words_to_run};
ghost use Rattle.osm_run.specs.WordsRun.{IsWordsRun};

mod arguments;

use arguments::{read_words, words_alone};
use osm_entity::{Steps, Text, TextError};
use osm_host::Host;
use osm_host_std::StdHost;
use osm_run::{Status, run, run_alone};
use std::alloc::Global;
use std::io::Eprint;
use std::marker::Brand;
use std::process::ExitCode;
use std::rt::Files;
use std::sync::Wait;
use std::sync::ledger::{Blank, Ledger};
use std::thread::Threads;

fn main(rt: HostRuntime) -> ExitCode {
    match read_words(&rt) {
        Ok(words) => {
            let mut host = StdHost::new(rt);
            ExitCode::from(exit_code(&rt, rt.alloc(), words.as_slice(), &mut host))
        }
        Err(TextError::BadText) => {
            let _ = rt.eprintln("osm-tasks: a word is not UTF-8");
            ExitCode::from(2)
        }
        Err(TextError::Memory) => {
            let _ = rt.eprintln("osm-tasks: no memory");
            ExitCode::from(6)
        }
    }
}

// Runs a command over a host, and gives the code of its status. A first word `-s` asks for one
// thread; else each task has a thread of its own.
fn exit_code<R: Threads + Wait + Sync, H: Host>(
    rt: &R,
    alloc: Global,
    words: &[Text],
    host: &mut H,
) -> u8
    ensures { IsExitCode words.now (moment H.files H.said H.mute H.count H.gave H.known host.old)
        (moment H.files H.said H.mute H.count H.gave H.known host.new) result }
{
    match words_alone(words) {
        Some(rest) => run_on_one_thread(alloc, rest, host).code,
        None => run(rt, alloc, words, host).code,
    }
}

// Runs a command over a host on one thread.
fn run_on_one_thread<H: Host>(alloc: Global, words: &[Text], host: &mut H) -> Status
    ensures { IsWordsRun words.now (moment H.files H.said H.mute H.count H.gave H.known host.old)
        (moment H.files H.said H.mute H.count H.gave H.known host.new) result }
{
    run_counted::<H, Brand>(alloc, words, host, Blank::new(1))
}

// The same, with a ledger for the count of its steps.
fn run_counted<H: Host, L: Ledger>(
    alloc: Global,
    words: &[Text],
    host: &mut H,
    blank: Blank,
) -> Status
    requires name { blank.name ≡ L.name }
    requires parts { blank.parts ≡ L.parts }
    requires counts { 0 < blank.parts }
    ensures { IsWordsRun words.now (moment H.files H.said H.mute H.count H.gave H.known host.old)
        (moment H.files H.said H.mute H.count H.gave H.known host.new) result }
{
    let mut steps = Steps::<L>::new(blank);
    run_alone(alloc, words, host, &mut steps)
}
