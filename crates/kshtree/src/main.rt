// The program `kshtree`.
#![tactic(auto)]

use ksh_base::{
    BytesSource, FileSource, Items, Plan, ScriptFrom, Source, Text, WordsRefused, read_words,
};
use ksh_run::{Checked, check_script, run_shell};
use os_world::{StdWorld, SystemWords, program_words};
use shell_thread::{CallerSpawner, NoAlbum, Spawner, ThreadSpawner};
use std::alloc::Global;
use std::fs::Files;
use std::io::{Print, Stderr};
use std::process::ExitCode;
use std::thread::{Promise, Threads};

// The status of want of memory.
const NO_MEMORY: u8 = 121;

// The words are run in a thread whose stack has a stated size; in this one where there is no other.
fn main(rt: HostRuntime) -> ExitCode {
    let errors = rt.stderr();
    let world = StdWorld::new(rt.stdout(), errors);
    let mut spawner = ThreadSpawner::new(rt);
    let Ok(words) = program_words(&SystemWords::new(&rt), rt.alloc()) else {
        return ExitCode::from(NO_MEMORY);
    };
    if spawner.room(rt.alloc()).is_err() {
        return ExitCode::from(NO_MEMORY);
    }
    let work = move |go: bool| -> Outcome {
        if go {
            Outcome::Ended(run(rt, world, errors, words.as_slice()))
        } else {
            Outcome::Back(world, words)
        }
    };
    let outcome = match spawner.start(AnyOutcome, work) {
        Ok(job) => job.join(),
        Err(outcome) => outcome,
    };
    ExitCode::from(match outcome {
        Outcome::Ended(status) => status,
        Outcome::Back(world, words) => run(rt, world, errors, words.as_slice()),
    })
}

// What became of the run: its status, or its parts where it hasn't begun.
#[derive(Drop)]
enum Outcome {
    Ended(u8),
    Back(StdWorld, Items<Text>),
}

// Nothing is promised of it.
#[derive(Drop)]
struct AnyOutcome;

impl Promise<Outcome> for AnyOutcome {
    ghost use Rattle.std.specs.Prelude.{⊤};

    ghost kept_by = { λ _ _. ⊤ };
}

// Picks the source by the words, and runs them.
fn run<R: Threads + Files + AllocGlobal + Copy + Send + 'static>(
    rt: R,
    world: StdWorld,
    errors: Stderr,
    words: &[Text],
) -> u8 {
    match read_words(rt.alloc(), words) {
        Ok(plan) => {
            let Plan { check, script, .. } = plan;
            match script {
                ScriptFrom::File(path) if check => {
                    check_over(rt.alloc(), errors, words, FileSource::new(rt, path))
                }
                ScriptFrom::File(path) => run_over(rt, world, words, FileSource::new(rt, path)),
                _ if check => check_over(rt.alloc(), errors, words, no_bytes(&rt)),
                _ => run_over(rt, world, words, no_bytes(&rt)),
            }
        }
        Err(WordsRefused::Usage(_)) => run_over(rt, world, words, no_bytes(&rt)),
        Err(WordsRefused::Memory) => NO_MEMORY,
    }
}

// A source that has nothing.
fn no_bytes(rt: &impl AllocGlobal) -> BytesSource {
    BytesSource::new(Text::empty(rt.alloc()), Vec::new(rt.alloc()))
}

// Checks the script of words that have `-n`, and tells its fault.
fn check_over<S: Source + Drop>(
    alloc: Global,
    errors: Stderr,
    words: &[Text],
    mut source: S,
) -> u8 {
    match check_script(alloc, words, &mut source) {
        Ok(Checked::Fine) => 0,
        Ok(Checked::Refused { status, text, .. }) => {
            let _ = errors.write_all(text.bytes());
            status
        }
        Err(_) => NO_MEMORY,
    }
}

fn run_over<R: Threads + AllocGlobal + Copy + Send + 'static, S: Source + Drop>(
    rt: R,
    world: StdWorld,
    words: &[Text],
    mut source: S,
) -> u8 {
    run_shell(
        rt.alloc(),
        words,
        &[],
        &mut source,
        world,
        CallerSpawner::new(rt),
        NoAlbum,
    )
    .status
}
