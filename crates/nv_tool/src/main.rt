//! The program `novacore`: plays scripts on a file system that is kept in memory, also in threads.
#![tactic(auto)]

ghost use Rattle.std.specs.Prelude.{◌≡◌, ◌≢◌, ◌⊎◌};
ghost use Rattle.clap.specs.Words.{kind_of};

mod command_line;
mod crowd;
mod progress;
mod terminal;
mod told;
mod watched;

use clap::error::ErrorKind;
use command_line::{Manner, Task};
use crowd::Crowd;
use nv_base::Fault;
use nv_script::{Echo, Outcome, exit_code, fault_line};
use progress::{Progress, lines_of};
use std::alloc::Global;
use std::env::Env;
use std::io::{IsTerminal, Read, Write};
use std::process::ExitCode;
use std::rt::Files;
use std::sync::Wait;
use std::thread::Threads;
use std::time::Clock;
use std::{env, fs, io};
use terminal::converse;
use told::{STANDARD_INPUT, Told, echo_told, play_told, trace_json_told, trace_told, work_told};

/// The line that tells of want of memory. It takes none.
const OUT_OF_MEMORY: &str = "novacore: E1 OutOfMemory\n";

/// Tells of a fault on standard error. If no text can be written, the exit status alone tells of it.
fn tell<R: AllocGlobal + Eprint>(rt: &R, fault: &Fault) {
    let _told = match fault_line(rt.alloc(), fault) {
        Ok(line) => rt.eprint(line),
        Err(_) => rt.eprint(OUT_OF_MEMORY),
    };
}

/// Tells of want of memory on standard error.
fn tell_of_memory<R: Eprint>(rt: &R) {
    let _told = rt.eprint(OUT_OF_MEMORY);
}

/// Prints what a command line without a task is answered.
///
/// Help and the version go to standard output, and why a command line is refused to standard error.
/// Only tested: which command lines these are, by what `Task::read` answers.
/// Only tested: the texts of help and refusals.
fn answered<R: Print + Eprint>(rt: &R, error: &clap::Error) -> Outcome
    // Want of memory ends the program; any other command line without a task is refused.
    ensures memory { kind_of error.now ≡ ErrorKind.OutOfMemory
        → result ≡ Outcome.OutOfMemory }
    // A request for help or the version is shown, or its write failed.
    ensures shown { (kind_of error.now ≡ ErrorKind.DisplayHelp)
        ⊎ (kind_of error.now ≡ ErrorKind.DisplayVersion)
        → (result ≡ Outcome.Shown) ⊎ (result ≡ Outcome.Failed Fault.Write) }
    ensures refused { kind_of error.now ≢ ErrorKind.OutOfMemory
        → kind_of error.now ≢ ErrorKind.DisplayHelp → kind_of error.now ≢ ErrorKind.DisplayVersion
        → result ≡ Outcome.Refused }
{
    if error.kind() == ErrorKind::OutOfMemory {
        return Outcome::OutOfMemory;
    }
    let printed = error.print(rt);
    if error.use_stderr() {
        return Outcome::Refused;
    }
    match printed {
        Ok(()) => Outcome::Shown,
        Err(_) => Outcome::Failed(Fault::Write),
    }
}

/// Which of the standard streams are a terminal.
#[derive(Clone, Copy)]
struct Terminals {
    input: bool,
    output: bool,
    error: bool,
}

/// Plays a script of this name as it is asked for.
fn play_by<'p, R: AllocGlobal + Clock + Eprint, S: Read, W: Write>(
    rt: &R,
    script: &str,
    manner: Manner,
    progress: &'p Progress<'p, R>,
    reader: &mut S,
    writer: &mut W,
) -> Told {
    let Manner { echo, summary, .. } = manner;
    match echo {
        Echo::Off => play_told(rt.alloc(), script, summary, progress, reader, writer),
        Echo::On => echo_told(rt.alloc(), script, summary, progress, reader, writer),
    }
}

/// Plays a script from a file, or from standard input where none is named.
///
/// An answer is held back only while the script's next line is there already.
fn play_file<'p, R: AllocGlobal + Clock + Eprint + Files + Input + Print>(
    rt: &R,
    file: Option<&str>,
    manner: Manner,
    progress: &'p Progress<'p, R>,
) -> Told {
    let mut writer = io::writer(rt);
    match file {
        None => play_by(
            rt,
            STANDARD_INPUT,
            manner,
            progress,
            &mut rt.reader(),
            &mut writer,
        ),
        Some(path) => {
            let Ok(mut file) = fs::open(rt, path) else {
                return Told::unread();
            };
            play_by(rt, path, manner, progress, &mut file, &mut writer)
        }
    }
}

/// What tells how far the script of a file has come, where someone sees it.
fn progress_of<'a, R: Clock + Eprint + Files>(
    rt: &'a R,
    file: Option<&str>,
    manner: Manner,
    terminals: Terminals,
) -> Progress<'a, R> {
    match file {
        Some(path) if terminals.error && !manner.quiet => {
            Progress::begin(rt, lines_of(rt, path), terminals.output)
        }
        _ => Progress::silent(rt),
    }
}

/// Plays a script from a file, or from standard input where none is named, and line by line where that is a terminal.
fn play_script<R: AllocGlobal + Clock + Eprint + Files + Input + Print>(
    rt: &R,
    file: Option<&str>,
    manner: Manner,
    terminals: Terminals,
) -> Told {
    if file.is_none() && terminals.input {
        let mut writer = io::writer(rt);
        return converse(
            rt,
            rt.alloc(),
            manner.summary,
            &mut rt.reader(),
            &mut writer,
        );
    }
    let progress = progress_of(rt, file, manner, terminals);
    let told = play_file(rt, file, manner, &progress);
    progress.take_away();
    told
}

/// Plays a script from a file, or from standard input where none is named, and tells each step. It asks for no line at a terminal,
/// and does not tell how far it has come: lines of events do.
fn trace_script<R: AllocGlobal + Files + Input + Print>(
    rt: &R,
    file: Option<&str>,
    json: bool,
) -> Told {
    let mut writer = io::writer(rt);
    match file {
        None => trace_by(
            rt.alloc(),
            STANDARD_INPUT,
            json,
            &mut rt.reader(),
            &mut writer,
        ),
        Some(path) => {
            let Ok(mut file) = fs::open(rt, path) else {
                return Told::unread();
            };
            trace_by(rt.alloc(), path, json, &mut file, &mut writer)
        }
    }
}

/// Plays a script of this name, and tells each step as it is asked for.
fn trace_by<S: Read, W: Write>(
    alloc: Global,
    script: &str,
    json: bool,
    reader: &mut S,
    writer: &mut W,
) -> Told {
    if json {
        return trace_json_told(alloc, script, reader, writer);
    }
    trace_told(alloc, script, reader, writer)
}

/// Has threads play a script from a file, or from standard input where none is named.
fn work_script<R: AllocGlobal + Files + Input + Print + Threads + Wait + Sync>(
    rt: &R,
    file: Option<&str>,
    summary: bool,
    crowd: Crowd,
) -> Told {
    let mut writer = io::writer(rt);
    match file {
        None => work_told(
            rt,
            rt.alloc(),
            STANDARD_INPUT,
            summary,
            crowd,
            &mut rt.reader(),
            &mut writer,
        ),
        Some(path) => {
            let Ok(mut file) = fs::open(rt, path) else {
                return Told::unread();
            };
            work_told(rt, rt.alloc(), path, summary, crowd, &mut file, &mut writer)
        }
    }
}

/// Does what the command line asks for, and tells what stands behind the text of a fault.
fn perform<R: AllocGlobal + Clock + Env + Files + Input + Print + Eprint + Threads + Wait + Sync>(
    rt: &R,
    terminals: Terminals,
) -> Result<(Outcome, Option<String>), Fault> {
    let alloc = rt.alloc();
    let words: Vec<String> = match env::args(rt) {
        Ok(words) => words.collect(alloc)?,
        Err(error) if error.kind() == io::ErrorKind::InvalidData => {
            return Ok((answered(rt, &command_line::not_text(alloc)?), None));
        }
        Err(_) => return Ok((Outcome::OutOfMemory, None)),
    };
    match Task::read(alloc, words.as_slice()) {
        Ok(Task::Play { file, manner }) => {
            Ok(play_script(rt, file, manner, terminals).into_outcome())
        }
        Ok(Task::Trace { file, json }) => Ok(trace_script(rt, file, json).into_outcome()),
        Ok(
            Task::Work {
                file,
                summary,
                crowd,
            },
        ) => Ok(work_script(rt, file, summary, crowd).into_outcome()),
        Err(error) => Ok((answered(rt, &error), None)),
    }
}

/// Does what the command line asks for, and tells of a fault.
fn run<R: AllocGlobal + Clock + Env + Files + Input + Print + Eprint + Threads + Wait + Sync>(
    rt: &R,
    terminals: Terminals,
) -> Outcome {
    let (outcome, behind) = match perform(rt, terminals) {
        Ok(ended) => ended,
        Err(fault) => (Outcome::Failed(fault), None),
    };
    match outcome {
        Outcome::Failed(fault) => tell(rt, &fault),
        Outcome::OutOfMemory => tell_of_memory(rt),
        _ => {}
    }
    if let Some(text) = behind {
        let _told = rt.eprint(text);
    }
    outcome
}

fn main(rt: HostRuntime) -> ExitCode {
    let terminals = Terminals {
        input: rt.stdin().is_terminal(),
        output: rt.stdout().is_terminal(),
        error: rt.stderr().is_terminal(),
    };
    exit_code(run(&rt, terminals))
}
