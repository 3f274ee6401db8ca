//! What the words of a command line ask for, and the texts of help.
//!
//! A subcommand is described by a function, read as a variant of [`Task`], and has its help here.

use crate::crowd::Crowd;
use clap::error::ErrorKind;
use clap::{Arg, ArgAction, ArgMatches, Command, Error, value_parser};
use nv_script::Echo;
use std::alloc::{AllocError, Global};
use std::convert::AsStr;

const PROGRAM: &str = "novacore";

const VERSION: &str = "0.1.0";

const ABOUT: &str = "The core of a file system for persistent memory, driven by scripts";

const AFTER_HELP: &str = "\
Try 'novacore play --help' for what a script is, with one of three lines to begin with,
'novacore trace --help' for the steps that it makes, and 'novacore work --help' for scripts that
threads play.

Exit status: 0 if all was done, 1 after a fault, 2 for a command line that is refused.";

const PLAY: &str = "play";

const PLAY_ABOUT: &str = "Play a script, and print what each of its lines is answered";

const PLAY_AFTER_HELP: &str = "\
A script is read line by line, and a line is one command. The first makes an empty file system in
memory, and the others make calls of its actors or report on it. Empty lines and lines that begin
with # are skipped. To begin with, save these three lines as first.nova:

  format blocks=16 cpus=2 block=4 page=4 inodes=8 snaps=4 actors=3
  do 0 create 0.1 notes 420
  tree

They make a file system of 16 blocks of 4 bytes, have actor 0 create the file 'notes' in the root
directory 0.1 with mode 420 (octal 644), and list all. 'novacore play first.nova' prints:

  formatted
  done 1.1
  / d 493
  /notes f 420 0
  end

Commands: format, do, start, go, run, stop, tree, stree, snaps, space, lists, log, audit.
Calls, which follow 'do' or 'start' and the number of an actor: create, mkdir, write, read, size,
mode, stat, list, lookup, unlink, rmdir, rename; on snapshots snap, drop, show, drain; and, to clean
the log of a file or directory, fast, thorough, auto and the number of its inode. 'fast 1' unlinks
the log pages of which nothing is needed. 'thorough 1' moves what is needed to as few pages as it
fills, and wants these pages free before it gives any back. 'auto 1' does as thorough where less
than half would stay, and else as fast. They are answered 'done fast E P' or 'done thorough E P',
how many entries and pages the log lost, and the tree and all snapshots stay as they are.
'do' makes a call whole; 'start', 'go' and 'run' take it step by step, between the steps of other
actors. 'stop' stops the machine, which goes on from what stands: a call past its commit point is
wholly there, and every other wholly absent.

Answers go to standard output. By '--echo' the number and the text of each command come before its
answers, as '> 2 do 0 create 0.1 notes 420' before 'done 1.1'. Where no FILE is named and standard
input is a terminal, each line is asked for, and a line with a fault is told and not played. 'help'
shows all commands there, 'help write' the words of one, and Ctrl-D ends.

A call that cannot be made is answered with the reason, as 'refused E8 Exists', and the script goes
on. A fault ends it: a line that is no command, or a read or a write that fails. What was answered
stands, and the fault goes to standard error, as 'novacore: E27 ScriptFault(2, word)' for a word in
line 2 that is unknown. Behind it stands what is wrong with the line, as

  first.nova:2: 'do 0 wrte 1.1 0 a': 'wrte' is no call; the nearest is 'write'

A FILE that can't be opened is the fault 'E28 Read'. '--summary' lists all refusals on standard
error, each behind the number of lines that had it.

Exit status: 0 if the whole script was played, 1 after a fault, 2 for a command line that is refused.";

const TRACE: &str = "trace";

const TRACE_ABOUT: &str = "Play a script, and print each step that its calls make";

const TRACE_AFTER_HELP: &str = "\
A script is played as by 'novacore play', and before the answer to a line stands a line for each
event that it makes, behind two spaces. A call that starts is '  LINE ACTOR CALL start', and a step
of it '  LINE ACTOR CALL STEP [AT] REPLY': the step's name, its inode slot, CPU or directory, and
'moved', 'done', 'refused' or 'waits OTHER'. A commit point ends in ' commit N'. To begin with, save
these two lines as steps.nova:

  format blocks=16 cpus=2 block=4 page=4 inodes=8 snaps=4 actors=3
  do 0 mode 0.1 448

They give the root directory another mode. 'novacore trace steps.nova' prints:

  formatted
    2 0 mode start
    2 0 mode lock 0 moved
    2 0 mode check moved
    2 0 mode ready moved
    2 0 mode enter moved
    2 0 mode append 0 moved
    2 0 mode publish 0 moved commit 1
    2 0 mode retire 0 moved
    2 0 mode leave moved
    2 0 mode unlock 0 done
  done

'do', 'start', 'go' and 'run' make events. Where an actor is busy or has no call, there is none.
Without the lines that begin with a space the output is that of 'novacore play'.

By '--json' each line is a JSON object: a line of the script, the world that 'format' and 'stop'
make, an event, or a line of an answer. A step that is made tells its actor's hand and the parts of
the world that it was lent, as they are after it. './novacore draw steps.nova >steps.html' makes a
page of these lines, which a browser draws.

Faults are those of 'novacore play', and what is wrong stands behind them.

Exit status: 0 if the whole script was played, 1 after a fault, 2 for a command line that is refused.";

const WORK: &str = "work";

const WORK_ABOUT: &str = "Play a script whose calls threads make, and print what they are answered";

const WORK_AFTER_HELP: &str = "\
A script for threads has a line 'fork'. The lines before it are played as by 'novacore play'. Behind
it stand 'do' lines and comments alone, and all are read before a thread starts. Thread T makes the
calls of the actors whose number is T modulo the number of threads, in their order. Cleaners go
through the logs of all files and directories beside, until the threads have ended. To begin with,
save these six lines as writers.nova:

  format blocks=64 cpus=2 block=4 page=4 inodes=8 snaps=4 actors=2
  do 0 create 0.1 a 420
  do 0 create 0.1 b 420
  fork
  do 0 write 1.1 0 aaaa
  do 1 write 2.1 0 bbbb

They make two files, which two threads write then. 'novacore work writers.nova' prints:

  formatted
  done 1.1
  done 2.1
  0: done 4
  1: done 4
  / d 493
  /a f 420 4 aaaa
  /b f 420 4 bbbb
  end
  snaps 0 epoch 1 commit 4
  audit ok

The answers of each thread stand behind its number, thread by thread, and behind all of them what
'tree', 'snaps' and 'audit' tell. Which of two calls of two threads comes first is not told: calls
on one file or directory may be answered in either order.

Faults are those of 'novacore play', and what is wrong stands behind them; '--summary' is as there.
Also, a script without 'fork' ends by an 'order' fault at its last line, and so does a 'fork' while
no file system is made; a line behind 'fork' that is no 'do' is a 'word' fault; and where an actor
has a call at 'fork', the fault is 'E21 ActorBusy'.

Exit status: 0 if the whole script was played, 1 after a fault, 2 for a command line that is refused.";

const ECHO: &str = "echo";

const ECHO_HELP: &str = "Write '> NUMBER TEXT' before the answers to each line that is a command";

const JSON: &str = "json";

const JSON_HELP: &str = "Write an object a line, with what each step has left";

const QUIET: &str = "quiet";

const QUIET_HELP: &str = "Don't tell at a terminal how far a FILE has been played";

const SUMMARY: &str = "summary";

const SUMMARY_HELP: &str = "Tell on standard error how many lines had each refusal";

const THREADS: &str = "threads";

const THREADS_HELP: &str = "How many threads make the calls behind 'fork', 1 to 32";

const CLEANERS: &str = "cleaners";

const CLEANERS_HELP: &str = "How many cleaners run beside, 0 to 32";

const FILE: &str = "FILE";

const FILE_HELP: &str = "The script; without FILE, or where it is -, from standard input";

/// What stands for standard input in place of a file.
const STANDARD_INPUT: &str = "-";

/// How a script is played: whether commands stand before their answers, whether refusals are counted, and whether nothing tells
/// how far it has come.
#[derive(Clone, Copy, Debug, PartialEq, Eq, Drop)]
pub(crate) struct Manner {
    pub(crate) echo: Echo,
    pub(crate) summary: bool,
    pub(crate) quiet: bool,
}

/// What a command line asks for.
#[derive(Clone, Copy, Debug, PartialEq, Eq, Drop)]
pub(crate) enum Task<'a> {
    /// To play a script from a file, or from standard input where none is named.
    Play {
        file: Option<&'a str>,
        manner: Manner,
    },
    /// To play a script as well, and tell each step, as JSON or not.
    Trace {
        file: Option<&'a str>,
        json: bool,
    },
    /// To have so many threads make the calls of a script, beside so many cleaners.
    Work {
        file: Option<&'a str>,
        summary: bool,
        crowd: Crowd,
    },
}

impl<'a> Task<'a> {
    /// Reads the words of a command line, of which the first is the program's own name.
    ///
    /// An error is a request for help or the version, why the words are refused, or want of memory.
    pub(crate) fn read<S: AsStr>(alloc: Global, words: &'a [S]) -> Result<Task<'a>, Error> {
        let mut command = described(alloc)?;
        let matches = command.try_get_matches_from_mut(words)?;
        match matches.subcommand() {
            Some((PLAY, play)) => Ok(Task::Play {
                file: file_of(play),
                manner: manner_of(play),
            }),
            Some((TRACE, trace)) => Ok(Task::Trace {
                file: file_of(trace),
                json: trace.get_flag(JSON),
            }),
            Some((WORK, work)) => Ok(Task::Work {
                file: file_of(work),
                summary: work.get_flag(SUMMARY),
                crowd: crowd_of(work),
            }),
            _ => Err(command.error(ErrorKind::MissingSubcommand, "a subcommand is missing")?),
        }
    }
}

/// The script's file, if one is named.
fn file_of<'a>(matches: &ArgMatches<'a>) -> Option<&'a str> {
    matches.get_str(FILE).filter(|file| *file != STANDARD_INPUT)
}

/// How a script is to be played.
fn manner_of(matches: &ArgMatches<'_>) -> Manner {
    let echo = if matches.get_flag(ECHO) {
        Echo::On
    } else {
        Echo::Off
    };
    Manner {
        echo,
        summary: matches.get_flag(SUMMARY),
        quiet: matches.get_flag(QUIET),
    }
}

/// How many threads and cleaners are asked for. Others than those of the help are refused before.
fn crowd_of(matches: &ArgMatches<'_>) -> Crowd {
    let usual = Crowd::usual();
    let threads = matches.get_one::<u64>(THREADS).unwrap_or(usual.threads);
    let cleaners = matches.get_one::<u64>(CLEANERS).unwrap_or(usual.cleaners);
    Crowd::at_most(threads, cleaners)
}

/// Why a command line is refused that has a word of bytes which are no text.
pub(crate) fn not_text(alloc: Global) -> Result<Error, AllocError> {
    described(alloc)?.error(ErrorKind::InvalidValue, "an argument is not valid UTF-8")
}

/// The program's command line: a line for each subcommand.
fn described<'a>(alloc: Global) -> Result<Command<'a>, AllocError> {
    Command::new(alloc, PROGRAM)
        .bin_name(PROGRAM)?
        .version(VERSION)
        .about(ABOUT)
        .after_help(AFTER_HELP)
        .subcommand_required(true)
        .arg_required_else_help(true)
        .subcommand(play(alloc)?)?
        .subcommand(trace(alloc)?)?
        .subcommand(work(alloc)?)
}

/// The subcommand that plays a script.
fn play<'a>(alloc: Global) -> Result<Command<'a>, AllocError> {
    Command::new(alloc, PLAY)
        .about(PLAY_ABOUT)
        .after_help(PLAY_AFTER_HELP)
        .arg(Arg::new(alloc, FILE).help(FILE_HELP))?
        .arg(flag(alloc, ECHO, ECHO_HELP))?
        .arg(flag(alloc, SUMMARY, SUMMARY_HELP))?
        .arg(flag(alloc, QUIET, QUIET_HELP))
}

/// The subcommand that plays a script and tells each step.
fn trace<'a>(alloc: Global) -> Result<Command<'a>, AllocError> {
    Command::new(alloc, TRACE)
        .about(TRACE_ABOUT)
        .after_help(TRACE_AFTER_HELP)
        .arg(Arg::new(alloc, FILE).help(FILE_HELP))?
        .arg(flag(alloc, JSON, JSON_HELP))
}

/// An option that is given or not.
fn flag<'a>(alloc: Global, name: &'static str, help: &'static str) -> Arg<'a> {
    Arg::new(alloc, name)
        .long(name)
        .action(ArgAction::SetTrue)
        .help(help)
}

/// The subcommand that has threads play a script.
fn work<'a>(alloc: Global) -> Result<Command<'a>, AllocError> {
    let threads = Arg::new(alloc, THREADS)
        .long(THREADS)
        .value_name("N")
        .value_parser(value_parser!(u64).range(1..=32))
        .default_value("2")
        .help(THREADS_HELP);
    let cleaners = Arg::new(alloc, CLEANERS)
        .long(CLEANERS)
        .value_name("M")
        .value_parser(value_parser!(u64).range(0..=32))
        .default_value("1")
        .help(CLEANERS_HELP);
    Command::new(alloc, WORK)
        .about(WORK_ABOUT)
        .after_help(WORK_AFTER_HELP)
        .arg(Arg::new(alloc, FILE).help(FILE_HELP))?
        .arg(threads)?
        .arg(cleaners)?
        .arg(flag(alloc, SUMMARY, SUMMARY_HELP))
}
