//! Scripts that are played, and what is told of them on standard error behind the text of their fault.

ghost use Rattle.std.specs.Prelude.{◌≡◌, MatchResult};
ghost use Rattle.nv_script.specs.Echo.{PlaysEchoed, PlaysWithoutEchoes};
ghost use Rattle.nv_script.specs.Play.{PlaysScript};
ghost use Rattle.nv_script.specs.SerialPlayer.{serial_player};
ghost use Rattle.nv_script.specs.Serially.{PlaysAlone};
ghost use Rattle.nv_script.specs.Trace.{PlaysWithoutEvents, TracesInJson, TracesScript};
ghost use Rattle.nv_work.specs.Work.{WorksScript};

use crate::crowd::Crowd;
use crate::progress::Progress;
use crate::watched::{WatchedReader, WatchedWriter};
use nv_base::Fault;
use nv_hints::{By, KeptReader, Recent, Tally, TallyWriter, hint_line, push_summary};
use nv_script::{Echo, Outcome, WriteCounter, echo_counted_and_leave, play_counted_and_leave};
use nv_trace::{trace_counted_and_leave, trace_json_counted_and_leave};
use nv_work::{OpenGate, work_counted};
use std::alloc::{AllocError, Global};
use std::io::{Read, Write};
use std::sync::Wait;
use std::thread::Threads;
use std::time::Clock;

/// What stands for the name of a script from standard input.
pub(crate) const STANDARD_INPUT: &str = "standard input";

/// How a script ended, and what is told behind the text of its fault.
#[derive(Drop)]
pub(crate) struct Told {
    pub(crate) ended: Result<(), Fault>,
    pub(crate) behind: Option<String>,
}

impl Told {
    /// A script of this name that ended so, after these lines and refusals.
    pub(crate) fn of(
        alloc: Global,
        script: &str,
        by: By,
        ended: Result<(), Fault>,
        recent: &Recent,
        tally: &Tally,
    ) -> Told
        ensures { result.ended ≡ ended }
    {
        let behind = behind(alloc, script, by, &ended, recent, tally).ok();
        Told { ended, behind }
    }

    /// A script that could not be read.
    pub(crate) fn unread() -> Told
        ensures { result.ended ≡ Err Fault.Read }
    {
        Told {
            ended: Err(Fault::Read),
            behind: None,
        }
    }

    /// How the program ends, and what is told behind the text of a fault.
    pub(crate) fn into_outcome(self) -> (Outcome, Option<String>)
        // A fault ends the program as that fault, and else a script was played.
        ensures { MatchResult self.ended
            (λ _. result.0 ≡ Outcome.Played) (λ fault. result.0 ≡ Outcome.Failed fault) }
    {
        let Told { ended, behind } = self;
        match ended {
            Ok(()) => (Outcome::Played, behind),
            Err(fault) => (Outcome::Failed(fault), behind),
        }
    }
}

/// Plays a script of this name. The writer gets what [`play_counted_and_leave`] writes, and nothing of what is told of it.
pub(crate) fn play_told<'p, R: Read, W: Write, T: Clock + Eprint>(
    alloc: Global,
    script: &str,
    summary: bool,
    progress: &'p Progress<'p, T>,
    reader: &mut R,
    writer: &mut W,
) -> Told
    // The writer gets what `play` writes, and nothing more.
    ensures script { PlaysScript result.ended (R.remaining reader.old) (R.remaining reader.new)
        (W.contents writer.old) (W.contents writer.new) }
    ensures serial { PlaysAlone serial_player result.ended (R.remaining reader.old)
        (R.remaining reader.new) (W.contents writer.old) (W.contents writer.new) }
{
    let mut recent = Recent::new(alloc);
    let mut tally = Tally::new(alloc, summary);
    let ended = play_kept(alloc, progress, reader, writer, &mut recent, &mut tally);
    Told::of(alloc, script, By::Play, ended, &recent, &tally)
}

/// Plays a script, keeps the lines that are read last, and counts the refusals where that is asked for.
fn play_kept<'p, R: Read, W: Write, T: Clock + Eprint>(
    alloc: Global,
    progress: &'p Progress<'p, T>,
    reader: &mut R,
    writer: &mut W,
    recent: &mut Recent,
    tally: &mut Tally,
) -> Result<(), Fault>
    ensures script { PlaysScript result (R.remaining reader.old) (R.remaining reader.new)
        (W.contents writer.old) (W.contents writer.new) }
    ensures serial { PlaysAlone serial_player result (R.remaining reader.old)
        (R.remaining reader.new) (W.contents writer.old) (W.contents writer.new) }
{
    let mut reader = WatchedReader::new(alloc, reader, recent, progress);
    let mut writer = WatchedWriter::new(alloc, writer, tally, progress);
    play_counted_and_leave(alloc, &mut reader, &mut writer)
}

/// Plays a script of this name, and writes each command before its answers. The writer gets what [`echo_counted_and_leave`]
/// writes, and nothing of what is told of it.
pub(crate) fn echo_told<'p, R: Read, W: Write, T: Clock + Eprint>(
    alloc: Global,
    script: &str,
    summary: bool,
    progress: &'p Progress<'p, T>,
    reader: &mut R,
    writer: &mut W,
) -> Told
    // The writer gets commands and answers alone.
    ensures script { PlaysEchoed Echo.On result.ended (R.remaining reader.old)
        (R.remaining reader.new) (W.contents writer.old) (W.contents writer.new) }
    ensures plain { PlaysWithoutEchoes result.ended (R.remaining reader.old)
        (R.remaining reader.new) (W.contents writer.old) (W.contents writer.new) }
{
    let mut recent = Recent::new(alloc);
    let mut tally = Tally::new(alloc, summary);
    let ended = echo_kept(alloc, progress, reader, writer, &mut recent, &mut tally);
    Told::of(alloc, script, By::Play, ended, &recent, &tally)
}

/// Plays a script of this name with echoes, where the lines are kept and the refusals are counted.
fn echo_kept<'p, R: Read, W: Write, T: Clock + Eprint>(
    alloc: Global,
    progress: &'p Progress<'p, T>,
    reader: &mut R,
    writer: &mut W,
    recent: &mut Recent,
    tally: &mut Tally,
) -> Result<(), Fault>
    ensures script { PlaysEchoed Echo.On result (R.remaining reader.old) (R.remaining reader.new)
        (W.contents writer.old) (W.contents writer.new) }
    ensures plain { PlaysWithoutEchoes result (R.remaining reader.old) (R.remaining reader.new)
        (W.contents writer.old) (W.contents writer.new) }
{
    let mut reader = WatchedReader::new(alloc, reader, recent, progress);
    let mut writer = WatchedWriter::new(alloc, writer, tally, progress);
    echo_counted_and_leave(alloc, &mut reader, &mut writer)
}

/// Plays a script of this name, and writes the events of each line before its answer. The writer gets what
/// [`trace_counted_and_leave`] writes, and nothing of what is told of it.
pub(crate) fn trace_told<R: Read, W: Write>(
    alloc: Global,
    script: &str,
    reader: &mut R,
    writer: &mut W,
) -> Told
    // The writer gets events and answers alone.
    ensures script { TracesScript result.ended (R.remaining reader.old)
        (R.remaining reader.new) (W.contents writer.old) (W.contents writer.new) }
    ensures plain { PlaysWithoutEvents result.ended (R.remaining reader.old)
        (R.remaining reader.new) (W.contents writer.old) (W.contents writer.new) }
{
    let mut recent = Recent::new(alloc);
    let tally = Tally::new(alloc, false);
    let ended = trace_kept(alloc, reader, writer, &mut recent);
    Told::of(alloc, script, By::Play, ended, &recent, &tally)
}

/// Plays a script with its events, where the lines that are read last are kept.
fn trace_kept<R: Read, W: Write>(
    alloc: Global,
    reader: &mut R,
    writer: &mut W,
    recent: &mut Recent,
) -> Result<(), Fault>
    ensures script { TracesScript result (R.remaining reader.old) (R.remaining reader.new)
        (W.contents writer.old) (W.contents writer.new) }
    ensures plain { PlaysWithoutEvents result (R.remaining reader.old) (R.remaining reader.new)
        (W.contents writer.old) (W.contents writer.new) }
{
    let mut reader = KeptReader::new(alloc, reader, recent);
    let mut writer = WriteCounter::new(writer);
    trace_counted_and_leave(alloc, &mut reader, &mut writer)
}

/// Plays a script of this name, and writes it as JSON. The writer gets what [`trace_json_counted_and_leave`] writes, and nothing of
/// what is told of it.
pub(crate) fn trace_json_told<R: Read, W: Write>(
    alloc: Global,
    script: &str,
    reader: &mut R,
    writer: &mut W,
) -> Told
    // The writer gets objects alone.
    ensures { TracesInJson result.ended (R.remaining reader.old) (R.remaining reader.new)
        (W.contents writer.old) (W.contents writer.new) }
{
    let mut recent = Recent::new(alloc);
    let tally = Tally::new(alloc, false);
    let ended = trace_json_kept(alloc, reader, writer, &mut recent);
    Told::of(alloc, script, By::Play, ended, &recent, &tally)
}

/// Plays a script as JSON, where the lines that are read last are kept.
fn trace_json_kept<R: Read, W: Write>(
    alloc: Global,
    reader: &mut R,
    writer: &mut W,
    recent: &mut Recent,
) -> Result<(), Fault>
    ensures { TracesInJson result (R.remaining reader.old) (R.remaining reader.new)
        (W.contents writer.old) (W.contents writer.new) }
{
    let mut reader = KeptReader::new(alloc, reader, recent);
    let mut writer = WriteCounter::new(writer);
    trace_json_counted_and_leave(alloc, &mut reader, &mut writer)
}

/// Has threads play a script of this name. The writer gets what [`work_counted`] writes, and nothing of what is told of it.
pub(crate) fn work_told<R: Read, W: Write, T: Threads + Wait + Sync>(
    rt: &T,
    alloc: Global,
    script: &str,
    summary: bool,
    crowd: Crowd,
    reader: &mut R,
    writer: &mut W,
) -> Told
    // The writer gets what `work` writes, and nothing more.
    ensures script { WorksScript crowd.threads result.ended (R.remaining reader.old)
        (R.remaining reader.new) (W.contents writer.old) (W.contents writer.new) }
{
    let mut recent = Recent::new(alloc);
    let mut tally = Tally::new(alloc, summary);
    let ended = work_kept(rt, alloc, crowd, reader, writer, &mut recent, &mut tally);
    Told::of(alloc, script, By::Work, ended, &recent, &tally)
}

/// Has threads play a script, keeps the lines that are read last, and counts the refusals where that is asked for.
fn work_kept<R: Read, W: Write, T: Threads + Wait + Sync>(
    rt: &T,
    alloc: Global,
    crowd: Crowd,
    reader: &mut R,
    writer: &mut W,
    recent: &mut Recent,
    tally: &mut Tally,
) -> Result<(), Fault>
    ensures script { WorksScript crowd.threads result (R.remaining reader.old)
        (R.remaining reader.new) (W.contents writer.old) (W.contents writer.new) }
{
    let Crowd { threads, cleaners } = crowd;
    let mut reader = KeptReader::new(alloc, reader, recent);
    let mut writer = TallyWriter::new(alloc, writer, tally);
    work_counted(
        rt,
        alloc,
        &mut reader,
        &mut writer,
        threads,
        cleaners,
        &OpenGate,
    )
}

/// What is told behind the text of a fault: what is wrong with its line, and then the refusals where they were counted.
fn behind(
    alloc: Global,
    script: &str,
    by: By,
    ended: &Result<(), Fault>,
    recent: &Recent,
    tally: &Tally,
) -> Result<String, AllocError> {
    let mut out = match ended {
        Ok(()) => String::new(alloc),
        Err(fault) => match hint_line(alloc, script, by, fault, recent)? {
            Some(line) => line,
            None => String::new(alloc),
        },
    };
    push_summary(&mut out, tally)?;
    Ok(out)
}
