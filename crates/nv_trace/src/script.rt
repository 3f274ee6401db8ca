//! Scripts whose events are told.

ghost use Rattle.std.specs.Prelude.{◌≡◌, ◌+◌, ◌-◌, ◌^◌, ◌<◌};
ghost use Rattle.nv_script.specs.Trace.{PlaysWithoutEvents, TracesInJson, TracesScript};

use crate::tellers::{Events, Objects};
use nv_base::Fault;
use nv_script::player::Player;
use nv_script::{CountedRead, CountedWrite, Echo, ReadCounter, WriteCounter};
use std::alloc::Global;
use std::io::{Read, Write};
use std::mem;

/// Plays a script as [`nv_script::play_and_leave`] does, and writes a line for each event before the answer to the line that
/// makes it: for a call that starts `  LINE ACTOR CALL start`, and for a step `  LINE ACTOR CALL STEP [AT] REPLY`.
///
/// `STEP` is the step's name, and `AT` its inode slot, CPU or directory. `REPLY` is `moved`, `done`, `refused` or `waits OTHER`,
/// by the actor that is waited for. A commit point ends in ` commit N`. An event of no step has no line: where there is no such
/// actor, where it is busy or where it is idle. Without these lines the output is that of [`nv_script::play`]: no line of an
/// answer begins with two spaces.
pub fn trace_and_leave<R: Read, W: Write>(
    alloc: Global,
    reader: &mut R,
    writer: &mut W,
) -> Result<(), Fault>
    // Each event has its line, of the world before it, for the very grants that give the answer.
    ensures script { TracesScript result (R.remaining reader.old) (R.remaining reader.new)
        (W.contents writer.old) (W.contents writer.new) }
    // Without the lines of events its output is that of `play`, with every end other than a failed write.
    ensures plain { PlaysWithoutEvents result (R.remaining reader.old) (R.remaining reader.new)
        (W.contents writer.old) (W.contents writer.new) }
{
    let mut reader = ReadCounter::new(reader);
    let mut writer = WriteCounter::new(writer);
    trace_counted_and_leave(alloc, &mut reader, &mut writer)
}

/// Plays a script as [`trace_and_leave`] does, from a reader and to a writer that count their failures.
pub fn trace_counted_and_leave<R: CountedRead, W: CountedWrite>(
    alloc: Global,
    reader: &mut R,
    writer: &mut W,
) -> Result<(), Fault>
    requires reads { R.failed reader.old < 2 ^ 64 - 1 }
    requires writes { W.failed writer.old < 2 ^ 64 - 1 }
    ensures script { TracesScript result (R.remaining reader.old) (R.remaining reader.new)
        (W.contents writer.old) (W.contents writer.new) }
    ensures plain { PlaysWithoutEvents result (R.remaining reader.old) (R.remaining reader.new)
        (W.contents writer.old) (W.contents writer.new) }
    ensures same_reader { R.place reader.new ≡ R.place reader.old }
    ensures same_writer { W.place writer.new ≡ W.place writer.old }
{
    let mut player = Player::new(alloc)?;
    let outcome = player.play(&Events, alloc, Echo::Off, reader, writer);
    mem::forget(player);
    outcome
}

/// Plays a script as [`nv_script::play_and_leave`] does, and writes JSON: an object a line. Before a command stands the line of
/// the script, and behind it its events and each line of its answer. A `format` and a `stop` tell the world that they make.
///
/// A step that is made tells its actor's hand after it, and the parts that it was lent. By `IsOneStep` of `nv_machine` nothing else
/// changes, so that who replaces these parts has the world after each step.
pub fn trace_json_and_leave<R: Read, W: Write>(
    alloc: Global,
    reader: &mut R,
    writer: &mut W,
) -> Result<(), Fault>
    // Each event has its object, of the worlds before and after it, for the very grants that give the answer.
    ensures { TracesInJson result (R.remaining reader.old) (R.remaining reader.new)
        (W.contents writer.old) (W.contents writer.new) }
{
    let mut reader = ReadCounter::new(reader);
    let mut writer = WriteCounter::new(writer);
    trace_json_counted_and_leave(alloc, &mut reader, &mut writer)
}

/// Plays a script as [`trace_json_and_leave`] does, from a reader and to a writer that count their failures.
pub fn trace_json_counted_and_leave<R: CountedRead, W: CountedWrite>(
    alloc: Global,
    reader: &mut R,
    writer: &mut W,
) -> Result<(), Fault>
    requires reads { R.failed reader.old < 2 ^ 64 - 1 }
    requires writes { W.failed writer.old < 2 ^ 64 - 1 }
    ensures script { TracesInJson result (R.remaining reader.old) (R.remaining reader.new)
        (W.contents writer.old) (W.contents writer.new) }
    ensures same_reader { R.place reader.new ≡ R.place reader.old }
    ensures same_writer { W.place writer.new ≡ W.place writer.old }
{
    let mut player = Player::new(alloc)?;
    let outcome = player.play(&Objects, alloc, Echo::Off, reader, writer);
    mem::forget(player);
    outcome
}
