//! A whole script: bytes in, bytes out.

ghost use Rattle.std.specs.Prelude.{◌≡◌, ◌+◌, ◌-◌, ◌^◌, ◌<◌};
ghost use Rattle.nv_script.specs.Echo.{PlaysEchoed, PlaysWithoutEchoes};
ghost use Rattle.nv_script.specs.Play.{PlaysScript, failed_reads, failed_writes};
ghost use Rattle.nv_script.specs.SerialPlayer.{serial_player};
ghost use Rattle.nv_script.specs.Serially.{PlaysAlone};

use crate::answers::Answers;
use crate::counted::{CountedRead, CountedWrite, ReadCounter, WriteCounter};
use crate::echo::Echo;
use crate::player::Player;
use nv_base::Fault;
use std::alloc::Global;
use std::io::{Read, Write};
use std::mem;

/// Plays a script: its lines are read, acted on and answered one after another, in bounded memory.
///
/// What is written is the text of the lines before the first fault, and after a failed write a front of the text
/// of the next line too. Faults are `ScriptFault` with the line, counted from 1, and its kind; `Read` for any failed
/// read; `Write` for any failed write and one that takes no byte; `OutOfMemory` where room for the lines, their
/// words or their texts is refused. A format, call or report whose own growth is refused is printed as refused and
/// changes nothing, and the script goes on. A tree is written while it is walked: growth that is refused past its first
/// node ends the script by `OutOfMemory`, and then whole lines of that tree may be written too.
///
/// Answers are gathered, and written before the reader is asked for more bytes, at the end, and where there is no
/// room for more: so each answer is written before the next line is waited for, and a chunk of 64 KiB that is
/// read takes one write. Bytes are read ahead, so some of those past a fault may be gone from the reader. The
/// writer is not flushed.
///
/// A script whose lines make no single steps of calls is played by a plain world with numbers, which has no steps, hands,
/// locks or marks.
///
/// The library's reader and writer do not tell which calls failed. [`play_counted`] is played over counters of both,
/// and says of them what `Read` and `Write` stand for.
/// Nothing except these answers is written, and nothing of the reader is left.
/// What reports write is what one scan of all logs counts.
/// A `go` is so many events `Go` of the actor, up to the first reply that it did not move.
/// `run` goes on until it did not move, and `do` is a start and then the same.
/// What is written of `go`, `run` and `do` is the last reply.
/// A fault of a line is the first that applies.
/// A number of too many digits is a fault.
/// A fault of a line has the number of its line.
/// A last line without its end is a fault.
/// The text of the lines before a fault is written.
/// A failed read leaves the text of the lines that were read whole.
/// A failed read takes no more of the reader than a piece of the next line.
/// A failed write leaves the text of some lines and a front of the next line's text.
/// Nothing is written after a failed write.
/// Want of memory comes before the first line or at a command.
/// Want of memory leaves the text of the lines before.
/// Want of memory leaves nothing of a command's text, or the lines of a tree's first nodes.
/// Want of memory is printed for a tree only in the place of its whole text.
/// Only tested: want of memory comes only where a growth was refused, each in turn.
/// Only tested: want of memory comes only where a growth was refused, with records of snapshots too.
/// Only tested: want of memory comes only where a growth was refused, with short-lived pairs too.
/// Only tested: want of memory comes only where a growth was refused, with refused calls on snapshots too.
/// Only tested: want of memory comes only where a growth was refused, with cleaners too.
/// Only tested: a refused line leaves what is reported, and has its answer when it is given again.
/// Only tested: a call that is refused on its way and made again by `do` is answered as if made once.
/// Only tested: answers that are waited for together are one write.
pub fn play<R: Read, W: Write>(alloc: Global, reader: &mut R, writer: &mut W) -> Result<(), Fault>
    // Where all lines are played, what is written is the text of what the world answers.
    // What the world answers is by `step`, `replies` and `after` of `nv_machine` and the reports of `nv_core`.
    ensures script { PlaysScript result (R.remaining reader.old) (R.remaining reader.new)
        (W.contents writer.old) (W.contents writer.new) }
    // A script that makes no single steps is played as by a plain world with numbers.
    // A line makes single steps where it is a `start`, a `go` or a `run`.
    ensures serial { PlaysAlone serial_player result (R.remaining reader.old)
        (R.remaining reader.new) (W.contents writer.old) (W.contents writer.new) }
{
    let mut reader = ReadCounter::new(reader);
    let mut writer = WriteCounter::new(writer);
    play_counted(alloc, &mut reader, &mut writer)
}

/// Plays a script as [`play`] does, and does not take its world apart: for a program that ends then, whose memory goes
/// back as a whole. Taking a large world apart block by block can take a tenth of the time of its script.
/// Each call has its name by one table.
/// Each call has its words by that table.
/// The first fault of a call is that from left to right.
/// Texts of replies are the defined ones.
/// Texts of trees and of snapshots are the defined ones.
/// A cleaner tells its manner, entries and pages.
pub fn play_and_leave<R: Read, W: Write>(
    alloc: Global,
    reader: &mut R,
    writer: &mut W,
) -> Result<(), Fault>
    ensures script { PlaysScript result (R.remaining reader.old) (R.remaining reader.new)
        (W.contents writer.old) (W.contents writer.new) }
    ensures serial { PlaysAlone serial_player result (R.remaining reader.old)
        (R.remaining reader.new) (W.contents writer.old) (W.contents writer.new) }
{
    let mut reader = ReadCounter::new(reader);
    let mut writer = WriteCounter::new(writer);
    play_counted_and_leave(alloc, &mut reader, &mut writer)
}

/// Plays a script as [`play`] does, from a reader and to a writer that count their failures.
///
/// One read fails where it ends by `Read`, one write where it ends by `Write`, and else none. So a call that failed is
/// not made again, and none comes after it, since that could fail too. For the same reason no line is asked for behind
/// the one that ends the script, nor while an answer is due.
/// Only tested: where its k-th read or write fails, what was answered before is written, and once.
pub fn play_counted<R: CountedRead, W: CountedWrite>(
    alloc: Global,
    reader: &mut R,
    writer: &mut W,
) -> Result<(), Fault>
    // E28 comes exactly where one more read failed, with every other ending none.
    // No read is made again that failed.
    // No line is asked for behind the one whose fault ends the script.
    // The reader is not asked while an answer is due.
    requires reads { R.failed reader.old < 2 ^ 64 - 1 }
    // E29 comes exactly where one more write failed, with every other ending none.
    // No write is made again that failed.
    requires writes { W.failed writer.old < 2 ^ 64 - 1 }
    ensures script { PlaysScript result (R.remaining reader.old) (R.remaining reader.new)
        (W.contents writer.old) (W.contents writer.new) }
    ensures serial { PlaysAlone serial_player result (R.remaining reader.old)
        (R.remaining reader.new) (W.contents writer.old) (W.contents writer.new) }
    ensures reads { R.failed reader.new ≡ R.failed reader.old + failed_reads result }
    ensures writes { W.failed writer.new ≡ W.failed writer.old + failed_writes result }
    // It goes on with the reader and the writer that it was given.
    ensures same_reader { R.place reader.new ≡ R.place reader.old }
    ensures same_writer { W.place writer.new ≡ W.place writer.old }
{
    let mut player = Player::new(alloc)?;
    player.play(&Answers, alloc, Echo::Off, reader, writer)
}

/// Plays a script as [`play_counted`] does, and does not take its world apart.
pub fn play_counted_and_leave<R: CountedRead, W: CountedWrite>(
    alloc: Global,
    reader: &mut R,
    writer: &mut W,
) -> Result<(), Fault>
    requires reads { R.failed reader.old < 2 ^ 64 - 1 }
    requires writes { W.failed writer.old < 2 ^ 64 - 1 }
    ensures script { PlaysScript result (R.remaining reader.old) (R.remaining reader.new)
        (W.contents writer.old) (W.contents writer.new) }
    ensures serial { PlaysAlone serial_player result (R.remaining reader.old)
        (R.remaining reader.new) (W.contents writer.old) (W.contents writer.new) }
    ensures reads { R.failed reader.new ≡ R.failed reader.old + failed_reads result }
    ensures writes { W.failed writer.new ≡ W.failed writer.old + failed_writes result }
    ensures same_reader { R.place reader.new ≡ R.place reader.old }
    ensures same_writer { W.place writer.new ≡ W.place writer.old }
{
    let mut player = Player::new(alloc)?;
    let outcome = player.play(&Answers, alloc, Echo::Off, reader, writer);
    mem::forget(player);
    outcome
}

/// Plays a script as [`play_and_leave`] does, and writes a line `> NUMBER TEXT` before the answers to each command: the number of
/// its line, counted from 1, and the line as it stands.
///
/// Without these lines the output is that of [`play`]. They are the ones that begin with `> ` and have another space: a line of an
/// answer that begins so, as the one of a file with the name `>`, has none. A line with a fault has no echo.
/// The number and the text of a command come before its answers.
/// A line that is skipped has no echo, and one with a fault has none.
pub fn play_echoed_and_leave<R: Read, W: Write>(
    alloc: Global,
    reader: &mut R,
    writer: &mut W,
) -> Result<(), Fault>
    ensures script { PlaysEchoed Echo.On result (R.remaining reader.old) (R.remaining reader.new)
        (W.contents writer.old) (W.contents writer.new) }
    // Without the echoes its output is that of `play`, with every end other than a failed write.
    ensures plain { PlaysWithoutEchoes result (R.remaining reader.old) (R.remaining reader.new)
        (W.contents writer.old) (W.contents writer.new) }
{
    let mut reader = ReadCounter::new(reader);
    let mut writer = WriteCounter::new(writer);
    echo_counted_and_leave(alloc, &mut reader, &mut writer)
}

/// Plays a script as [`play_echoed_and_leave`] does, from a reader and to a writer that count their failures.
pub fn echo_counted_and_leave<R: CountedRead, W: CountedWrite>(
    alloc: Global,
    reader: &mut R,
    writer: &mut W,
) -> Result<(), Fault>
    requires reads { R.failed reader.old < 2 ^ 64 - 1 }
    requires writes { W.failed writer.old < 2 ^ 64 - 1 }
    ensures script { PlaysEchoed Echo.On result (R.remaining reader.old) (R.remaining reader.new)
        (W.contents writer.old) (W.contents writer.new) }
    ensures plain { PlaysWithoutEchoes result (R.remaining reader.old) (R.remaining reader.new)
        (W.contents writer.old) (W.contents writer.new) }
    ensures same_reader { R.place reader.new ≡ R.place reader.old }
    ensures same_writer { W.place writer.new ≡ W.place writer.old }
{
    let mut player = Player::new(alloc)?;
    let outcome = player.play(&Answers, alloc, Echo::On, reader, writer);
    mem::forget(player);
    outcome
}
