//! Scripts that threads play: the lines before `fork` as `play` does, and those behind it by threads, beside cleaners.
#![tactic(auto)]

ghost use Rattle.std.specs.Prelude.{◌≡◌, ◌+◌, ◌-◌, ◌^◌, ◌<◌, ◌≤◌};
ghost use Rattle.nv_script.specs.Play.{failed_reads, failed_writes};
ghost use Rattle.nv_work.specs.Work.{WorksScript};

mod crew;
mod forked;
mod gate;
mod reading;
mod serving;

pub use gate::{Gate, OpenGate};
use nv_base::Fault;
use nv_script::player::Player;
use nv_script::{CountedRead, CountedWrite, ReadCounter, WriteCounter};
use reading::work_lines;
use std::alloc::Global;
use std::io::{Read, Write};
use std::sync::Wait;
use std::thread::Threads;

/// Plays a script in threads, beside cleaners.
///
/// The lines before `fork` are played as by [`play`](nv_script::play). Behind it stand `do` lines and comments alone, and all
/// are read before a thread starts. Thread `t` makes the calls of the lines whose actor is `t` modulo `threads`, in their
/// order, and calls the gate round each. Each cleaner goes through all inodes with an auto clean and then a drain of one
/// record, again and again, until the threads have ended; what it is refused is dropped. Then the answers are written,
/// thread by thread, each behind the thread's number and a colon, and the texts of `tree`, `snaps` and `audit`.
///
/// Faults are those of `play`, and `ScriptFault` of kind `order` at the last line of a script without `fork`, and at a
/// `fork` while no world is made; of kind `count` at a `fork` with more words; of kind `word` at a line behind `fork` that
/// is no `do`; `ActorBusy` where an actor has a call at `fork`. Where memory for an answer's text is refused in a thread,
/// the script ends by `OutOfMemory`.
///
/// Where no thread can be made, the calls of its lines are made by the caller's thread, and a cleaner makes none. It may
/// wait for ever where the gate does.
/// Only tested: no service fails to close.
/// Only tested: what a thread's calls are answered is what its session answered.
/// Only tested: cleaners clean while threads run.
/// Only tested: threads make their calls beside each other.
/// Only tested: eight threads and four cleaners on a full device lose no call.
/// Only tested: each growth may be refused in turn.
pub fn work<R: Read, W: Write, G: Gate + Sync, T: Threads + Wait + Sync>(
    rt: &T,
    alloc: Global,
    reader: &mut R,
    writer: &mut W,
    threads: u64,
    cleaners: u64,
    gate: &G,
) -> Result<(), Fault>
    requires threads { (1 ≤ threads) × (threads ≤ 32) }
    requires cleaners { cleaners ≤ 32 }
    // The lines before `fork` are played as by `play`, and their text is written.
    // Behind all answers of threads stand the reports on one world.
    // Events lead to that world; it has the numbers of that at `fork`, and no fewer commits.
    // A fault behind `fork` comes once the lines before are answered.
    // A fault has the number of its line; without `fork` that of the last one.
    // `SeatsOut` never comes.
    // `Mismatch` comes only once all lines were read, where no actor has a call at `fork`.
    // `ActorBusy` comes only where an actor has a call at `fork` and all lines were read.
    // It ends well, or among its answers, only where no actor has a call at `fork`.
    // A failed read takes no more of the reader than a piece of the next line.
    // A failed write leaves what was written before it, and of the answers a beginning.
    // The answers are those of all threads, by number.
    // An actor that is not there is answered in its place.
    ensures script { WorksScript threads result (R.remaining reader.old) (R.remaining reader.new)
        (W.contents writer.old) (W.contents writer.new) }
{
    let mut reader = ReadCounter::new(reader);
    let mut writer = WriteCounter::new(writer);
    work_counted(rt, alloc, &mut reader, &mut writer, threads, cleaners, gate)
}

/// Plays a script as [`work`] does, from a reader and to a writer that count their failures.
///
/// One read fails where it ends by `Read`, one write where it ends by `Write`, and else none.
pub fn work_counted<R: CountedRead, W: CountedWrite, G: Gate + Sync, T: Threads + Wait + Sync>(
    rt: &T,
    alloc: Global,
    reader: &mut R,
    writer: &mut W,
    threads: u64,
    cleaners: u64,
    gate: &G,
) -> Result<(), Fault>
    requires threads { (1 ≤ threads) × (threads ≤ 32) }
    requires cleaners { cleaners ≤ 32 }
    // E28 and E29 come exactly where one more read or write failed, with every other ending none.
    requires reads { R.failed reader.old < 2 ^ 64 - 1 }
    requires writes { W.failed writer.old < 2 ^ 64 - 1 }
    ensures script { WorksScript threads result (R.remaining reader.old) (R.remaining reader.new)
        (W.contents writer.old) (W.contents writer.new) }
    ensures reads { R.failed reader.new ≡ R.failed reader.old + failed_reads result }
    ensures writes { W.failed writer.new ≡ W.failed writer.old + failed_writes result }
    ensures same_reader { R.place reader.new ≡ R.place reader.old }
    ensures same_writer { W.place writer.new ≡ W.place writer.old }
{
    let mut player = Player::new(alloc)?;
    let outcome = work_lines(
        rt,
        alloc,
        &mut player,
        reader,
        writer,
        threads,
        cleaners,
        gate,
    );
    player.outbox.end(writer, outcome)
}
