//! Readers and writers that fail at each of their calls in turn, in worked rows. A line comes at each read, and is answered before
//! the next one. Texts that fail so are those of sessions, in the tests of the service.

use crate::cleaners_beside::A_DRAIN_OF_ITS_FILE_MEANWHILE;
use crate::compare::{same_for, same_text};
use crate::ends::written_by_front;
use crate::pieces::{Counts, counted_ending};
use crate::snapshots::A_WRITE_ACROSS_A_SNAPSHOT;
use crate::worked::{Row, TREE_BY_SETTLED_LOGS};
use nv_base::Fault;
use nv_refuser::Tally;
use std::alloc::Global;
use std::io;
use std::io::{ErrorKind, Print, Read, Write};
use std::process::Abort;
use std::test::Fail;

/// What a device does at one of its calls.
#[derive(Clone, Copy, Debug, PartialEq, Eq)]
enum Failure {
    ReadFails,
    WriteFails,
    WriteTakesNone,
    /// It takes the first byte. The next write has the others.
    WriteTakesOne,
}

/// What fails, how the script ends then, and how many reads and writes failed. A script that goes on ends as it would.
const DEVICES: &[(Failure, Option<Counts>)] = &[
    (Failure::ReadFails, Some((Err(Fault::Read), 1, 0))),
    (Failure::WriteFails, Some((Err(Fault::Write), 0, 1))),
    (Failure::WriteTakesNone, Some((Err(Fault::Write), 0, 1))),
    (Failure::WriteTakesOne, None),
];

/// How many bytes the first line has, with the empty lines behind it.
fn first_line(script: &[u8]) -> usize {
    let Some(end) = script.iter().position(|byte| *byte == b'\n') else {
        return script.len();
    };
    let behind = script.split_at(end).1;
    let empty = behind.iter().position(|byte| *byte != b'\n');
    end.saturating_add(empty.unwrap_or(behind.len()))
}

/// Gives a line at each read, and fails at the read with this number, counted from 1.
#[derive(Drop)]
struct Lines<'a> {
    left: &'a [u8],
    given: usize,
    /// How many bytes were given before the last line.
    before_last: usize,
    reads: u64,
    failing: Option<u64>,
}

impl<'a> Read for Lines<'a> {
    fn read(&mut self, buf: &mut [u8]) -> io::Result<usize> {
        self.reads = self.reads.saturating_add(1);
        if self.failing == Some(self.reads) {
            return Err(ErrorKind::Other.into());
        }
        let count = first_line(self.left).min(buf.len()).min(self.left.len());
        let (front, rest) = self.left.split_at(count);
        buf[..count].copy_from_slice(front);
        self.left = rest;
        if count > 0 {
            self.before_last = self.given;
            self.given = self.given.saturating_add(count);
        }
        Ok(count)
    }
}

/// Takes all of each write, except for the write with this number, counted from 1.
#[derive(Drop)]
struct Paper {
    written: Vec<u8>,
    writes: u64,
    failing: Option<u64>,
    failure: Failure,
}

impl Paper {
    /// How many of so many bytes the next write takes.
    fn turn(&mut self, len: usize) -> io::Result<usize> {
        self.writes = self.writes.saturating_add(1);
        if self.failing != Some(self.writes) {
            return Ok(len);
        }
        match self.failure {
            Failure::WriteTakesNone => Ok(0),
            Failure::WriteTakesOne => Ok(len.min(1)),
            _ => Err(ErrorKind::Other.into()),
        }
    }
}

impl Write for Paper {
    fn write(&mut self, buf: &[u8]) -> io::Result<usize> {
        let taken = self.turn(buf.len())?.min(buf.len());
        self.written.extend_from_slice(&buf[..taken])?;
        Ok(taken)
    }

    fn flush(&mut self) -> io::Result<()> {
        Ok(())
    }
}

/// How a script ended, how many bytes of it were answered by then, what was written, and whether the device came to its failure.
#[derive(Drop)]
struct Ended {
    counts: Counts,
    answered: usize,
    written: Vec<u8>,
    has_failed: bool,
}

/// Plays a script on a device that fails so at its call with this number.
fn played_on(alloc: Global, script: &[u8], failure: Failure, call: u64) -> Ended {
    let is_read = failure == Failure::ReadFails;
    let mut reader = Lines {
        left: script,
        given: 0,
        before_last: 0,
        reads: 0,
        failing: if is_read { Some(call) } else { None },
    };
    let mut writer = Paper {
        written: Vec::new(alloc),
        writes: 0,
        failing: if is_read { None } else { Some(call) },
        failure,
    };
    let counts = counted_ending(alloc, &mut reader, &mut writer);
    let (made, answered) = if is_read {
        (reader.reads, reader.given)
    } else {
        (writer.writes, reader.before_last)
    };
    Ended {
        counts,
        answered,
        written: writer.written,
        has_failed: call <= made,
    }
}

/// How a script ends on a device that doesn't fail.
fn plain_counts(alloc: Global, script: &[u8]) -> Counts {
    played_on(alloc, script, Failure::ReadFails, 0).counts
}

/// A row on a device that fails so at one of its calls.
type Failing<'a> = (&'a [u8], &'a [u8], Failure, Counts);

/// Plays a script on a device that fails at one of its calls, and tells whether it came to that. Then all answers before are written,
/// each once, and nothing else is. What a write took in part is written whole.
fn fails_at(rt: &impl Abort, alloc: Global, failing: Failing<'_>, call: u64) -> bool {
    let (script, want, failure, counts) = failing;
    let ended = played_on(alloc, script, failure, call);
    let row = (failure, call);
    let written = ended.written.as_slice();
    if !ended.has_failed {
        same_text(rt, &row, written, want);
        return false;
    }
    same_for(rt, &row, ended.counts, counts);
    if failure == Failure::WriteTakesOne {
        same_text(rt, &row, written, want);
        return true;
    }
    let answered = script.split_at(ended.answered.min(script.len())).0;
    same_text(
        rt,
        &row,
        written,
        written_by_front(alloc, answered).as_slice(),
    );
    true
}

/// Plays a row on each device of the table, which fails at each of its calls in turn.
pub fn sweep_devices<R: AllocGlobal + Abort + Print>(
    rt: &R,
    name: &str,
    script: &[u8],
    want: &[u8],
) -> Result<(), Fail> {
    let alloc = rt.alloc();
    let plain = plain_counts(alloc, script);
    let mut tally = Tally::new();
    for (failure, counts) in DEVICES {
        let failing = (script, want, *failure, (*counts).unwrap_or(plain));
        for call in 1..u64::MAX {
            tally.runs = tally.runs.saturating_add(1);
            if !fails_at(rt, alloc, failing, call) {
                break;
            }
            tally.refused = tally.refused.saturating_add(1);
        }
    }
    tally.tell(rt, name);
    Ok(())
}

const ROWS: [(&str, Row); 3] = [
    ("a write under a snapshot", A_WRITE_ACROSS_A_SNAPSHOT),
    ("a drain beside a cleaner", A_DRAIN_OF_ITS_FILE_MEANWHILE),
    ("a rename over a file", TREE_BY_SETTLED_LOGS),
];

/// A reader and a writer that fail at each of their calls leave all answers before, once: a clause lets it be any front.
#[test]
fn devices_fail_at_each_call(rt: HostRuntime) -> Result<(), Fail> {
    for (name, row) in ROWS {
        sweep_devices(&rt, name, row.0.as_bytes(), row.1.as_bytes())?;
    }
    Ok(())
}
