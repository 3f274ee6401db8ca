//! The script of two writers, of which a read fails, or to which a write fails.

use crate::compare::{holds_for, same_for};
use crate::writers::{IN_THREADS, TWO_WRITERS};
use nv_base::Fault;
use nv_work::{OpenGate, work};
use std::alloc::Global;
use std::io;
use std::io::{ErrorKind, Read, Write};
use std::process::Abort;
use std::sync::Wait;
use std::thread::Threads;

/// Gives a line at each read, and fails at the read with this number, counted from 1.
#[derive(Drop)]
struct Lines<'a> {
    left: &'a [u8],
    reads: u64,
    failing: u64,
}

impl<'a> Read for Lines<'a> {
    fn read(&mut self, buf: &mut [u8]) -> io::Result<usize> {
        self.reads = self.reads.saturating_add(1);
        if self.reads == self.failing {
            return Err(ErrorKind::Other.into());
        }
        let line = match self.left.iter().position(|byte| *byte == b'\n') {
            Some(end) => end + 1,
            None => self.left.len(),
        };
        let count = line.min(buf.len());
        let (front, rest) = self.left.split_at(count);
        buf[..count].copy_from_slice(front);
        self.left = rest;
        Ok(count)
    }
}

/// How a write fails.
#[derive(Clone, Copy, Debug, PartialEq, Eq)]
enum Failure {
    /// By an error.
    Refused,
    /// It takes no byte.
    TakesNone,
    /// It takes the first byte, and each later write takes all.
    TakesOne,
}

/// Takes all of each write, and fails at the write with this number, counted from 1, and at each later one.
#[derive(Drop)]
struct Paper {
    written: Vec<u8>,
    writes: u64,
    failing: u64,
    failure: Failure,
}

impl Paper {
    /// How many of so many bytes the next write takes.
    fn turn(&mut self, len: usize) -> io::Result<usize> {
        self.writes = self.writes.saturating_add(1);
        match self.failure {
            Failure::Refused if self.writes >= self.failing => Err(ErrorKind::Other.into()),
            Failure::TakesNone if self.writes >= self.failing => Ok(0),
            Failure::TakesOne if self.writes == self.failing => Ok(len.min(1)),
            _ => Ok(len),
        }
    }
}

impl Write for Paper {
    fn write(&mut self, buf: &[u8]) -> io::Result<usize> {
        let taken = self.turn(buf.len())?.min(buf.len());
        self.written.extend_from_slice(&buf[..taken])?;
        Ok(taken)
    }

    fn flush(&mut self) -> io::Result<()> {
        Ok(())
    }
}

/// How the script ends in two threads beside a cleaner, and what is written then.
fn worked<R: Threads + Wait + Abort + Sync>(
    rt: &R,
    alloc: Global,
    failing_read: u64,
    failing_write: u64,
    failure: Failure,
) -> (Result<(), Fault>, Vec<u8>) {
    let mut reader = Lines {
        left: TWO_WRITERS,
        reads: 0,
        failing: failing_read,
    };
    let mut writer = Paper {
        written: Vec::new(alloc),
        writes: 0,
        failing: failing_write,
        failure,
    };
    let outcome = work(rt, alloc, &mut reader, &mut writer, 2, 1, &OpenGate);
    (outcome, writer.written)
}

/// No read and no write has this number.
const NEVER: u64 = u64::MAX;

/// The read that fails, and what is written: the answers of the lines before. Behind `fork`, the fourth line, nothing is
/// answered until all lines were read, and the eleventh read finds the end.
const READS: [(u64, &[u8]); 11] = [
    (1, b""),
    (2, b"formatted\n"),
    (3, b"formatted\ndone 1.1\n"),
    (4, b"formatted\ndone 1.1\ndone 2.1\n"),
    (5, b"formatted\ndone 1.1\ndone 2.1\n"),
    (6, b"formatted\ndone 1.1\ndone 2.1\n"),
    (7, b"formatted\ndone 1.1\ndone 2.1\n"),
    (8, b"formatted\ndone 1.1\ndone 2.1\n"),
    (9, b"formatted\ndone 1.1\ndone 2.1\n"),
    (10, b"formatted\ndone 1.1\ndone 2.1\n"),
    (11, b"formatted\ndone 1.1\ndone 2.1\n"),
];

/// The write that fails, and what is written before: each line's answer before the next line is asked for, and then all
/// answers of threads and the reports at once.
const WRITES: [(u64, &[u8]); 4] = [
    (1, b""),
    (2, b"formatted\n"),
    (3, b"formatted\ndone 1.1\n"),
    (4, b"formatted\ndone 1.1\ndone 2.1\n"),
];

/// A read that fails ends the script behind the answers of the lines before: a clause lets it be any front.
#[test]
fn a_failed_read_ends_the_script(rt: HostRuntime) {
    for (read, want) in READS {
        let (outcome, text) = worked(&rt, rt.alloc(), read, NEVER, Failure::Refused);
        same_for(&rt, &read, outcome, Err(Fault::Read));
        holds_for(&rt, &read, text.as_slice() == want);
    }
    let (outcome, text) = worked(&rt, rt.alloc(), 12, NEVER, Failure::Refused);
    same_for(&rt, &"no twelfth read", outcome, Ok(()));
    holds_for(&rt, &"no twelfth read", text.as_slice() == IN_THREADS);
}

/// A write that fails ends the script behind what was written before: a clause lets it be any front.
#[test]
fn a_failed_write_ends_the_script(rt: HostRuntime) {
    for failure in [Failure::Refused, Failure::TakesNone] {
        for (write, want) in WRITES {
            let row = (write, failure);
            let (outcome, text) = worked(&rt, rt.alloc(), NEVER, write, failure);
            same_for(&rt, &row, outcome, Err(Fault::Write));
            holds_for(&rt, &row, text.as_slice() == want);
        }
    }
    for (write, _) in WRITES {
        let (outcome, text) = worked(&rt, rt.alloc(), NEVER, write, Failure::TakesOne);
        same_for(&rt, &write, outcome, Ok(()));
        holds_for(&rt, &write, text.as_slice() == IN_THREADS);
    }
    let (outcome, text) = worked(&rt, rt.alloc(), NEVER, 5, Failure::Refused);
    same_for(&rt, &"no fifth write", outcome, Ok(()));
    holds_for(&rt, &"no fifth write", text.as_slice() == IN_THREADS);
}
