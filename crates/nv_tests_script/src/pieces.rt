//! Readers and writers that move a few bytes at a call, and scripts that are played through them.

use nv_base::Fault;
use nv_script::{CountedRead, CountedWrite, ReadCounter, WriteCounter, play, play_counted};
use std::alloc::Global;
use std::io;
use std::io::{ErrorKind, Read, Write};

/// Moves at most so many bytes at a call, and is interrupted once, when no call is left.
#[derive(Drop)]
struct Pieces<T> {
    inner: T,
    most: usize,
    calls: usize,
}

impl<T> Pieces<T> {
    /// How many of so many bytes the next call moves.
    fn turn(&mut self, len: usize) -> io::Result<usize> {
        if self.calls == 0 {
            self.calls = usize::MAX;
            return Err(ErrorKind::Interrupted.into());
        }
        self.calls -= 1;
        Ok(len.min(self.most))
    }
}

impl<T: Read> Read for Pieces<T> {
    fn read(&mut self, buf: &mut [u8]) -> io::Result<usize> {
        let count = self.turn(buf.len())?.min(buf.len());
        self.inner.read(&mut buf[..count])
    }
}

impl<T: Write> Write for Pieces<T> {
    fn write(&mut self, buf: &[u8]) -> io::Result<usize> {
        let count = self.turn(buf.len())?.min(buf.len());
        self.inner.write(&buf[..count])
    }

    fn flush(&mut self) -> io::Result<()> {
        Ok(())
    }
}

/// Plays a script, and says how it ends. No clause says here what a script does, so that no test carries that along.
pub fn ending<R: Read, W: Write>(
    alloc: Global,
    reader: &mut R,
    writer: &mut W,
) -> Result<(), Fault> {
    play(alloc, reader, writer)
}

/// How a script ends, and how many reads and writes failed.
pub type Counts = (Result<(), Fault>, u64, u64);

/// Plays a script, and says how it ends and what failed.
pub fn counted_ending<R: Read, W: Write>(alloc: Global, reader: &mut R, writer: &mut W) -> Counts {
    let mut reader = ReadCounter::new(reader);
    let mut writer = WriteCounter::new(writer);
    let outcome = play_counted(alloc, &mut reader, &mut writer);
    (outcome, reader.failures(), writer.failures())
}

/// The most bytes of a call, and how many calls there are before one is interrupted.
pub type Pace = (usize, usize);

/// Moves all bytes that there are, and is never interrupted.
pub const AT_ONCE: Pace = (usize::MAX, usize::MAX);

/// What is moved at such a pace.
fn at_pace<T>(inner: T, pace: Pace) -> Pieces<T> {
    Pieces {
        inner,
        most: pace.0,
        calls: pace.1,
    }
}

/// Plays a script that is read and written in pieces; how it ends, and what it writes.
pub fn play_in_pieces(
    alloc: Global,
    script: &[u8],
    reads: Pace,
    writes: Pace,
) -> (Result<(), Fault>, Vec<u8>) {
    let mut reader = at_pace(script, reads);
    let mut writer = at_pace(Vec::new(alloc), writes);
    let outcome = ending(alloc, &mut reader, &mut writer);
    (outcome, writer.inner)
}
