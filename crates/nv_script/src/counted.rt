//! Readers and writers that tell of each call that fails, and how any reader or writer becomes one.
ghost use Rattle.std.specs.Prelude.{◌≡◌};

use nv_core::World;
use std::io::{Read, Write};

/// A read failed.
#[derive(Clone, Copy, Debug, PartialEq, Eq, Drop)]
pub struct ReadFailed;

/// A write failed, or took no byte of a text that has some.
#[derive(Clone, Copy, Debug, PartialEq, Eq, Drop)]
pub struct WriteFailed;

/// A reader that counts its failures. Contracts see the bytes that are left in it, where they are known, how many
/// reads failed, and where it reads from, which no call changes: of a borrowed reader the name of the borrow.
/// A failed call counts as one failure, and any other as none.
/// Bytes are read and written as by std's `Read` and `Write`, and failures are told.
pub trait CountedRead {
    ghost use Rattle.std.specs.Prelude.{◌≡◌, ℕ, ◌+◌, ◌-◌, ◌<◌, ◌^◌, List, OnErr, OnOk, Option};
    ghost use Rattle.std.specs.Io.{ReadsAtMost};
    ghost use Rattle.std.specs.Io.KnownBytes.{ReadConsumes};

    ghost remaining: { Self → Option (List ℕ) };

    ghost failed: { Self → ℕ };

    ghost place: { Self → ℕ };

    /// Reads bytes to the front of `bytes`, and says how many. There are none only at the end, or without room.
    fn read(&mut self, bytes: &mut [u8]) -> Result<usize, ReadFailed>
        requires { failed self.old < 2 ^ 64 - 1 }
        ensures bound { ReadsAtMost result bytes.new }
        ensures bytes { ReadConsumes (remaining self.old) (remaining self.new) result bytes.new }
        ensures ok { OnOk result (failed self.new ≡ failed self.old) }
        ensures err { OnErr result (failed self.new ≡ failed self.old + 1) }
        ensures same { place self.new ≡ place self.old };

    /// How many reads failed.
    fn failures(&self) -> u64
        ensures { result ≡ failed self.now };

    /// Comes before the line of this number is taken, with the world as it stands then. A reader that tells how far a script has
    /// come does so here, and others do nothing.
    fn before_line(&self, _number: u64, _world: Option<&World>) {}
}

/// A writer that counts its failures. Contracts see the bytes that it holds, where they are known, how many writes
/// failed, and where it writes to, which no call changes: of a borrowed writer the name of the borrow.
/// A write that takes no byte of some is a failure.
pub trait CountedWrite {
    ghost use Rattle.std.specs.Prelude.{◌≡◌, ℕ, ◌+◌, ◌-◌, ◌<◌, ◌^◌, List, IfOk, OnErr, OnOk, Option, length};
    ghost use Rattle.std.specs.Io.{WritesAtMost};
    ghost use Rattle.std.specs.Io.KnownBytes.{WriteAppends};

    ghost contents: { Self → Option (List ℕ) };

    ghost failed: { Self → ℕ };

    ghost place: { Self → ℕ };

    /// Writes a front of `bytes`, and says how many. That it takes no byte of some is a failure.
    fn write(&mut self, bytes: &[u8]) -> Result<usize, WriteFailed>
        requires { failed self.old < 2 ^ 64 - 1 }
        ensures bound { WritesAtMost result bytes.now }
        ensures some { IfOk result (λ count. 0 < length bytes.now → 0 < count) }
        ensures bytes { WriteAppends (contents self.old) (contents self.new) result bytes.now }
        ensures ok { OnOk result (failed self.new ≡ failed self.old) }
        ensures err { OnErr result (failed self.new ≡ failed self.old + 1) }
        ensures same { place self.new ≡ place self.old };

    /// How many writes failed.
    fn failures(&self) -> u64
        ensures { result ≡ failed self.now };
}

/// Counts the failed reads of a reader.
/// Only tested: a failure is a failed call of the reader or writer itself, made once; an end is none.
#[derive(Drop)]
pub struct ReadCounter<'a, R> {
    reader: &'a mut R,
    failures: u64,
}

impl<'a, R: Read> ReadCounter<'a, R> {
    /// No read has failed.
    pub fn new(reader: &'a mut R) -> ReadCounter<'a, R>
        // No call has failed, and reader and writer are as they were.
        ensures same { result.reader.ghost_name ≡ reader.entry.ghost_name }
        ensures reader { result.reader.now ≡ reader.old }
        ensures failures { result.failures ≡ 0 }
    {
        ReadCounter {
            reader,
            failures: 0,
        }
    }
}

impl<'a, R: Read> CountedRead for ReadCounter<'a, R> {
    ghost remaining = { λ counter. R.remaining counter.reader.now };

    ghost failed = { λ counter. counter.failures };

    ghost place = { λ counter. counter.reader.ghost_name };

    fn read(&mut self, bytes: &mut [u8]) -> Result<usize, ReadFailed> {
        match self.reader.read(bytes) {
            Ok(count) => Ok(count),
            Err(_) => {
                self.failures += 1;
                Err(ReadFailed)
            }
        }
    }

    fn failures(&self) -> u64 {
        self.failures
    }
}

/// Counts the failed writes of a writer, and those that take no byte.
#[derive(Drop)]
pub struct WriteCounter<'a, W> {
    writer: &'a mut W,
    failures: u64,
}

impl<'a, W: Write> WriteCounter<'a, W> {
    /// No write has failed.
    pub fn new(writer: &'a mut W) -> WriteCounter<'a, W>
        ensures same { result.writer.ghost_name ≡ writer.entry.ghost_name }
        ensures writer { result.writer.now ≡ writer.old }
        ensures failures { result.failures ≡ 0 }
    {
        WriteCounter {
            writer,
            failures: 0,
        }
    }
}

impl<'a, W: Write> CountedWrite for WriteCounter<'a, W> {
    ghost contents = { λ counter. W.contents counter.writer.now };

    ghost failed = { λ counter. counter.failures };

    ghost place = { λ counter. counter.writer.ghost_name };

    fn write(&mut self, bytes: &[u8]) -> Result<usize, WriteFailed> {
        match self.writer.write(bytes) {
            Ok(count) if count > 0 || bytes.is_empty() => Ok(count),
            _ => {
                self.failures += 1;
                Err(WriteFailed)
            }
        }
    }

    fn failures(&self) -> u64 {
        self.failures
    }
}
