//! A reader and a writer of a script that tells how far it has come.
//!
//! They keep lines and count refusals as those of `nv_hints` do. Like those they own nothing, so that who lent the script's reader and
//! writer has them back as the player left them.

ghost use Rattle.std.specs.Prelude.{◌≡◌};

use crate::progress::Progress;
use nv_core::World;
use nv_hints::{Recent, Tally};
use nv_script::{CountedRead, CountedWrite, ReadFailed, WriteFailed};
use std::alloc::Global;
use std::io::{Read, Write};
use std::time::Clock;

/// A reader that counts its failures, keeps the lines that are read last, and tells, before each line, how far the script has come.
/// What tells how far a script has come reads nothing.
#[derive(Drop)]
pub(crate) struct WatchedReader<'a, 'p, T, R> {
    reader: &'a mut R,
    failures: u64,
    alloc: Global,
    recent: &'a mut Recent,
    progress: &'p Progress<'p, T>,
}

impl<'a, 'p, T: Clock + Eprint, R: Read> WatchedReader<'a, 'p, T, R> {
    /// No read has failed. What is read goes behind the lines of `recent`.
    pub(crate) fn new(
        alloc: Global,
        reader: &'a mut R,
        recent: &'a mut Recent,
        progress: &'p Progress<'p, T>,
    ) -> WatchedReader<'a, 'p, T, R>
        ensures same { result.reader.ghost_name ≡ reader.entry.ghost_name }
        ensures reader { result.reader.now ≡ reader.old }
        ensures failures { result.failures ≡ 0 }
    {
        WatchedReader {
            reader,
            failures: 0,
            alloc,
            recent,
            progress,
        }
    }
}

impl<'a, 'p, T: Clock + Eprint, R: Read> CountedRead for WatchedReader<'a, 'p, T, R> {
    ghost remaining = { λ watched. R.remaining watched.reader.now };

    ghost failed = { λ watched. watched.failures };

    ghost place = { λ watched. watched.reader.ghost_name };

    fn read(&mut self, bytes: &mut [u8]) -> Result<usize, ReadFailed> {
        match self.reader.read(bytes) {
            Ok(count) => {
                if count == 0 && !bytes.is_empty() {
                    self.recent.end();
                } else {
                    self.recent.add(self.alloc, &bytes[..count]);
                }
                Ok(count)
            }
            Err(_) => {
                self.failures += 1;
                Err(ReadFailed)
            }
        }
    }

    fn failures(&self) -> u64 {
        self.failures
    }

    fn before_line(&self, number: u64, world: Option<&World>) {
        self.progress.before_line(number, world);
    }
}

/// A writer that counts its failures and the refusals among what it writes, and makes room for answers on a terminal where something
/// is told.
/// It adds nothing to the answers.
#[derive(Drop)]
pub(crate) struct WatchedWriter<'a, 'p, T, W> {
    writer: &'a mut W,
    failures: u64,
    alloc: Global,
    tally: &'a mut Tally,
    progress: &'p Progress<'p, T>,
}

impl<'a, 'p, T: Clock + Eprint, W: Write> WatchedWriter<'a, 'p, T, W> {
    /// No write has failed. What is written goes to the `tally`.
    pub(crate) fn new(
        alloc: Global,
        writer: &'a mut W,
        tally: &'a mut Tally,
        progress: &'p Progress<'p, T>,
    ) -> WatchedWriter<'a, 'p, T, W>
        ensures same { result.writer.ghost_name ≡ writer.entry.ghost_name }
        ensures writer { result.writer.now ≡ writer.old }
        ensures failures { result.failures ≡ 0 }
    {
        WatchedWriter {
            writer,
            failures: 0,
            alloc,
            tally,
            progress,
        }
    }
}

impl<'a, 'p, T: Clock + Eprint, W: Write> CountedWrite for WatchedWriter<'a, 'p, T, W> {
    ghost contents = { λ watched. W.contents watched.writer.now };

    ghost failed = { λ watched. watched.failures };

    ghost place = { λ watched. watched.writer.ghost_name };

    fn write(&mut self, bytes: &[u8]) -> Result<usize, WriteFailed> {
        self.progress.before_answers();
        match self.writer.write(bytes) {
            Ok(count) if count > 0 || bytes.is_empty() => {
                self.tally.add(self.alloc, &bytes[..count]);
                Ok(count)
            }
            _ => {
                self.failures += 1;
                Err(WriteFailed)
            }
        }
    }

    fn failures(&self) -> u64 {
        self.failures
    }
}
