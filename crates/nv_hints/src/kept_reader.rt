//! A reader that keeps the lines that were read last.

ghost use Rattle.std.specs.Prelude.{◌≡◌};

use crate::recent::Recent;
use nv_script::{CountedRead, ReadFailed};
use std::alloc::Global;
use std::io::Read;

/// A reader that counts its failures, and keeps the lines that were read last through it.
/// It reads what its reader reads, and keeps it.
#[derive(Drop)]
pub struct KeptReader<'a, R> {
    reader: &'a mut R,
    failures: u64,
    alloc: Global,
    recent: &'a mut Recent,
}

impl<'a, R: Read> KeptReader<'a, R> {
    /// No read has failed. What is read goes behind the lines of `recent`.
    pub fn new(alloc: Global, reader: &'a mut R, recent: &'a mut Recent) -> KeptReader<'a, R>
        ensures same { result.reader.ghost_name ≡ reader.entry.ghost_name }
        ensures reader { result.reader.now ≡ reader.old }
        ensures failures { result.failures ≡ 0 }
    {
        KeptReader {
            reader,
            failures: 0,
            alloc,
            recent,
        }
    }
}

impl<'a, R: Read> CountedRead for KeptReader<'a, R> {
    ghost remaining = { λ kept. R.remaining kept.reader.now };

    ghost failed = { λ kept. kept.failures };

    ghost place = { λ kept. kept.reader.ghost_name };

    fn read(&mut self, bytes: &mut [u8]) -> Result<usize, ReadFailed> {
        match self.reader.read(bytes) {
            Ok(count) => {
                if count == 0 && !bytes.is_empty() {
                    self.recent.end();
                } else {
                    self.recent.add(self.alloc, &bytes[..count]);
                }
                Ok(count)
            }
            Err(_) => {
                self.failures += 1;
                Err(ReadFailed)
            }
        }
    }

    fn failures(&self) -> u64 {
        self.failures
    }
}
