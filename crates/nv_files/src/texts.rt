//! Calls on the bytes of files.

ghost use Rattle.std.specs.Prelude.{◌≡◌, ◌≤◌, IfOk, OnErr, drop, length, take};
ghost use Rattle.nv_files.specs.Stands.{Leads};
ghost use Rattle.nv_files.specs.Told.{IsToldOrStarved};

use crate::answers::{bytes_of, count_of};
use crate::files::Files;
use nv_base::{Fault, Handle};
use nv_calls::{Answer, Call};

impl Files {
    /// Writes bytes into a file from an offset in bytes on. What lies between the end and the offset becomes zeros.
    /// Either all of them are written, or none.
    pub fn write(&mut self, file: Handle, offset: u64, text: &[u8]) -> Result<(), Fault>
        // A `write` leaves the bytes that the world with numbers leaves, all of them, or is refused as there.
        ensures { Leads (IsToldOrStarved (Call.Write file offset text.now) result
            (λ _. Answer.Count (length text.now))) self.old self.new }
    {
        let copy = self.copy_of(text)?;
        let answer = self.call(Call::Write {
            file,
            offset,
            text: copy,
        })?;
        count_of(answer);
        Ok(())
    }

    /// Reads bytes of a file from an offset on: as many as the file has there, up to the length of `into`. It tells how
    /// many they are. The rest of `into` stays.
    pub fn read(&mut self, file: Handle, offset: u64, into: &mut [u8]) -> Result<usize, Fault>
        // A `read` gives the bytes of the world with numbers, in front of what stood in the place that it was given.
        ensures told { Leads (IsToldOrStarved (Call.Read file offset (length into.old)) result
            (λ count. Answer.Bytes (take count into.new))) self.old self.new }
        // It tells how many they are, at most as many as asked for, and the rest stays.
        ensures count { IfOk result (λ count. count ≤ length into.old) }
        ensures rest { IfOk result (λ count. drop count into.new ≡ drop count into.old) }
        // A read that is refused leaves the place as it was.
        ensures kept { OnErr result (into.new ≡ into.old) }
    {
        let answer = self.call(Call::Read {
            file,
            offset,
            count: into.len() as u64,
        })?;
        let found = bytes_of(answer);
        fill_front(into, found.as_slice());
        Ok(found.len())
    }

    /// Cuts a file at a size, or adds zeros up to it.
    pub fn size(&mut self, file: Handle, size: u64) -> Result<(), Fault>
        // A `size` leaves the bytes that the world with numbers leaves, or is refused as there.
        ensures { Leads (IsToldOrStarved (Call.Size file size) result
            (λ _. Answer.Nothing)) self.old self.new }
    {
        self.change(Call::Size { file, size })
    }
}

/// Puts bytes in front of what stands there.
fn fill_front(into: &mut [u8], bytes: &[u8])
    requires { length bytes.now ≤ length into.old }
    ensures front { take (length bytes.now) into.new ≡ bytes.now }
    ensures rest { drop (length bytes.now) into.new ≡ drop (length bytes.now) into.old }
{
    into[..bytes.len()].copy_from_slice(bytes);
}
