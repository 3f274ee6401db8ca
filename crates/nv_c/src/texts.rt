//! Calls on the bytes of files.

ghost use Rattle.std.specs.Prelude.{◌≡◌, ◌<◌, ◌≤◌, drop, length, take};
ghost use Rattle.nv_calls.specs.declared.answer.Answer.TheVariants as answers;
ghost use Rattle.nv_c.specs.Numbers.{handle_in};
ghost use Rattle.nv_c.specs.Worlds.{Calls, OnWorld};

use crate::held::Held;
use crate::numbers::NovaHandle;
use crate::slot::Nova;
use crate::status::{DONE, NO_WORLD, number_of};
use crate::told::tell_done;
use nv_calls::{Answer, Call};
use std::alloc::Global;

impl Held {
    fn write(&mut self, file: NovaHandle, offset: u64, text: &[u8]) -> u32
        ensures told { Calls (Call.Write (handle_in file) offset text.now) result
            (answers.Count (length text.now)) self.old self.new }
    {
        tell_done(self.files.write(file.handle(), offset, text))
    }

    fn size(&mut self, file: NovaHandle, size: u64) -> u32
        ensures told { Calls (Call.Size (handle_in file) size) result
            (answers.Nothing) self.old self.new }
    {
        tell_done(self.files.size(file.handle(), size))
    }

    fn read(&mut self, file: NovaHandle, offset: u64, into: &mut [u8], count: &mut usize) -> u32
        ensures told { Calls (Call.Read (handle_in file) offset (length into.old)) result
            (answers.Bytes (take count.new into.new)) self.old self.new }
        ensures count { result ≡ 0 → count.new ≤ length into.old }
        ensures rest { result ≡ 0 → drop count.new into.new ≡ drop count.new into.old }
        ensures kept { 0 < result → (into.new ≡ into.old) × (count.new ≡ count.old) }
    {
        match self.files.read(file.handle(), offset, into) {
            Ok(found) => {
                *count = found;
                DONE
            }
            Err(fault) => number_of(&fault),
        }
    }
}

/// Writes bytes into a file from an offset on: all of them, or none. What lies between the end and the offset becomes zeros.
#[unsafe(no_mangle)]
pub extern "C" fn nova_write(
    alloc: Global,
    nova: &mut Nova,
    file: NovaHandle,
    offset: u64,
    text: &[u8],
) -> u32
    // The status tells what the world with numbers tells of a `write`.
    ensures told { OnWorld nova.old.world.held nova.new.world.held result
        (Calls (Call.Write (handle_in file) offset text.now) result
        (answers.Count (length text.now))) }
{
    let Some(mut held) = nova.take(alloc) else {
        return NO_WORLD;
    };
    let status = held.write(file, offset, text);
    nova.fill(held);
    status
}

/// Cuts a file at a size, or adds zeros up to it.
#[unsafe(no_mangle)]
pub extern "C" fn nova_size(alloc: Global, nova: &mut Nova, file: NovaHandle, size: u64) -> u32
    // The status tells what the world with numbers tells of a `size`.
    ensures told { OnWorld nova.old.world.held nova.new.world.held result
        (Calls (Call.Size (handle_in file) size) result (answers.Nothing)) }
{
    let Some(mut held) = nova.take(alloc) else {
        return NO_WORLD;
    };
    let status = held.size(file, size);
    nova.fill(held);
    status
}

/// Reads bytes of a file from an offset on: as many as the file has there, up to the length of `into`. It tells how many they
/// are. The rest of `into` stays.
#[unsafe(no_mangle)]
pub extern "C" fn nova_read(
    alloc: Global,
    nova: &mut Nova,
    file: NovaHandle,
    offset: u64,
    into: &mut [u8],
    count: &mut usize,
) -> u32
    // The status tells what the world with numbers tells of a `read`, and the bytes stand in front.
    ensures told { OnWorld nova.old.world.held nova.new.world.held result
        (Calls (Call.Read (handle_in file) offset (length into.old)) result
        (answers.Bytes (take count.new into.new))) }
    // They are at most as many as asked for.
    ensures count { result ≡ 0 → count.new ≤ length into.old }
    // The rest stays.
    ensures rest { result ≡ 0 → drop count.new into.new ≡ drop count.new into.old }
    // A read that is refused leaves both places as they were.
    ensures kept { 0 < result → (into.new ≡ into.old) × (count.new ≡ count.old) }
{
    let Some(mut held) = nova.take(alloc) else {
        return NO_WORLD;
    };
    let status = held.read(file, offset, into, count);
    nova.fill(held);
    status
}
