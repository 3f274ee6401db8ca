//! The bytes of files, and the room that is left.

ghost use Rattle.std.specs.Prelude.{◌≡◌, min};
ghost use Rattle.nv_calls.specs.declared.call.Call.TheVariants as calls;
ghost use Rattle.nv_mounted.specs.Asks.{ask};
ghost use Rattle.nv_mounted.specs.Contents.{IsRoomAt, Statfs, bytes_told, count_told, fallocate, read_bytes, space_of, write_bytes};
ghost use Rattle.nv_mounted.specs.Dialogues.{IsHad};
ghost use Rattle.nv_mounted.specs.Side.{Does};

use crate::asks::{ask_done, ask_shape, copy_of};
use crate::mount::Mount;
use crate::side::Told;
use crate::world::{Core, Room};
use nv_base::{Bytes, Handle};
use nv_calls::{Answer, Call};
use nv_fuse::{Errno, Statistics};
use nv_mount_answers::Time;
use nv_mount_beside::{NAME, Outcome, Refusal, node};

/// How many bytes are read at most by one request: the kernel asks for 1 MiB.
const MOST_READ: u64 = 16_777_216;

/// The mode of `fallocate` that leaves the size.
const KEEP_SIZE: u32 = 1;

/// What is told of a room.
fn space(room: Room) -> Statistics
    // Blocks and inodes are those of the world, and all that are free are for all users.
    ensures { result ≡ space_of room }
{
    let block_size = room.block.min(u64::from(u32::MAX)) as u32;
    Statistics {
        blocks: room.blocks,
        free_blocks: room.free,
        available_blocks: room.free,
        inodes: room.inodes,
        free_inodes: room.free_inodes,
        block_size,
        name_length: NAME as u32,
        fragment_size: block_size,
    }
}

/// How many bytes are read by a request that asks for so many.
fn read_at_once(size: u32) -> u64
    // 16 MiB are read at most.
    ensures { result ≡ min size 16777216 }
{
    u64::from(size).min(MOST_READ)
}

/// Bytes of a file from an offset on, no more than so many.
fn ask_bytes<C: Core>(
    core: &mut C,
    file: &Handle,
    offset: u64,
    count: u64,
) -> Result<Bytes, Refusal>
    // One call tells them.
    ensures { IsHad C.Tells (ask (calls.Read file.now offset count) (bytes_told count))
        core.old result core.new }
{
    let file = *file;
    match core.call(Call::Read {
        file,
        offset,
        count,
    })? {
        Answer::Bytes(bytes) => {
            if bytes.len() as u64 > count {
                return Err(Refusal::Errno(Errno::InputOutput));
            }
            Ok(bytes)
        }
        _ => Err(Refusal::Errno(Errno::InputOutput)),
    }
}

/// How many bytes a call wrote.
fn ask_count<C: Core>(core: &mut C, call: Call) -> Result<u32, Refusal>
    // Its answer tells it.
    ensures { IsHad C.Tells (ask call count_told) core.old result core.new }
{
    match core.call(call)? {
        Answer::Count(count) => {
            if count > u64::from(u32::MAX) {
                return Err(Refusal::Errno(Errno::InputOutput));
            }
            Ok(count as u32)
        }
        _ => Err(Refusal::Errno(Errno::InputOutput)),
    }
}

impl<C: Core> Mount<C> {
    /// Bytes of a file from an offset on.
    pub(crate) fn read(&mut self, number: u64, offset: u64, size: u32) -> Result<Outcome, Refusal>
        // The world tells them, as many as were asked for at most.
        ensures had { IsHad C.Tells (read_bytes number offset size)
            self.old.core result self.new.core }
        ensures side { self.new.side ≡ self.old.side }
    {
        let file = node(number)?;
        let count = read_at_once(size);
        let bytes = ask_bytes(&mut self.core, &file, offset, count)?;
        Ok(Outcome::Contents(bytes))
    }

    /// Writes bytes into a file.
    pub(crate) fn write(
        &mut self,
        now: Time,
        number: u64,
        offset: u64,
        bytes: &[u8],
    ) -> Result<Outcome, Refusal>
        // The world writes them and tells how many, and the file has changed.
        ensures { Does C.Tells (write_bytes self.old.side now number offset bytes.now)
            self.old.core self.old.side result self.new.core self.new.side }
    {
        let file = node(number)?;
        let text = copy_of(self.alloc, bytes)?;
        let count = ask_count(&mut self.core, Call::Write { file, offset, text })?;
        self.side.touch(now, &file);
        Ok(Outcome::Written(count))
    }

    /// Makes a file as long as its last byte that is to have a place. No block is taken before it is written.
    pub(crate) fn fallocate(
        &mut self,
        now: Time,
        number: u64,
        end: Option<u64>,
        mode: u32,
    ) -> Result<Outcome, Refusal>
        // A shorter file is made as long, except in the mode that leaves the size.
        ensures { Does C.Tells (fallocate self.old.side now number end mode)
            self.old.core self.old.side result self.new.core self.new.side }
    {
        let file = node(number)?;
        if mode > KEEP_SIZE {
            return Err(Refusal::Errno(Errno::NotSupported));
        }
        let Some(size) = end else {
            return Err(Refusal::Errno(Errno::FileTooBig));
        };
        if mode == KEEP_SIZE {
            return Ok(Outcome::Done);
        }
        let shape = ask_shape(&mut self.core, &file)?;
        if shape.size >= size {
            return Ok(Outcome::Done);
        }
        ask_done(&mut self.core, Call::Size { file, size })?;
        self.side.touch(now, &file);
        Ok(Outcome::Done)
    }

    /// How much space there is. It is counted once a second at most, since a count walks all logs.
    pub(crate) fn statfs(&mut self, now: Time) -> Outcome
        // What was told in this second is told again.
        ensures { Statfs C.HasRoom self.old.core self.old.side now result
            self.new.core self.new.side }
    {
        let room = self.room_at(now);
        self.side.told = Some(Told {
            second: now.seconds,
            room,
        });
        Outcome::Space(space(room))
    }

    /// The room that is told at a time.
    fn room_at(&self, now: Time) -> Room
        // What was told in this second is told again.
        ensures { IsRoomAt C.HasRoom self.now.core now.seconds self.now.side.told result }
    {
        match self.side.told {
            Some(told) if told.second == now.seconds => told.room,
            _ => self.core.room(),
        }
    }
}
