//! Blocks in the order taken.

ghost use Rattle.std.specs.Prelude.{◌≡◌, ℕ, ◌+◌, ◌-◌, ◌<◌, ◌≤◌, ◌^◌, ◌++◌, ◌∷◌, [], ◌==◌, OnOk, length, max, drop, slice_get, slice_index_or, option_to_list};
ghost use Rattle.std.specs.VecDeque.Iter.{deque_iter_rest};
ghost use Rattle.std.specs.Borrow.{sem};
ghost use Rattle.nv_base.specs.Refusals.{FailsOnlyWhere, KeepsOnErr};
ghost use Rattle.nv_alloc.specs.Block.{AreSized, BlockValue};
ghost use Rattle.nv_alloc.specs.Giving.{after_giving};
ghost use Rattle.nv_alloc.specs.Queue.{after_home};
ghost use Rattle.nv_base.specs.Memory.{out_of_memory};

use crate::giving::{dismantle, fit_in_memory, give_blocks};
use crate::{Block, FreeList};
use nv_base::Fault;
use std::alloc::Global;
use std::collections::{VecDeque, vec_deque};
use std::marker::Model;
use std::mem;

/// Blocks of one size, first in, first out, with room that is reserved before. Contracts see the blocks in the
/// order taken, their bytes, and the room: how many more blocks fit without memory.
pub struct BlockQueue {
    blocks: VecDeque<Block>,
    size: usize,
}

impl Model for BlockQueue {
    ghost use Rattle.std.specs.Prelude.{◌-◌};
    ghost use Rattle.std.specs.VecDeque.{deque_len, deque_capacity};
    ghost use Rattle.nv_alloc.specs.Block.{AreSized};
    ghost use Rattle.nv_alloc.specs.Queue.{QueueValue};

    ghost Value = { QueueValue };

    ghost view = { λ q. record {
      blocks = q.blocks.items;
      size = q.size;
      room = deque_capacity q.blocks - deque_len q.blocks;
    } };

    // Each block has as many bytes as the queue says.
    ghost invariant = { λ q. AreSized q.size q.blocks.items };
}

impl BlockQueue {
    ghost use Rattle.nv_alloc.specs.QueueLends.{LendsBytesAt};

    /// A queue without blocks, for blocks of `size` bytes.
    pub fn new(alloc: Global, size: usize) -> BlockQueue
        ensures { result ≡ record { blocks = []; size = size; room = 0 } }
    {
        BlockQueue {
            blocks: VecDeque::from_vec(Vec::new(alloc)),
            size,
        }
    }

    /// Makes room for `n` more blocks: `OutOfMemory` where there is none, and nothing has changed.
    #[inline(always)]
    pub fn reserve(&mut self, n: u64) -> Result<(), Fault>
        // Room for blocks is made before they come.
        ensures ok { OnOk result (self.new ≡ record self.old { room = max self.old.room n }) }
        // A refused growth changes nothing and comes only where room was missing.
        ensures err { FailsOnlyWhere out_of_memory (self.old.room < n) result }
        ensures same { KeepsOnErr result self.old self.new }
    {
        self.blocks.reserve_exact(n as usize)?;
        Ok(())
    }

    /// How many more blocks fit without memory.
    pub fn room(&self) -> u64
        // Readers tell the room and the blocks of a queue.
        ensures { result ≡ self.now.room }
    {
        (self.blocks.capacity() - self.blocks.len()) as u64
    }

    /// The bytes of each block.
    pub fn block_bytes(&self) -> usize
        // All blocks of a queue have as many bytes as it tells.
        ensures size { result ≡ self.now.size }
        ensures sized { AreSized self.now.size self.now.blocks }
    {
        self.size
    }

    /// What holds of each queue: its blocks have as many bytes as it tells. Costs nothing.
    pub fn keeps_its_size(&self)
        // All blocks of a queue have as many bytes as it tells.
        ensures { AreSized self.now.size self.now.blocks }
    {
        let _size = self.block_bytes();
    }

    /// How many blocks are held.
    pub fn len(&self) -> u64
        ensures { result ≡ length self.now.blocks }
    {
        self.blocks.len() as u64
    }

    /// What holds of each queue: its blocks fit in memory. Costs nothing.
    pub(crate) fn fits_in_memory(&self)
        ensures { length self.now.blocks < 2 ^ 62 }
    {
        fit_in_memory(&self.blocks);
    }

    /// Whether the queue has no block.
    pub fn is_empty(&self) -> bool
        ensures { result ≡ (length self.now.blocks == 0) }
    {
        self.blocks.is_empty()
    }

    /// The blocks in the order taken.
    pub fn iter(&self) -> vec_deque::Iter<'_, Block>
        ensures { deque_iter_rest result ≡ self.now.blocks }
    {
        self.blocks.iter()
    }

    /// The bytes of the block at this place, counted from 0 in the order taken, to be written in place.
    pub fn bytes_mut(&mut self, place: usize) -> &mut [u8]
        requires { place < length self.old.blocks }
        // The bytes of one block are written in place; no other block changes.
        ensures* writes_back { sem 𝓛 (LendsBytesAt self.entry place result) }
        ensures value { (block : BlockValue) →
            result.now ≡ (slice_index_or self.old.blocks place block).bytes }
        ensures length { length result.now ≡ self.old.size }
    {
        let block = &mut self.blocks[place];
        block.bytes_mut()
    }

    /// Puts a block behind the others.
    pub fn put(&mut self, block: Block)
        requires room { 0 < self.old.room }
        requires sized { length block.bytes ≡ self.old.size }
        // Queues are first in, first out: a block goes to the end.
        ensures { self.new ≡ record self.old {
          blocks = self.old.blocks ++ block ∷ [];
          room = self.old.room - 1;
        } }
    {
        self.blocks.push_back_reserved(block);
    }

    /// Takes out the block that has been held longest.
    pub fn take_next(&mut self) -> Option<Block>
        // The first block of a queue is taken, and the rest stays in order.
        ensures block { result ≡ slice_get self.old.blocks 0 }
        ensures rest { self.new ≡ record self.old {
          blocks = drop 1 self.old.blocks;
          room = self.old.room + length (option_to_list result);
        } }
    {
        self.blocks.pop_front()
    }

    /// Takes out all blocks, without memory, and with them the room that they stood in.
    pub fn take_all(&mut self) -> Vec<Block>
        // All blocks of a queue are taken in order, and their room goes with them.
        ensures blocks { result.items ≡ self.old.blocks }
        ensures rest { self.new ≡ record self.old { blocks = []; room = 0 } }
    {
        let none = Vec::new(*self.blocks.allocator());
        mem::replace(&mut self.blocks, VecDeque::from_vec(none)).into_vec()
    }

    /// Gives the list the blocks that it takes, one after another, and keeps the others in their order.
    pub fn give_blocks(&mut self, list: &mut FreeList)
        // All that a list takes goes home to it, and the rest stays in order, with no condition.
        ensures kept { self.new ≡ after_home list.old self.old }
        ensures given { list.new ≡ after_giving list.old self.old.blocks }
    {
        give_blocks(&mut self.blocks, list);
    }

    /// Takes the queue apart with all its blocks: for the owner of a whole device that is let go.
    pub fn dismantle(self) {
        let BlockQueue { blocks, size: _ } = self;
        dismantle(blocks);
    }
}
