//! The free blocks of one CPU.

ghost use Rattle.std.specs.Prelude.{◌≡◌, ℕ, ◌+◌, ◌-◌, ◌<◌, ◌≤◌, ◌++◌, ◌==◌, ◌^◌, ◌↔◌, IfOk, IsTrue, None, OnOk, Some, [], length, map, min, replicate, take, drop, ◌∷◌, true, vec_len, vec_capacity};
ghost use Rattle.nv_base.specs.Homes.{home_start};
ghost use Rattle.nv_base.specs.Refusals.{FailsOnly};
ghost use Rattle.nv_alloc.specs.Block.{AreSized, block_by, numbers_of, put_block, without_block, zero_block, zero_blocks};
ghost use Rattle.nv_alloc.specs.Numbers.{has};
ghost use Rattle.nv_alloc.specs.FreeList.{is_home, IsFreeList, IsHomeList, without};
ghost use Rattle.nv_alloc.specs.Giving.{takes};
ghost use Rattle.nv_alloc.specs.Runs.{free_runs_of};
ghost use Rattle.std.specs.List.{range_with_len};
ghost use Rattle.nv_base.specs.Memory.{out_of_memory};

mod zeros;

use crate::places::PlaceSet;
use crate::{Block, BlockQueue, Runs};
use nv_base::{BlockNo, Fault, Geometry};
use std::alloc::{AllocError, Global};
use std::marker::Model;
use std::mem;

/// The free blocks of one CPU. Contracts see the home range, from `start` to before `end`, the bytes of each
/// block, and the blocks by rising number. Its memory is all taken when it is made. Giving a block costs a look at three
/// words of bits, and taking the lowest at as many and at one for each 262,144 blocks before it.
/// Only tested: a list is `Send` and `Sync`.
pub struct FreeList {
    // Slot `k` has the block of number `start + k` while it is free.
    slots: Vec<Option<Block>>,
    free: PlaceSet,
    count: u64,
    start: u64,
    size: usize,
}

impl Model for FreeList {
    ghost use Rattle.std.specs.Prelude.{length, ◌+◌};
    ghost use Rattle.nv_alloc.specs.FreeList.{FreeBlocks, IsShelf};
    ghost use Rattle.nv_alloc.specs.Places.{present};

    ghost Value = { FreeBlocks };

    ghost view = { λ l. record {
      start = l.start;
      end = l.start + length l.slots.items;
      size = l.size;
      blocks = present l.slots.items;
    } };

    // Its blocks stand by rising number, each in the home range and of the list's size.
    // A place has the block of its number; the set of places has exactly those with a block, and counts them;
    // places end below 2^32.
    ghost invariant = { λ l. IsShelf l.start l.size l.slots.items l.free l.count };
}

impl FreeList {
    /// The list of a CPU with all blocks of its home range, whose bytes are 0: `OutOfMemory` where there is
    /// no room for them.
    pub fn new(alloc: Global, geometry: &Geometry, cpu: u64) -> Result<FreeList, Fault>
        requires { cpu < geometry.now.numbers.cpus }
        // A new list has all blocks of its CPU's home range.
        ensures start { IfOk result (λ list.
            list.start ≡ home_start geometry.now.numbers.blocks geometry.now.numbers.cpus cpu) }
        ensures end { IfOk result (λ list.
            list.end ≡ home_start geometry.now.numbers.blocks geometry.now.numbers.cpus (cpu + 1)) }
        // The blocks of a new list have the geometry's length and the bytes 0; the only error is `OutOfMemory`.
        ensures size { IfOk result (λ list. list.size ≡ geometry.now.numbers.block) }
        ensures blocks { IfOk result (λ list.
            list.blocks ≡ zero_blocks geometry.now.numbers.block list.start (list.end - list.start)) }
        ensures err { FailsOnly out_of_memory result }
    {
        let start = geometry.home_start(cpu);
        let count = geometry.home_start(cpu + 1) - start;
        let free = PlaceSet::full(alloc, count as u32)?;
        let size = geometry.numbers.block as usize;
        let slots = full_slots(alloc, start, count as usize, size)?;
        Ok(FreeList {
            slots,
            free,
            count,
            start,
            size,
        })
    }

    /// The list of a CPU without a block, with room for all blocks of its home range: `OutOfMemory` where there is
    /// none.
    pub fn empty(alloc: Global, geometry: &Geometry, cpu: u64) -> Result<FreeList, Fault>
        requires { cpu < geometry.now.numbers.cpus }
        // A bare list is of its CPU's home range and has no block; the only error is `OutOfMemory`.
        ensures ok { let g = geometry.now.numbers in IfOk result (λ list. list ≡ record {
          start = home_start g.blocks g.cpus cpu;
          end = home_start g.blocks g.cpus (cpu + 1);
          size = g.block;
          blocks = [];
        }) }
        ensures err { FailsOnly out_of_memory result }
    {
        let start = geometry.home_start(cpu);
        let count = geometry.home_start(cpu + 1) - start;
        let free = PlaceSet::empty(alloc, count as u32)?;
        let slots = empty_slots(alloc, count as usize)?;
        Ok(FreeList {
            slots,
            free,
            count: 0,
            start,
            size: geometry.numbers.block as usize,
        })
    }

    /// How many blocks are free.
    pub fn len(&self) -> u64
        ensures count { result ≡ length self.now.blocks }
        ensures lawful { IsFreeList self.now }
    {
        self.count
    }

    /// What holds of each list: its free blocks rise, and each is at home. Costs nothing.
    pub fn rises(&self)
        // What holds of each free list is told.
        ensures { IsFreeList self.now }
    {
        let _count = self.len();
    }

    /// Whether no block is free.
    pub fn is_empty(&self) -> bool
        // Whether a list is empty, is home of a number, or has it, is told.
        ensures { result ≡ (length self.now.blocks == 0) }
    {
        self.count == 0
    }

    /// The bytes of each block.
    pub fn block_bytes(&self) -> usize
        // All blocks of a list have as many bytes as it tells.
        ensures size { result ≡ self.now.size }
        ensures sized { AreSized self.now.size self.now.blocks }
    {
        self.size
    }

    /// Whether this is a list of the CPU: its home range and the bytes of its blocks are those that the geometry gives
    /// it. Takes constant time.
    pub fn made_for(&self, geometry: &Geometry, cpu: u64) -> bool
        requires { cpu < geometry.now.numbers.cpus }
        // Whether a list has a CPU's home range and a device's blocks is told.
        ensures { IsTrue result ↔ IsHomeList geometry.now.numbers cpu self.now }
    {
        self.rises();
        let end = self.start + self.slots.len() as u64;
        self.start == geometry.home_start(cpu)
            && end == geometry.home_start(cpu + 1)
            && self.size as u64 == geometry.numbers.block
    }

    /// Whether the number is in the home range.
    pub fn is_home(&self, number: BlockNo) -> bool
        ensures { result ≡ is_home self.now number }
    {
        self.start <= number.number() && number.number() - self.start < self.slots.len() as u64
    }

    /// Whether the block of this number is free.
    pub fn has(&self, number: BlockNo) -> bool
        ensures { result ≡ has (numbers_of self.now.blocks) number }
    {
        let slots = &self.slots;
        if !self.is_home(number) {
            return false;
        }
        slots[(number.number() - self.start) as usize].is_some()
    }

    /// Whether the list takes this block: it is at home here, not free, and has as many bytes as the list's
    /// blocks.
    pub fn takes(&self, block: &Block) -> bool
        // Exactly blocks at home, absent and of the list's length are taken.
        ensures { result ≡ takes self.now block.now }
    {
        let number = block.number();
        self.is_home(number) && !self.has(number) && block.bytes().len() == self.size
    }

    /// The maximal runs of free numbers, in rising order.
    pub fn runs(&self) -> Runs<'_>
        // The free numbers are told as maximal block runs.
        ensures { result ≡ free_runs_of (numbers_of self.now.blocks) }
    {
        Runs::new(&self.slots, &self.free, self.start)
    }

    /// Moves the blocks of the `n` lowest numbers, or all where there are fewer, to the end of the queue in
    /// rising order, and says how many they are.
    pub fn take(&mut self, n: u64, queue: &mut BlockQueue) -> u64
        requires room { n ≤ queue.old.room }
        requires size { queue.old.size ≡ self.old.size }
        // As many blocks are taken as are asked for, or all there are; they leave the list.
        ensures taken { result ≡ min n (length self.old.blocks) }
        ensures list { self.new ≡ record self.old { blocks = drop n self.old.blocks } }
        // Taken blocks are the lowest, since a list rises, and go to the queue's end.
        ensures queue { queue.new ≡ record queue.old {
          blocks = queue.old.blocks ++ take n self.old.blocks;
          room = queue.old.room - result;
        } }
    {
        let taken = n.min(self.count);
        for _ in 0..taken {
            let block = self.take_lowest();
            queue.put(block);
        }
        taken
    }

    /// Takes the block of the lowest number out.
    fn take_lowest(&mut self) -> Block
        requires { 0 < length self.old.blocks }
        ensures lowest { self.old.blocks ≡ result ∷ self.new.blocks }
        ensures rest { self.new ≡ record self.old { blocks = self.new.blocks } }
        ensures sized { length result.bytes ≡ self.old.size }
    {
        let Some(place) = self.free.lowest() else {
            unreachable!()
        };
        self.free.remove(place);
        self.count -= 1;
        match self.slots[place as usize].take() {
            Some(block) => block,
            None => unreachable!(),
        }
    }

    /// Takes the block of a number out, which [`FreeList::has`] tests for.
    pub fn take_block(&mut self, number: BlockNo) -> Block
        requires { has (numbers_of self.old.blocks) number ≡ true }
        // The block of a number is taken, each other stays.
        ensures block { block_by self.old.blocks number ≡ Some result }
        ensures list { self.new
            ≡ record self.old { blocks = without_block number self.old.blocks } }
        ensures sized { length result.bytes ≡ self.old.size }
    {
        let place = (number.number() - self.start) as usize;
        self.free.remove(place as u32);
        self.count -= 1;
        match self.slots[place].take() {
            Some(block) => block,
            None => unreachable!(),
        }
    }

    /// Takes the block of a number out, where it is free. The list stays lawful.
    pub(crate) fn remove(&mut self, number: BlockNo) -> Option<Block>
        ensures block { result ≡ block_by self.old.blocks number }
        ensures list { self.new ≡ without number self.old }
        ensures lawful { IsFreeList self.new }
    {
        if !self.has(number) {
            self.rises();
            return None;
        }
        let block = self.take_block(number);
        self.rises();
        Some(block)
    }

    /// Takes a block back. [`FreeList::takes`] tests whether it may.
    pub fn give(&mut self, block: Block)
        requires { takes self.old block ≡ true }
        // A block that is given stands in its place in the list.
        ensures { self.new ≡ record self.old { blocks = put_block block self.old.blocks } }
    {
        let place = (block.number().number() - self.start) as usize;
        self.free.insert(place as u32);
        self.count += 1;
        match mem::replace(&mut self.slots[place], Some(block)) {
            None => {}
            Some(_) => unreachable!(),
        }
    }

    /// Takes a block back, as [`FreeList::give`] does. The list stays lawful.
    pub(crate) fn put(&mut self, block: Block)
        requires { takes self.old block ≡ true }
        ensures list { self.new ≡ record self.old { blocks = put_block block self.old.blocks } }
        ensures lawful { IsFreeList self.new }
    {
        self.give(block);
        self.rises();
    }

    /// Takes the list apart with all its blocks: for the owner of a whole device that is let go.
    pub fn dismantle(self) {
        let FreeList {
            slots,
            free: _,
            count: _,
            start: _,
            size: _,
        } = self;
        dismantle(slots);
    }
}

/// Slots without a block.
fn empty_slots(alloc: Global, count: usize) -> Result<Vec<Option<Block>>, AllocError>
    ensures { IfOk result (λ slots. slots.items ≡ replicate count None) }
{
    let mut slots = Vec::with_capacity(alloc, count)?;
    for _slot in 0..count {
        slots.push_reserved(None);
    }
    Ok(slots)
}

/// Slots with the blocks from the number `start` on, `count` of them, whose bytes are 0.
fn full_slots(
    alloc: Global,
    start: u64,
    count: usize,
    size: usize,
) -> Result<Vec<Option<Block>>, AllocError>
    requires { start + count < 2 ^ 32 }
    ensures { IfOk result (λ slots.
        slots.items ≡ map (λ number. Some (zero_block size number)) (range_with_len start count)) }
{
    let mut slots = Vec::with_capacity(alloc, count)?;
    match fill(alloc, &mut slots, start, count, size) {
        Ok(()) => Ok(slots),
        Err(error) => {
            dismantle(slots);
            Err(error)
        }
    }
}

/// Puts the blocks from the number `start` on, `count` of them, behind each other.
fn fill(
    alloc: Global,
    slots: &mut Vec<Option<Block>>,
    start: u64,
    count: usize,
    size: usize,
) -> Result<(), AllocError>
    requires empty { vec_len slots.old ≡ 0 }
    requires room { count ≤ vec_capacity slots.old }
    requires small { start + count < 2 ^ 32 }
    ensures { OnOk result (slots.new.items
        ≡ map (λ number. Some (zero_block size number)) (range_with_len start count)) }
{
    for i in 0..count {
        let block = Block::zeroed(alloc, BlockNo::new(start + i as u64), size)?;
        slots.push_reserved(Some(block));
    }
    Ok(())
}

/// Takes slots apart with all their blocks.
fn dismantle(mut slots: Vec<Option<Block>>) {
    while let Some(slot) = slots.pop() {
        match slot {
            Some(block) => {
                let _ = block.into_bytes();
            }
            None => {}
        }
    }
    slots.destroy_empty();
}
