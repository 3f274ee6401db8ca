//! Free blocks whose bytes are 0.

ghost use Rattle.std.specs.Prelude.{◌≡◌, ◌+◌, ◌-◌, ◌<◌, ◌≤◌, [], false, true, IfOk, OnOk, if◌then◌else◌, length, map, slice_index_or};
ghost use Rattle.std.specs.Option.{option_map};
ghost use Rattle.nv_base.specs.Homes.{home_start};
ghost use Rattle.nv_base.specs.Memory.{out_of_memory};
ghost use Rattle.nv_base.specs.Refusals.{FailsOnly};
ghost use Rattle.nv_alloc.specs.Block.{put_block, zero_block, zeroed};
ghost use Rattle.nv_alloc.specs.FreeList.{IsHomeList};
ghost use Rattle.nv_alloc.specs.Giving.{takes};
ghost use Rattle.nv_alloc.specs.Numbers.{unused};

use super::FreeList;
use crate::Block;
use nv_base::{BlockNo, Fault, Geometry};
use std::alloc::{AllocError, Global};

impl FreeList {
    /// The list of a CPU with those blocks of its home range that are not marked, whose bytes are 0, and with room for
    /// the others: `OutOfMemory` where there is none.
    pub fn with_unmarked(
        alloc: Global,
        geometry: &Geometry,
        cpu: u64,
        marks: &[bool],
    ) -> Result<FreeList, Fault>
        requires cpu { cpu < geometry.now.numbers.cpus }
        requires marks { length marks.now ≡ geometry.now.numbers.blocks }
        // A list has the blocks of its home range that are not marked, with 0 in all bytes.
        ensures ok { let g = geometry.now.numbers in IfOk result (λ list. list ≡ record {
          start = home_start g.blocks g.cpus cpu;
          end = home_start g.blocks g.cpus (cpu + 1);
          size = g.block;
          blocks = map (zero_block g.block) (unused (λ n. slice_index_or marks.now n false)
              (home_start g.blocks g.cpus cpu)
              (home_start g.blocks g.cpus (cpu + 1) - home_start g.blocks g.cpus cpu));
        }) }
        ensures home { IfOk result (IsHomeList geometry.now.numbers cpu) }
        // The only error is `OutOfMemory`.
        ensures err { FailsOnly out_of_memory result }
    {
        geometry.home_ends_within(cpu);
        let mut list = FreeList::empty(alloc, geometry, cpu)?;
        match list.add_unmarked(alloc, marks) {
            Ok(()) => {
                list.rises();
                Ok(list)
            }
            Err(error) => {
                list.dismantle();
                Err(error.into())
            }
        }
    }

    /// Gives the list, which has none, the blocks that are not marked.
    fn add_unmarked(&mut self, alloc: Global, marks: &[bool]) -> Result<(), AllocError>
        requires none { self.old.blocks ≡ [] }
        requires marks { self.old.end ≤ length marks.now }
        ensures { OnOk result (self.new ≡ record self.old {
          blocks = map (zero_block self.old.size)
              (unused (λ n. slice_index_or marks.now n false) self.old.start
              (self.old.end - self.old.start));
        }) }
    {
        let end = self.start + self.slots.len() as u64;
        for number in (self.start..end).rev() {
            self.add_unless(alloc, BlockNo::new(number), marks[number as usize])?;
        }
        Ok(())
    }

    /// Gives the list the block of a number, whose bytes are 0, unless that is marked.
    fn add_unless(&mut self, alloc: Global, number: BlockNo, marked: bool) -> Result<(), AllocError>
        requires { takes self.old (zero_block self.old.size number) ≡ true }
        ensures { OnOk result (self.new ≡ record self.old {
          blocks = if marked then self.old.blocks
              else put_block (zero_block self.old.size number) self.old.blocks;
        }) }
    {
        if marked {
            return Ok(());
        }
        let block = Block::zeroed(alloc, number, self.size)?;
        self.give(block);
        Ok(())
    }

    /// Writes 0 to all bytes of all blocks.
    pub fn clear(&mut self)
        // All bytes of all its blocks are 0 then, and no block comes or goes.
        ensures { self.new ≡ record self.old { blocks = map zeroed self.old.blocks } }
    {
        clear_slots(&mut self.slots);
    }
}

/// Writes 0 to all bytes of the blocks in slots.
fn clear_slots(slots: &mut Vec<Option<Block>>)
    ensures { slots.new.items ≡ map (option_map zeroed) slots.old.items }
{
    for slot in slots.iter_mut() {
        clear_slot(slot);
    }
}

/// Writes 0 to all bytes of the block in a slot, if there is one.
fn clear_slot(slot: &mut Option<Block>)
    ensures { slot.new ≡ option_map zeroed slot.old }
{
    if let Some(block) = slot {
        block.clear();
    }
}
