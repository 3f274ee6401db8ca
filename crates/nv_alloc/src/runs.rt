//! Runs of free blocks.

ghost use Rattle.std.specs.Prelude.{◌≡◌, ◌≢◌, ℕ, ◌+◌, ◌<◌, ◌≤◌, ◌^◌, is_some, length, map, slice_index_or, None};
ghost use Rattle.std.specs.Iterator.{YieldsFirst, item_count};
ghost use Rattle.nv_alloc.specs.Block.{numbers_of};
ghost use Rattle.nv_alloc.specs.FreeList.{AreFlagsFrom, ArePlaced};
ghost use Rattle.nv_alloc.specs.Places.{present};
ghost use Rattle.nv_alloc.specs.Runs.{free_runs_of};

use crate::Block;
use crate::places::PlaceSet;
use nv_base::BlockNo;
use std::marker::Model;

/// Free blocks of consecutive numbers, from the first to the last. The numbers next to them aren't free.
#[derive(Clone, Copy, Debug, PartialEq, Eq)]
pub struct FreeRun {
    pub first: BlockNo,
    pub last: BlockNo,
}

/// The runs of a free list that are yet to come, in rising order.
#[derive(Drop)]
pub struct Runs<'a> {
    slots: &'a [Option<Block>],
    // Which places of the list have a block, and at which of them these slots begin.
    free: &'a PlaceSet,
    at: u32,
    // The number of the first slot's block.
    start: u64,
}

impl<'a> Model for Runs<'a> {
    ghost use Rattle.std.specs.Prelude.{List, length, ◌+◌, ◌<◌, ◌^◌};
    ghost use Rattle.nv_alloc.specs.Block.{numbers_of};
    ghost use Rattle.nv_alloc.specs.FreeList.{AreFlagsFrom, ArePlaced};
    ghost use Rattle.nv_alloc.specs.Places.{present};
    ghost use Rattle.nv_alloc.specs.Runs.{free_runs_of};
    ghost use Rattle.nv_alloc.specs.declared.runs.FreeRun.{FreeRun};

    ghost Value = { List FreeRun };

    ghost view = { λ r. free_runs_of (numbers_of (present r.slots.now)) };

    // Each place that is left has the block of its number; places end below 2^32.
    // The set tells which places that are left have a block.
    ghost invariant = { λ r. ArePlaced r.start r.slots.now
        × (r.start + length r.slots.now < 2 ^ 32)
        × AreFlagsFrom r.at r.free.now r.slots.now
        × (length r.free.now < 2 ^ 32) };
}

impl<'a> Runs<'a> {
    pub(crate) fn new(slots: &'a [Option<Block>], free: &'a PlaceSet, start: u64) -> Runs<'a>
        requires placed { ArePlaced start slots.now }
        requires small { start + length slots.now < 2 ^ 32 }
        requires flags { free.now ≡ map is_some slots.now }
        ensures { result ≡ free_runs_of (numbers_of (present slots.now)) }
    {
        Runs {
            slots,
            free,
            at: 0,
            start,
        }
    }
}

/// How many slots from the front on have a block, or have none: told by the set, and not by the slots.
fn leading(slots: &[Option<Block>], free: &PlaceSet, at: u32, full: bool) -> usize
    requires { AreFlagsFrom at free.now slots.now }
    ensures within { result ≤ length slots.now }
    ensures before { (k : ℕ) → k < result → is_some (slice_index_or slots.now k None) ≡ full }
    ensures at { result < length slots.now → is_some (slice_index_or slots.now result None) ≢ full }
{
    // The contract alone speaks of the slots.
    let _slots = slots;
    (free.end_from(at, full) - at) as usize
}

impl<'a> Iterator for Runs<'a> {
    type Item = FreeRun;

    ghost next_gives = { YieldsFirst (λ runs. runs) };

    ghost remaining = { item_count (λ runs. runs) };

    fn next(&mut self) -> Option<FreeRun> {
        let slots = self.slots;
        let gap = leading(slots, self.free, self.at, false);
        let (_, rest) = slots.split_at(gap);
        let at = self.at + gap as u32;
        let len = leading(rest, self.free, at, true);
        let (_, after) = rest.split_at(len);
        let first = self.start + gap as u64;
        let end = first + len as u64;
        self.slots = after;
        self.at = at + len as u32;
        self.start = end;
        if len == 0 {
            return None;
        }
        Some(FreeRun {
            first: BlockNo::new(first),
            last: BlockNo::new(end - 1),
        })
    }
}
