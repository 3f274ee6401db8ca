//! Blocks that go home, or are taken apart.

ghost use Rattle.std.specs.Prelude.{◌≡◌, ◌<◌, ◌≤◌, ◌^◌, [], MatchOption, All, Any, length};
ghost use Rattle.std.specs.VecDeque.{deque_capacity};
ghost use Rattle.nv_alloc.specs.Giving.{after_giving, not_taken};

use crate::{Block, FreeList};
use std::collections::VecDeque;
use std::mem::size_of_val;

/// Gives the list the blocks that it takes, one after another, and keeps the others in their order.
pub(crate) fn give_blocks(blocks: &mut VecDeque<Block>, list: &mut FreeList)
    ensures kept { blocks.new.items ≡ not_taken list.old blocks.old.items }
    ensures given { list.new ≡ after_giving list.old blocks.old.items }
    ensures capacity { deque_capacity blocks.new ≡ deque_capacity blocks.old }
{
    for _ in 0..blocks.len() {
        let Some(block) = blocks.pop_front() else {
            unreachable!()
        };
        if list.takes(&block) {
            list.give(block);
        } else {
            blocks.push_back_reserved(block);
        }
    }
}

/// What holds of blocks in memory: each takes four bytes at least, so that they are no more than that. Costs nothing.
pub(crate) fn fit_in_memory(blocks: &VecDeque<Block>)
    ensures { length blocks.now.items < 2 ^ 62 }
{
    let (front, back) = blocks.as_slices();
    let _front = size_of_val(front);
    let _back = size_of_val(back);
}

/// Takes blocks apart.
pub(crate) fn dismantle(mut blocks: VecDeque<Block>) {
    while let Some(block) = blocks.pop_front() {
        let _ = block.into_bytes();
    }
    blocks.destroy_empty();
}
