//! The pages of a log chain on their way home.

ghost use Rattle.std.specs.Prelude.{◌≡◌, ◌<◌, ◌^◌, [], ◌==◌, length};
ghost use Rattle.std.specs.VecDeque.Iter.{deque_iter_rest};
ghost use Rattle.nv_alloc.specs.Giving.{after_giving, not_taken};

use crate::giving::{dismantle, fit_in_memory, give_blocks};
use crate::{Block, FreeList};
use std::alloc::Global;
use std::collections::{VecDeque, vec_deque};
use std::marker::Model;
use std::mem;

/// Pages of a chain that has left its log: all of them once they are put in, fewer once some are given home,
/// or none. Contracts see the list of them.
pub struct ChainPages {
    blocks: VecDeque<Block>,
    alloc: Global,
}

impl Model for ChainPages {
    ghost use Rattle.std.specs.Prelude.{List};
    ghost use Rattle.nv_alloc.specs.Block.{BlockValue};

    ghost Value = { List BlockValue };

    ghost view = { λ c. c.blocks.items };
}

impl ChainPages {
    /// No pages.
    pub fn new(alloc: Global) -> ChainPages
        ensures { result ≡ [] }
    {
        ChainPages {
            blocks: VecDeque::new(alloc),
            alloc,
        }
    }

    /// How many pages are held.
    pub fn len(&self) -> u64
        // The log pages of a whole chain are put in, told and taken out.
        ensures { result ≡ length self.now }
    {
        self.blocks.len() as u64
    }

    /// What holds of all pages: they fit in memory. Costs nothing.
    pub(crate) fn fits_in_memory(&self)
        ensures { length self.now < 2 ^ 62 }
    {
        fit_in_memory(&self.blocks);
    }

    /// Whether no page is held.
    pub fn is_empty(&self) -> bool
        ensures { result ≡ (length self.now == 0) }
    {
        self.blocks.is_empty()
    }

    /// The pages, in their order.
    pub fn iter(&self) -> vec_deque::Iter<'_, Block>
        ensures { deque_iter_rest result ≡ self.now }
    {
        self.blocks.iter()
    }

    /// Takes the pages of a whole chain over, without memory.
    pub fn put(&mut self, chain: Vec<Block>)
        requires none { length self.old ≡ 0 }
        ensures { self.new ≡ chain.items }
    {
        mem::replace(&mut self.blocks, VecDeque::from_vec(chain)).destroy_empty();
    }

    /// Takes out the pages, without memory.
    pub fn take(&mut self) -> Vec<Block>
        ensures pages { result.items ≡ self.old }
        ensures none { self.new ≡ [] }
    {
        mem::replace(&mut self.blocks, VecDeque::new(self.alloc)).into_vec()
    }

    /// Gives the list the pages that it takes, one after another, and keeps the others in their order.
    pub fn give_blocks(&mut self, list: &mut FreeList)
        // Log pages that a list takes go home, and the rest stays in order, with no condition.
        ensures kept { self.new ≡ not_taken list.old self.old }
        ensures given { list.new ≡ after_giving list.old self.old }
    {
        give_blocks(&mut self.blocks, list);
    }

    /// Takes all pages apart: for the owner of a whole device that is let go.
    pub fn dismantle(self) {
        let ChainPages { blocks, alloc: _ } = self;
        dismantle(blocks);
    }
}
