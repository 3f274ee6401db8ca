//! The end of an inode.

ghost use Rattle.std.specs.Prelude.{◌≡◌, ℕ, ◌+◌, ◌<◌, [], None, length, slice_index_or, true};
ghost use Rattle.std.specs.Option.{ForSome};
ghost use Rattle.nv_base.specs.declared.limits.TheConstants.{NUMBER};
ghost use Rattle.nv_cell.specs.Cell.{empty_cell, log_of, no_room};
ghost use Rattle.nv_cell.specs.Readers.{is_gone, keeps_nothing};

use crate::{InodeCell, Marks};
use nv_alloc::Block;
use nv_log::Chain;
use std::mem;

impl InodeCell {
    /// Hands out the chain of a gone inode whose entries are all published and whose parts are all out, and leaves an
    /// empty slot of the next generation. One of the last generation stays as it is, so that no handle comes again
    /// ([`InodeCell::is_withheld`] tells). The version stays. Takes no memory; the time is that of the parts and
    /// entries, which are let go.
    pub fn erase(&mut self) -> Chain
        requires gone { is_gone (log_of self.old.state) ≡ true }
        requires nothing { keeps_nothing self.old.state ≡ true }
        requires published { self.old.state.chain.tail ≡ length self.old.state.chain.entries }
        requires generation { self.old.state.generation < NUMBER }
        // A gone inode of which nothing is kept hands out its chain.
        ensures chain { result.state ≡ self.old.state.chain }
        // Erasing leaves an inode slot of the next generation.
        // Erasing leaves an empty inode slot.
        // Erasing keeps the version.
        ensures state { self.new.state ≡ empty_cell self.old.state.block
            self.old.state.chain.page (self.old.state.generation + 1) self.old.state.version }
        ensures room { self.new.room ≡ record no_room { killed = self.old.room.killed } }
    {
        clear_slots(&mut self.blocks);
        self.held = 0;
        self.generation = self.generation.next();
        self.index.reset(self.alloc);
        self.marks = Marks::new(self.alloc);
        self.entries = 0;
        self.parts = 0;
        // A chain has pages of a lawful size.
        self.chain.holds_together();
        let page = self.chain.entries_per_page();
        mem::replace(&mut self.chain, Chain::new(self.alloc, page))
    }

    /// Takes the cell apart with all its blocks: for the owner of a whole device that is let go.
    pub fn dismantle(self) {
        let InodeCell {
            alloc: _,
            block: _,
            generation: _,
            version: _,
            chain,
            index: _,
            marks: _,
            blocks,
            held: _,
            entries: _,
            parts: _,
            numbers: _,
            killed: _,
            ahead: _,
        } = self;
        dismantle_slots(blocks);
        dismantle_pages(chain.into_blocks());
    }
}

fn dismantle_pages(mut pages: Vec<Block>) {
    while let Some(block) = pages.pop() {
        let _ = block.into_bytes();
    }
    pages.destroy_empty();
}

/// Takes slots apart with all their blocks.
pub fn dismantle_slots(mut slots: Vec<Option<Block>>) {
    while let Some(slot) = slots.pop() {
        match slot {
            Some(block) => {
                let _ = block.into_bytes();
            }
            None => {}
        }
    }
    slots.destroy_empty();
}

/// Empties a list of places that have no block.
fn clear_slots(slots: &mut Vec<Option<Block>>)
    requires { (n : ℕ) → slice_index_or slots.old.items n None ≡ None }
    ensures { slots.new.items ≡ [] }
{
    for _left in 0..slots.len() {
        end_slot(slots.pop());
    }
}

/// Lets go of a place that has no block.
fn end_slot(slot: Option<Option<Block>>)
    requires { ForSome slot (λ block. block ≡ None) }
{
    if let Some(block) = slot {
        match block {
            None => {}
            Some(_) => unreachable!(),
        }
    }
}
