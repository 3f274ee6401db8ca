//! Chains that go into the image of a device, and come out of one.

ghost use Rattle.std.specs.Prelude.{◌≡◌, ◌+◌, ◌-◌, ◌*◌, ◌≤◌, ◌++◌, IfErr, IfOk, OnOk, length, reverse, vec_capacity, vec_len};
ghost use Rattle.nv_alloc.specs.Block.{AreSized};
ghost use Rattle.nv_base.specs.Memory.{out_of_memory};
ghost use Rattle.nv_base.specs.Refusals.{FailsOnly};
ghost use Rattle.nv_base.specs.declared.limits.TheConstants.{LEAST_PAGE_ENTRIES, PAGE_ENTRIES};
ghost use Rattle.nv_entry.specs.Log.{IsLog};
ghost use Rattle.nv_log.specs.Image.{IsPaged, chain_of, cut_chain, image_of, pages_past};

use super::Chain;
use crate::commit_run::CommitRun;
use crate::reads::ReadCount;
use crate::{ChainImage, pages, removal};
use nv_alloc::BlockQueue;
use nv_base::Fault;
use nv_base::limits::{LEAST_PAGE_ENTRIES, PAGE_ENTRIES};
use nv_entry::Entry;

impl Chain {
    /// The chain of an image, of pages that hold `page` entries. It takes room for all entries that its pages hold, where
    /// the image has less.
    ///
    /// The only error is `OutOfMemory`, with the image as it was.
    pub fn rebuild(page: usize, image: ChainImage) -> Result<Chain, (Fault, ChainImage)>
        requires least { LEAST_PAGE_ENTRIES ≤ page }
        requires most { page ≤ PAGE_ENTRIES }
        // Callers give an image whose entries stand on its pages, and whose ids rise.
        requires paged { IsPaged page image }
        requires rising { IsLog image.entries }
        // A chain anew has the pages, ends, entries and tail of its image.
        ensures state { IfOk result (λ chain. chain.state ≡ chain_of page image) }
        ensures spare { IfOk result (λ chain. chain.spare ≡ 0) }
        // The only error is `OutOfMemory`, and the image comes back as it was.
        ensures err { IfErr result (λ refused. refused.0 ≡ out_of_memory) }
        ensures same { IfErr result (λ refused. refused.1 ≡ image) }
    {
        let ChainImage {
            pages,
            mut ends,
            mut entries,
            tail,
        } = image;
        let reserved = pages.len();
        if let Err(fault) = make_room(&mut entries, &mut ends, reserved, page) {
            let same = ChainImage {
                pages,
                ends,
                entries,
                tail,
            };
            return Err((fault, same));
        }
        let run = CommitRun::empty();
        Ok(Chain {
            page,
            blocks: pages,
            ends,
            entries,
            tail,
            run,
            reserved,
            reads: ReadCount::new(),
        })
    }

    /// The chain as an image has it. Takes no memory.
    pub fn into_image(self) -> ChainImage
        // A chain goes into an image as it is, without memory.
        ensures { result ≡ image_of self.state }
    {
        let Chain {
            page: _,
            blocks,
            ends,
            entries,
            tail,
            run: _,
            reserved: _,
            reads: _,
        } = self;
        ChainImage {
            pages: blocks,
            ends,
            entries,
            tail,
        }
    }

    /// How many pages [`Chain::cut`] gives away. The time grows with the logarithm of the pages.
    pub fn pages_past(&self, tail: usize) -> usize
        // How many log pages a cut gives away is told before.
        ensures { result ≡ length (pages_past tail self.now.state) }
    {
        self.blocks.len() - pages::count_for(&self.ends, tail)
    }

    /// Cuts the chain to its first `tail` entries, which count then, on the pages that these stand on. The other entries
    /// are let go, and the blocks of the other pages, which [`Chain::pages_past`] counts, are put into the queue, the last
    /// one first. The time is linear in the entries and pages that go, and no memory is taken.
    /// A log page that goes is room again; no memory is taken.
    pub fn cut(&mut self, tail: usize, free: &mut BlockQueue)
        requires within { tail ≤ length self.old.state.entries }
        requires room { length (pages_past tail self.old.state) ≤ free.old.room }
        requires sized { AreSized free.old.size (pages_past tail self.old.state) }
        // A chain is cut to its first entries, on the log pages that these stand on.
        ensures state { self.new.state
            ≡ cut_chain self.old.state.page tail (image_of self.old.state) }
        ensures spare { self.new.spare
            ≡ self.old.spare + length (pages_past tail self.old.state) }
        // The blocks of the other log pages go to the end of a queue, the last one first.
        ensures free { free.new ≡ record free.old {
          blocks = free.old.blocks ++ reverse (pages_past tail self.old.state);
          room = free.old.room - length (pages_past tail self.old.state);
        } }
    {
        self.entries.truncate(tail);
        pages::cut(&mut self.ends, tail);
        removal::hand_out_past(&mut self.blocks, self.ends.len(), free);
        self.tail = tail;
        self.run = CommitRun::empty();
    }
}

/// Makes room in the lists of a chain for all entries of so many pages: then nothing has changed but room.
fn make_room(
    entries: &mut Vec<Entry>,
    ends: &mut Vec<usize>,
    pages: usize,
    page: usize,
) -> Result<(), Fault>
    ensures entries { entries.new.items ≡ entries.old.items }
    ensures ends { ends.new.items ≡ ends.old.items }
    ensures entries_room { OnOk result (pages * page ≤ vec_capacity entries.new) }
    ensures ends_room { OnOk result (pages ≤ vec_capacity ends.new) }
    ensures err { FailsOnly out_of_memory result }
{
    let places = pages.saturating_mul(page);
    entries.reserve(places.saturating_sub(entries.len()))?;
    ends.reserve(pages.saturating_sub(ends.len()))?;
    Ok(())
}
