//! What a call has taken and not yet placed.

ghost use Rattle.std.specs.Prelude.{◌≡◌, ◌==◌, ◌&&◌, ◌++◌, [], Some, None, fold, is_none, length};
ghost use Rattle.std.specs.VecDeque.Iter.{deque_iter_rest};
ghost use Rattle.nv_alloc.specs.Block.{numbers_of};
ghost use Rattle.nv_alloc.specs.Giving.{after_giving, not_taken};
ghost use Rattle.nv_alloc.specs.Numbers.{lower, lowest};
ghost use Rattle.nv_alloc.specs.Queue.{after_home};

use crate::{Block, BlockQueue, ChainPages, FreeList};
use nv_base::{BlockNo, Geometry, Ino};
use std::alloc::Global;
use std::collections::vec_deque;

/// What a call has taken and not yet placed: data blocks and log pages, each in the order taken, at most one
/// whole chain's pages, and at most one inode number.
/// Only tested: a hand is `Send` and `Sync`.
pub struct Hand {
    pub data: BlockQueue,
    pub pages: BlockQueue,
    pub chain: ChainPages,
    ino: Option<Ino>,
}

impl Hand {
    ghost use Rattle.nv_alloc.specs.Hand.{IsFirstHomeCpu, blocks_of};

    /// An empty hand, for blocks of a geometry's device.
    pub fn new(alloc: Global, geometry: &Geometry) -> Hand
        ensures data { result.data ≡ record { blocks = []; size = geometry.now.numbers.block; room = 0 } }
        ensures pages { result.pages ≡ record { blocks = []; size = geometry.now.numbers.block; room = 0 } }
        ensures chain { result.chain ≡ [] }
        ensures ino { result.ino ≡ None }
    {
        let size = geometry.numbers.block as usize;
        Hand {
            data: BlockQueue::new(alloc, size),
            pages: BlockQueue::new(alloc, size),
            chain: ChainPages::new(alloc),
            ino: None,
        }
    }

    /// Whether the hand holds no block and no inode number.
    pub fn is_empty(&self) -> bool
        // Whether a hand holds nothing is told.
        ensures { result ≡ ((length self.now.data.blocks == 0)
            && (length self.now.pages.blocks == 0) && (length self.now.chain == 0) && is_none self.now.ino) }
    {
        self.data.is_empty() && self.pages.is_empty() && self.chain.is_empty() && self.ino.is_none()
    }

    /// How many blocks are held. Costs a few reads.
    pub fn len(&self) -> u64
        // How many blocks a hand holds is told, log pages and those of a chain with them.
        ensures { result ≡ length (blocks_of self.now) }
    {
        // Blocks take memory, so that their number is far below that of a u64.
        self.data.fits_in_memory();
        self.pages.fits_in_memory();
        self.chain.fits_in_memory();
        self.data.len() + self.pages.len() + self.chain.len()
    }

    /// The inode number that is held.
    pub fn ino(&self) -> Option<Ino>
        // A hand holds at most one inode number, which is taken out once.
        ensures { result ≡ self.now.ino }
    {
        self.ino
    }

    /// Takes an inode number over.
    pub fn put_ino(&mut self, ino: Ino)
        requires none { self.old.ino ≡ None }
        ensures { self.new ≡ record self.old { ino = Some ino } }
    {
        self.ino = Some(ino);
    }

    /// Takes out the inode number.
    pub fn take_ino(&mut self) -> Option<Ino>
        ensures ino { result ≡ self.old.ino }
        ensures rest { self.new ≡ record self.old { ino = None } }
    {
        self.ino.take()
    }

    /// The first CPU that is home of a block held, by the numbers of the CPUs. Costs the number of blocks held.
    pub fn first_home_cpu(&self, geometry: &Geometry) -> Option<u64>
        // The first CPU that is home of a block in the hand is told.
        ensures { IsFirstHomeCpu geometry.now.numbers.blocks geometry.now.numbers.cpus
            (numbers_of (blocks_of self.now)) result }
    {
        let lowest = self.lowest_number()?;
        if lowest.number() < geometry.numbers.blocks {
            return Some(geometry.home_of(lowest));
        }
        None
    }

    /// The lowest number of a block held.
    fn lowest_number(&self) -> Option<BlockNo>
        ensures { result ≡ lowest (numbers_of (blocks_of self.now)) }
    {
        let data = lowest_of(self.data.iter(), None);
        let pages = lowest_of(self.pages.iter(), data);
        lowest_of(self.chain.iter(), pages)
    }

    /// Gives the list the blocks that it takes, data blocks first and pages of a chain last, and keeps the others.
    pub fn give_blocks(&mut self, list: &mut FreeList)
        // Of all in a hand what a list takes goes home, the rest stays in order.
        ensures data { self.new.data ≡ after_home list.old self.old.data }
        ensures pages { self.new.pages
            ≡ after_home (after_giving list.old self.old.data.blocks) self.old.pages }
        ensures chain { self.new.chain
            ≡ not_taken (after_giving list.old (self.old.data.blocks ++ self.old.pages.blocks))
            self.old.chain }
        ensures given { list.new ≡ after_giving list.old (blocks_of self.old) }
        // No condition is asked of it; the inode number stays in the hand.
        ensures ino { self.new.ino ≡ self.old.ino }
    {
        self.data.give_blocks(list);
        self.pages.give_blocks(list);
        self.chain.give_blocks(list);
    }

    /// Takes the hand apart with all that it holds: for the owner of a whole device that is let go.
    pub fn dismantle(self) {
        let Hand {
            data,
            pages,
            chain,
            ino: _,
        } = self;
        data.dismantle();
        pages.dismantle();
        chain.dismantle();
    }
}

/// The lowest of these blocks' numbers and of one that is known.
fn lowest_of(blocks: vec_deque::Iter<'_, Block>, known: Option<BlockNo>) -> Option<BlockNo>
    ensures { result ≡ fold (λ low block. lower low block.number) known
        (deque_iter_rest blocks.entry) }
{
    blocks.fold(known, |low, block| lower(low, block.number()))
}

/// The lower of a number that may be known and of another.
fn lower(known: Option<BlockNo>, number: BlockNo) -> Option<BlockNo>
    ensures { result ≡ lower known number }
{
    match known {
        Some(low) if low <= number => known,
        _ => Some(number),
    }
}
