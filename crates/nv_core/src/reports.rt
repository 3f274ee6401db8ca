//! What a world reports of its blocks and logs.

ghost use Rattle.std.specs.Prelude.{◌≡◌, ◌⊎◌, ◌+◌, ◌<◌, ◌≤◌, ◌^◌, ℕ, IfErr, IfOk, Some, is_some, true, length, slice_get, slice_index_or};
ghost use Rattle.std.specs.List.{sum_by};
ghost use Rattle.nv_alloc.specs.Block.{numbers_of};
ghost use Rattle.nv_alloc.specs.Runs.{free_runs_of};
ghost use Rattle.nv_base.specs.Refusals.{FailsOnly};
ghost use Rattle.nv_base.specs.declared.fault.Fault.TheVariants.{Stale};
ghost use Rattle.nv_base.specs.Memory.{out_of_memory};
ghost use Rattle.nv_machine.specs.Numbers.{all_blocks};
ghost use Rattle.nv_machine.specs.World as machine;
ghost use Rattle.nv_machine.specs.World.{cell_at};
ghost use Rattle.nv_cell.specs.Cell.{log_of};
ghost use Rattle.nv_cell.specs.Marks.{is_there};
ghost use Rattle.nv_entry.specs.Covered.{part_count};
ghost use Rattle.nv_book.specs.Records.{block_count, is_page};
ghost use Rattle.nv_core.specs.Reports.{AddsUp, KeepsUnlocked, block_at, chain_in, counts_in, free_in, is_part_kept, kept_at, kept_in, data_kept, lists_of, log_at, mark_of, one_of, space_in, space_of};
ghost use Rattle.nv_core.specs.Picked.{picked_at, picked_of};
ghost use Rattle.nv_core.specs.Shown.{shared_of};
ghost use Rattle.nv_alloc.specs.Numbers.{IsEachOnce};
ghost use Rattle.nv_core.specs.Worlds.{Shows};

use crate::World;
use crate::next::{Next, SnapshotOrCleanerStep};
use crate::reservation::Reservation;
use crate::shared::Shared;
use crate::world::Actor;
use nv_alloc::{FreeList, FreeRun};
use nv_base::{Epoch, Fault, Ino, Items};
use nv_book::Book;
use nv_cell::{InodeCell, LogPageCounts, Mark};
use nv_entry::{Entry, Part};
use std::alloc::Global;

/// Where the blocks of the device are; all together they are its blocks.
#[derive(Clone, Copy, Debug, PartialEq, Eq)]
pub struct Space {
    /// Blocks in free lists.
    pub free: u64,
    /// Pages of logs.
    pub chain: u64,
    /// Data blocks that are current or held by a living snapshot, as one scan of all logs tells
    /// ([`crate::scan_laws`]).
    pub data: u64,
    /// Data blocks whose record is deferred, or picked and not yet released.
    pub pending: u64,
    /// All others: those in hands, killed ones that nothing holds, and those that are appended and not yet published.
    pub hand: u64,
}

/// The free blocks of each CPU, as maximal runs.
pub type Lists = Items<Items<FreeRun>>;

/// A log in numbers: its entries up to the tail, and the counts of each of its pages.
#[derive(Debug, Drop)]
pub struct LogCounts {
    pub entries: usize,
    pub pages: Items<LogPageCounts>,
}

impl World {
    /// Where the blocks are: no block is lost, and none is counted twice. Takes no memory, and time by all slots, by
    /// the parts of the logs that are locked, and by the runs of deferred records.
    pub fn space(&self) -> Space
        // Blocks that are current or held count as such.
        // Blocks that are deferred or picked count apart.
        // A picked record has its block.
        // Blocks in free lists, in chains and all others count apart, too.
        ensures places { (m : machine.World) → Shows self.now m → result ≡ space_of m }
        // The five numbers are together all blocks of the device; no memory is taken.
        ensures all { result.free + result.chain + result.data + result.pending + result.hand
            ≡ self.now.shared.geometry.numbers.blocks }
    {
        let picked = picked_blocks(&self.actors);
        self.shared.space(picked)
    }

    /// The free lists, CPU by CPU. `OutOfMemory` where room for them was refused.
    pub fn lists(&self) -> Result<Lists, Fault>
        // Free lists are told CPU by CPU as maximal block runs.
        ensures ok { (m : machine.World) → Shows self.now m
            → IfOk result (λ lists. lists ≡ lists_of m.shared) }
        // The only error is `OutOfMemory`.
        ensures err { FailsOnly out_of_memory result }
    {
        let mut lists = Vec::with_capacity(self.alloc, self.shared.lists.len())?;
        for list in &self.shared.lists {
            lists.push(Items::from_vec(runs_in(self.alloc, list)?))?;
        }
        Ok(Items::from_vec(lists))
    }

    /// The log of a slot in numbers. `Stale` where there is no such slot, before `OutOfMemory`.
    pub fn log(&self, ino: Ino) -> Result<LogCounts, Fault>
        // The entries of an inode slot's log up to the tail are told.
        // The counts of each of its log pages are told.
        ensures ok { (m : machine.World) → Shows self.now m
            → IfOk result (λ log. (ino < length m.shared.cells) × (log ≡ log_at m.shared ino)) }
        // `Stale` is answered exactly where there is no such inode slot, and otherwise `OutOfMemory` alone.
        ensures err { (m : machine.World) → Shows self.now m → IfErr result (λ fault.
            ((fault ≡ Stale) × (length m.shared.cells ≤ ino))
            ⊎ ((fault ≡ out_of_memory) × (ino < length m.shared.cells))) }
    {
        let place = ino.number() as usize;
        if place >= self.shared.cells.len() {
            return Err(Fault::Stale);
        }
        log_counts(self.alloc, &self.shared.cells[place])
    }
}

impl Shared {
    /// Where the blocks are, of which so many are those of picked records.
    fn space(&self, picked: u64) -> Space
        requires blocks { AddsUp self.now.geometry.numbers.blocks (shared_of self.now) }
        requires few { picked ≤ 64 }
        requires pending { block_count self.now.book.state.deferred + picked
            ≤ data_kept (shared_of self.now) }
        requires unlocked { KeepsUnlocked (shared_of self.now) }
        ensures { result ≡ space_in self.now.geometry.numbers.blocks
            (block_count self.now.book.state.deferred + picked) (shared_of self.now) }
    {
        let free = free_blocks(&self.lists);
        let chain = log_pages(&self.cells);
        let kept = self.data_blocks();
        let pending = self.book.deferred_blocks() + picked;
        let data = kept - pending;
        let hand = self.geometry.numbers.blocks - free - chain - kept;
        Space {
            free,
            chain,
            data,
            pending,
            hand,
        }
    }

    /// How many blocks the cells keep.
    fn data_blocks(&self) -> u64
        requires few { data_kept (shared_of self.now) < 2 ^ 64 }
        requires unlocked { KeepsUnlocked (shared_of self.now) }
        ensures { result ≡ data_kept (shared_of self.now) }
    {
        let mut count = 0;
        for place in 0..self.cells.len() {
            count += self.kept_in_slot(Ino::new(place as u64));
        }
        count
    }

    /// How many blocks the cell of a slot keeps: all that it has for its parts where nobody has locked it, and else what
    /// a scan of its log tells.
    fn kept_in_slot(&self, ino: Ino) -> u64
        requires few { kept_in self.now.book.state (cell_at (shared_of self.now) ino) < 2 ^ 64 }
        requires unlocked { KeepsUnlocked (shared_of self.now) }
        ensures { result ≡ kept_in self.now.book.state (cell_at (shared_of self.now) ino) }
    {
        let Some(cell) = self.cell(ino) else {
            return 0;
        };
        if self.is_locked(ino) {
            return kept_blocks(cell, &self.book);
        }
        cell.blocks() - cell.log().blocks().len() as u64
    }
}

/// Where each block stands once, it is at one of these places at most.
fn blocks_add_up()
    ensures { (blocks : ℕ) (w : machine.World) → IsEachOnce blocks (all_blocks w)
        → AddsUp blocks w.shared }
{}

/// A free list as maximal runs.
fn runs_in(alloc: Global, list: &FreeList) -> Result<Vec<FreeRun>, Fault>
    ensures ok { IfOk result (λ runs. runs.items ≡ free_runs_of (numbers_of list.now.blocks)) }
    ensures err { FailsOnly out_of_memory result }
{
    let runs: Vec<FreeRun> = list.runs().collect(alloc)?;
    Ok(runs)
}

/// The log of a cell in numbers.
fn log_counts(alloc: Global, cell: &InodeCell) -> Result<LogCounts, Fault>
    ensures ok { IfOk result (λ log. log ≡ counts_in cell.now.state) }
    ensures err { FailsOnly out_of_memory result }
{
    let count = cell.log().blocks().len();
    let mut pages = Vec::with_capacity(alloc, count)?;
    for page in 0..count {
        pages.push(cell.counts(page))?;
    }
    Ok(LogCounts {
        entries: cell.tail(),
        pages: Items::from_vec(pages),
    })
}

/// How many blocks are those of records that drains have picked and not yet released.
fn picked_blocks(actors: &[Actor]) -> u64
    requires { length actors.now ≤ 64 }
    ensures value { result ≡ sum_by picked_of actors.now }
    ensures few { result ≤ length actors.now }
{
    let mut count = 0;
    for actor in actors {
        count += picked_by(actor);
    }
    count
}

/// How many are those of one actor: one or none.
fn picked_by(actor: &Actor) -> u64
    ensures value { result ≡ picked_of actor.now }
    ensures few { result ≤ 1 }
{
    match (&actor.reserved, &actor.running) {
        (Reservation::Hand(_), Some(running)) => picked_at(&running.next),
        _ => 0,
    }
}

/// How many are that of a call before this step.
fn picked_at(next: &Next) -> u64
    ensures value { result ≡ picked_at next.now }
    ensures few { result ≤ 1 }
{
    match next {
        Next::SnapshotOrCleaner(
            SnapshotOrCleanerStep::LockPicked(_, picked)
            | SnapshotOrCleanerStep::Release(_, picked),
        ) if picked.is_page() => 1,
        _ => 0,
    }
}

/// How many blocks the lists have.
fn free_blocks(lists: &[FreeList]) -> u64
    requires { sum_by free_in lists.now < 2 ^ 64 }
    ensures { result ≡ sum_by free_in lists.now }
{
    let mut count = 0;
    for list in lists {
        count += list.len();
    }
    count
}

/// How many pages the logs of these cells have.
fn log_pages(cells: &[InodeCell]) -> u64
    requires { sum_by (λ c. chain_in c.state) cells.now < 2 ^ 64 }
    ensures { result ≡ sum_by (λ c. chain_in c.state) cells.now }
{
    let mut count = 0;
    for cell in cells {
        count += cell.log().blocks().len() as u64;
    }
    count
}

/// How many blocks a cell has for published parts that are current, recorded, or held by a living snapshot.
fn kept_blocks(cell: &InodeCell, book: &Book) -> u64
    requires { kept_in book.now.state cell.now.state < 2 ^ 64 }
    ensures { result ≡ kept_in book.now.state cell.now.state }
{
    let log = cell.log().log();
    let mut count = 0;
    for place in 0..log.len() {
        count += kept_of(cell, book, place, &log[place]);
    }
    count
}

/// How many of them are those of one entry.
fn kept_of(cell: &InodeCell, book: &Book, place: usize, entry: &Entry) -> u64
    requires { slice_get (log_of cell.now.state) place ≡ Some entry.now }
    ensures { result ≡ kept_at book.now.state cell.now.state place entry.now }
{
    cell.holds_together();
    let marks = cell.marks_of(place);
    let mut count = 0;
    for k in 0..entry.item.part_count() {
        count += kept_part(cell, book, entry, k, mark_at(marks, k));
    }
    count
}

/// One of some marks.
fn mark_at(marks: &[Mark], k: u32) -> Mark
    requires { k < length marks.now }
    ensures { result ≡ slice_index_or marks.now k Mark.Current }
{
    marks[k as usize]
}

/// How many are that of one part: one or none.
fn kept_part(cell: &InodeCell, book: &Book, entry: &Entry, k: u32, mark: Mark) -> u64
    requires { k < part_count entry.now }
    ensures value { (place : ℕ) → slice_get (log_of cell.now.state) place ≡ Some entry.now
        → mark ≡ mark_of cell.now.state place k
        → result ≡ one_of book.now.state entry.now.epoch mark (block_at cell.now.state place k) }
    ensures few { result ≤ 1 }
{
    if is_kept(mark, book, entry.epoch) && has_block(cell, entry, k) {
        1
    } else {
        0
    }
}

/// Whether a part of an entry that is not out has a block: a page has one, and no other part.
fn has_block(cell: &InodeCell, entry: &Entry, k: u32) -> bool
    requires { k < part_count entry.now }
    ensures { (place : ℕ) → slice_get (log_of cell.now.state) place ≡ Some entry.now
        → is_there (mark_of cell.now.state place k) ≡ true
        → result ≡ is_some (block_at cell.now.state place k) }
{
    cell.holds_together();
    match entry.item.part_at(k) {
        Some(part) => is_page(part),
        None => false,
    }
}

/// Whether a part is a page.
fn is_page(part: Part) -> bool
    ensures { result ≡ is_page part }
{
    matches!(part, Part::Page(_))
}

/// Whether a part counts as data or as pending. What was killed and not yet retired dies in the present epoch.
fn is_kept(mark: Mark, book: &Book, birth: Epoch) -> bool
    ensures { result ≡ is_part_kept book.now.state birth mark }
{
    match mark {
        Mark::Current | Mark::Kept => true,
        Mark::Killed => book.snaps().youngest_in(birth, book.epoch()).is_some(),
        Mark::Out => false,
    }
}
