//! The bytes of a file, read by its index.

ghost use Rattle.std.specs.Prelude.{◌≡◌, ℕ, ◌+◌, ◌-◌, ◌*◌, ◌/◌, ◌<◌, ◌≤◌, ◌^◌, ◌++◌, IfErr, IfOk, IfSome, IsOk, IsSome, List, OnOk, [], None, Option, drop, length, option_and_then, replicate, slice_index_or, take, unwrap_or};
ghost use Rattle.std.specs.Option.{option_copied, option_map};
ghost use Rattle.std.specs.Int.{div_ceil};
ghost use Rattle.nv_alloc.specs.Block.{BlockValue, number_of};
ghost use Rattle.nv_base.specs.Memory.{out_of_memory};
ghost use Rattle.nv_entry.specs.Bytes.{read_at};
ghost use Rattle.nv_entry.specs.Covered.{part_total};
ghost use Rattle.nv_entry.specs.Node.{block_now, file_bytes, size_now};
ghost use Rattle.nv_log.specs.Chain.{log, place_of_id};
ghost use Rattle.nv_cell.specs.Cell.{AreSlotsSized, log_of};
ghost use Rattle.nv_cell.specs.Pages.{AreBytesOf, AreReadTo, IsStretch, block_at_page, block_of, own_bytes, pages_now, slot_bytes};
ghost use Rattle.nv_cell.specs.Reading.{IsIndexOf};
ghost use Rattle.nv_cell.specs.Slots.{page_slot, slot_base};
ghost use Rattle.nv_cell.specs.Tallies.{first_slot};
ghost use Rattle.nv_cell.specs.declared.read.TheConstants.{GROUP};

use crate::reading::size_of;
use crate::{CellIndex, InodeCell, Marks};
use nv_alloc::Block;
use nv_base::limits::FILE_PAGES;
use nv_base::{Bytes, Fault};
use nv_findex::PageRun;
use nv_log::Chain;
use std::alloc::AllocError;
use std::ops::Range;

/// How many pages a read looks up before it copies their bytes.
const GROUP: usize = 16;

/// Pages that follow one another and lie so in one entry, with the first one's slot. No page from one
/// that was asked for up to the first of these is present.
#[derive(Clone, Copy, Debug, PartialEq, Eq)]
pub struct Stretch {
    pub first: u64,
    pub end: u64,
    pub slot: usize,
}

impl InodeCell {
    /// At most `len` bytes of a file from a place on, none past its end: zeros where it has no page.
    /// `OutOfMemory` where room for them was refused: a read of no byte takes none. Costs the pages that it reads, and one look-up for each
    /// run of them and for each sixteen pages.
    /// Only tested: a read takes one look-up for each page run and for each sixteen pages.
    pub fn read(&self, at: u64, len: u64) -> Result<Bytes, Fault>
        // The bytes of a file from a place on are told.
        // As many bytes are read as are asked for and there.
        // Bytes are zeros where the file has no page.
        // Pages that are looked up in groups and page runs give their own blocks.
        // Part slots are not counted as parts.
        ensures own { IfOk result (λ read. read ≡ read_at at len (own_bytes self.now.state)) }
        ensures bytes { (bytes : ℕ → List ℕ) → AreBytesOf self.now.state bytes
            → IfOk result (λ read. read ≡ read_at at len
            (file_bytes bytes self.now.state.block (log_of self.now.state))) }
        // So does one from the end of the file on.
        // So does one that would go past the greatest number there.
        ensures past { size_now self.now.state.block (log_of self.now.state) ≤ at → IsOk result }
        // A read of no bytes takes no memory.
        ensures none { len ≡ 0 → IsOk result }
        // The only error is `OutOfMemory`.
        ensures err { IfErr result (λ fault. fault ≡ out_of_memory) }
    {
        // Ids rise along all entries, so that the one of an id stands in the log.
        self.chain.holds_together();
        let size = size_of(self.block, &self.chain, &self.index);
        let end = size.min(at.saturating_add(len));
        let start = at.min(end);
        if start == end {
            return Ok(Bytes::empty(self.alloc));
        }
        let mut bytes = Vec::with_capacity(self.alloc, (end - start) as usize)?;
        read_pages(
            &mut bytes,
            self.block,
            &self.index,
            &self.chain,
            &self.marks,
            &self.blocks,
            start..end,
        )?;
        Ok(Bytes::from_vec(bytes))
    }

    /// The block of a page of a file now; none where the page is absent. Takes no memory, and costs one look-up.
    pub fn page_now(&self, page: u32) -> Option<&Block>
        // The block of a page now is told.
        ensures block { option_copied result ≡ block_at_page self.now.state page }
        ensures number { option_map number_of (option_copied result)
            ≡ block_now self.now.state.block (log_of self.now.state) page }
        ensures sized { IfSome (option_copied result)
            (λ b. length b.bytes ≡ self.now.state.block) }
    {
        // Ids rise along all entries, so that the one of an id stands in the log.
        self.chain.holds_together();
        let page = u64::from(page);
        let mut place = 0;
        let stretch = stretch_from(
            self.block,
            &self.index,
            &self.chain,
            &self.marks,
            page,
            &mut place,
        );
        block_at(&self.blocks, slot_in(stretch, page))
    }
}

/// Puts the bytes of a file's pages on an empty list, those from the first of the places up to the last.
fn read_pages(
    bytes: &mut Vec<u8>,
    block: u64,
    index: &CellIndex,
    chain: &Chain,
    marks: &Marks,
    slots: &[Option<Block>],
    places: Range<u64>,
) -> Result<(), AllocError>
    requires empty { bytes.old.items ≡ [] }
    requires block { 0 < block }
    requires index { IsIndexOf block (log chain.now.state) index.now }
    requires slots { (i : ℕ) → i < chain.now.state.tail
        → first_slot marks.now.tallies.items i ≡ slot_base chain.now.state.entries i }
    requires small { part_total (log chain.now.state) < 2 ^ 64 }
    requires sized { AreSlotsSized block slots.now }
    requires order { places.start ≤ places.end }
    ensures { (count : ℕ) → places.end ≤ count * block → OnOk result (bytes.new.items
        ≡ read_at places.start (places.end - places.start)
        (pages_now block slots.now (page_slot chain.now.state.entries index.now) count)) }
{
    let last = places.end.div_ceil(block);
    let mut page = places.start / block;
    let mut place = 0;
    let mut numbers = [None; GROUP];
    let mut blocks: [Option<&Block>; GROUP] = [None; GROUP];
    while page < last {
        let pages = page..last.min(page.saturating_add(GROUP as u64));
        let count = (pages.end - pages.start) as usize;
        find_slots(block, index, chain, marks, &pages, &mut place, &mut numbers);
        find_blocks(slots, &numbers, count, &mut blocks);
        push_pages(bytes, block, &blocks, &pages, &places)?;
        page = pages.end;
    }
    Ok(())
}

/// Puts the slots of some pages in front of a list; none for a page that is absent. The first page's run is
/// looked for at a place among the runs first, which becomes the place behind the last one's.
fn find_slots(
    block: u64,
    index: &CellIndex,
    chain: &Chain,
    marks: &Marks,
    pages: &Range<u64>,
    place: &mut usize,
    numbers: &mut [Option<usize>; GROUP],
)
    requires block { 0 < block }
    requires page { pages.now.end < 2 ^ 64 }
    requires few { pages.now.end ≤ pages.now.start + GROUP }
    requires index { IsIndexOf block (log chain.now.state) index.now }
    requires slots { (i : ℕ) → i < chain.now.state.tail
        → first_slot marks.now.tallies.items i ≡ slot_base chain.now.state.entries i }
    requires small { part_total (log chain.now.state) < 2 ^ 64 }
    ensures { (k : ℕ) → pages.now.start + k < pages.now.end → slice_index_or numbers.new k None
        ≡ page_slot chain.now.state.entries index.now (pages.now.start + k) }
{
    let mut stretch = no_stretch();
    for page in pages.start..pages.end {
        if page == pages.start || stretch.end <= page {
            stretch = stretch_from(block, index, chain, marks, page, place);
        }
        numbers[(page - pages.start) as usize] = slot_in(stretch, page);
    }
}

/// A page's slot, by the stretch that has the page or comes behind it.
fn slot_in(stretch: Stretch, page: u64) -> Option<usize>
    requires small { stretch.slot + (stretch.end - stretch.first) < 2 ^ 64 }
    requires ahead { page < stretch.end }
    ensures { (numbers : ℕ → Option ℕ) → IsStretch numbers page stretch → result ≡ numbers page }
{
    if page < stretch.first {
        return None;
    }
    Some(stretch.slot + (page - stretch.first) as usize)
}

/// Puts the blocks in the first so many of these slots in front of a list. Nothing else is done between one look and
/// the next, so that all of them come from memory at one time.
fn find_blocks<'a>(
    slots: &'a [Option<Block>],
    numbers: &[Option<usize>; GROUP],
    count: usize,
    blocks: &mut [Option<&'a Block>; GROUP],
)
    requires { count ≤ GROUP }
    ensures { (k : ℕ) → k < count → option_copied (slice_index_or blocks.new k None)
        ≡ option_and_then (λ n. slice_index_or slots.now n None)
        (slice_index_or numbers.now k None) }
{
    for k in 0..count {
        blocks[k] = block_at(slots, numbers[k]);
    }
}

/// The block in a slot, if there is one.
pub fn block_at(slots: &[Option<Block>], number: Option<usize>) -> Option<&Block>
    ensures { option_copied result ≡ option_and_then (λ n. slice_index_or slots.now n None) number }
{
    slots.get(number?)?.as_ref()
}

/// Puts the bytes of some pages on a list, of those places that are asked for, by the blocks of the pages.
fn push_pages(
    bytes: &mut Vec<u8>,
    block: u64,
    blocks: &[Option<&Block>; GROUP],
    pages: &Range<u64>,
    places: &Range<u64>,
) -> Result<(), AllocError>
    requires block { 0 < block }
    requires rising { pages.now.start ≤ pages.now.end }
    requires few { pages.now.end ≤ pages.now.start + GROUP }
    requires begun { places.now.start / block ≤ pages.now.start }
    requires last { pages.now.end ≤ div_ceil places.now.end block }
    requires order { places.now.start ≤ places.now.end }
    requires sized { (k : ℕ) → pages.now.start + k < pages.now.end
        → IfSome (option_copied (slice_index_or blocks.now k None)) (λ b. length b.bytes ≡ block) }
    ensures { (slots : List (Option BlockValue)) (numbers : ℕ → Option ℕ) (count : ℕ)
        → places.now.end ≤ count * block → AreSlotsSized block slots
        → ((k : ℕ) → pages.now.start + k < pages.now.end
        → option_copied (slice_index_or blocks.now k None)
        ≡ block_of slots numbers (pages.now.start + k))
        → AreReadTo block slots numbers count places.now.start places.now.end pages.now.start
        bytes.old.items
        → OnOk result (AreReadTo block slots numbers count places.now.start places.now.end
        pages.now.end bytes.new.items) }
{
    for page in pages.start..pages.end {
        let base = page * block;
        push_part(
            bytes,
            blocks[(page - pages.start) as usize],
            places.start.saturating_sub(base) as usize,
            block.min(places.end - base) as usize,
        )?;
    }
    Ok(())
}

/// The stretch that has a page, or the first one behind it. Its run is looked for at a place first, which becomes
/// the place behind it.
fn stretch_from(
    block: u64,
    index: &CellIndex,
    chain: &Chain,
    marks: &Marks,
    page: u64,
    place: &mut usize,
) -> Stretch
    requires block { 0 < block }
    requires page { page + 1 < 2 ^ 64 }
    requires index { IsIndexOf block (log chain.now.state) index.now }
    requires slots { (i : ℕ) → i < chain.now.state.tail
        → first_slot marks.now.tallies.items i ≡ slot_base chain.now.state.entries i }
    requires small { part_total (log chain.now.state) < 2 ^ 64 }
    ensures { IsStretch (page_slot chain.now.state.entries index.now) page result }
{
    // Ids rise along all entries, so that the one of an id stands in the log.
    chain.holds_together();
    // No page of a file is present from the greatest file's end on.
    let from = page.min(u64::from(FILE_PAGES)) as u32;
    match index.pages.run_near(from, place) {
        None => no_stretch(),
        Some(run) => stretch_of(chain, marks, &run),
    }
}

/// No stretch is left.
fn no_stretch() -> Stretch
    ensures { result ≡ record { first = 2 ^ 64 - 1; end = 2 ^ 64 - 1; slot = 0 } }
{
    Stretch {
        first: u64::MAX,
        end: u64::MAX,
        slot: 0,
    }
}

/// A run of pages, with the slot of its first one.
fn stretch_of(chain: &Chain, marks: &Marks, run: &PageRun) -> Stretch
    requires known { IsSome (place_of_id chain.now.state.entries run.now.start.entry) }
    requires small { first_slot marks.now.tallies.items
        (unwrap_or (place_of_id chain.now.state.entries run.now.start.entry) 0)
        + run.now.start.place < 2 ^ 64 }
    ensures { result ≡ record {
      first = run.now.first;
      end = run.now.end;
      slot = first_slot marks.now.tallies.items
          (unwrap_or (place_of_id chain.now.state.entries run.now.start.entry) 0)
          + run.now.start.place;
    } }
{
    let place = chain.place_of(run.start.entry).unwrap();
    Stretch {
        first: u64::from(run.first),
        end: u64::from(run.end),
        slot: marks.first_slot(place) + run.start.place as usize,
    }
}

/// Puts some of the bytes of a block on a list; zeros where there is no block.
fn push_part(
    bytes: &mut Vec<u8>,
    block: Option<&Block>,
    from: usize,
    to: usize,
) -> Result<(), AllocError>
    requires order { from ≤ to }
    requires within { IfSome (option_copied block) (λ b. to ≤ length b.bytes) }
    ensures { (size : ℕ) → to ≤ size → OnOk result (bytes.new.items ≡ bytes.old.items
        ++ take (to - from) (drop from (slot_bytes size (option_copied block.entry)))) }
{
    match block {
        Some(block) => bytes.extend_from_slice(&block.bytes()[from..to]),
        None => push_zeros(bytes, to - from),
    }
}

fn push_zeros(bytes: &mut Vec<u8>, count: usize) -> Result<(), AllocError>
    ensures { OnOk result (bytes.new.items ≡ bytes.old.items ++ replicate count 0) }
{
    for _done in 0..count {
        bytes.push(0)?;
    }
    Ok(())
}
