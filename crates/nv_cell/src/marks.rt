//! The marks of a log's parts by number, with what follows from them by entry and by page.

ghost use Rattle.std.specs.Prelude.{◌≡◌, ℕ, ◌+◌, ◌-◌, ◌<◌, ◌≤◌, ◌^◌, ◌++◌, ◌∷◌, [], Bool, None, Some, true, false, if◌then◌else◌, nat_lt, IfErr, IsOk, OnOk, length, replicate, slice_get, slice_index, slice_index_or, slice_set, vec_capacity, vec_len};
ghost use Rattle.nv_base.specs.Memory.{out_of_memory};
ghost use Rattle.nv_base.specs.Refusals.{FailsOnly};
ghost use Rattle.nv_cell.specs.Room.{HaveGrown};
ghost use Rattle.nv_cell.specs.Numbers.{numbers_in};
ghost use Rattle.nv_cell.specs.Marks.{bit, is_current, is_there, mark_at};
ghost use Rattle.nv_cell.specs.Tallies.{AreCounts, AreRuns, AreTallied, HasSpare, IsInRun, SameCapacity, end_at, first_slot, is_in, is_valid, moved, start_at, tally_at, counts_at};
ghost use Rattle.nv_cell.specs.declared.mark.Mark.TheVariants as mark;

use crate::grow::{LEAST_ENTRIES, LEAST_PARTS, grow};
use crate::{LogPageCounts, Mark, NumberedPart, PartEnds, Tally};
use nv_alloc::Block;
use nv_base::Fault;
use nv_log::Chain;
use std::alloc::Global;

/// The mark of each published part by its number, where the parts of each entry end among them, where its slots end,
/// how many of its parts are current or not out, and how many entries of each page have such a part. Pages are those of
/// the chain: where they end is told by it.
#[derive(Debug, Drop)]
pub struct Marks {
    pub(crate) marks: Vec<Mark>,
    pub(crate) ends: PartEnds,
    pub(crate) tallies: Vec<Tally>,
    pub(crate) pages: Vec<LogPageCounts>,
    /// How many parts are not out.
    pub(crate) there: usize,
}

/// Where a run begins.
pub fn start_of(ends: &[usize], run: usize) -> usize
    ensures { result ≡ start_at ends.now run }
{
    if run == 0 {
        return 0;
    }
    ends.get(run - 1).copied().unwrap_or(0)
}

/// Whether an item stands in a run.
fn is_in_run(ends: &[usize], run: usize, n: usize) -> bool
    ensures { result ≡ true → IsInRun ends.now n run }
{
    run < ends.len() && start_of(ends, run) <= n && n < ends[run]
}

/// The run that an item stands in: the guessed one, or else found by halving over the ends of the runs.
pub fn run_of(ends: &[usize], guess: usize, n: usize) -> usize
    requires { AreRuns ends.now (n + 1) }
    ensures { IsInRun ends.now n result }
{
    if is_in_run(ends, guess, n) {
        return guess;
    }
    ends.partition_point(|end| *end <= n)
}

/// The page that an entry stands in. It is guessed as if each page but the last had as many entries as the first.
pub fn page_of(page_ends: &[usize], entry: usize) -> usize
    requires { AreRuns page_ends.now (entry + 1) }
    ensures { IsInRun page_ends.now entry result }
{
    let first = page_ends.first().copied().unwrap_or(1);
    run_of(page_ends, entry / first.max(1), entry)
}

/// Looks at what the naming and the release of a part will look at, its entry and its block, while its tally is on the
/// way too: so memory is waited for once and not three times. The block is looked for in the slot that the part has
/// where no entry is without parts. Gives a number that rests on all that was seen.
fn look_ahead(chain: &Chain, slots: &[Option<Block>], part: &NumberedPart) -> usize {
    let mut seen: usize = 0;
    if part.entry < chain.len() {
        let entry = chain.entry_at(part.entry);
        // Both ends of the entry, which may lie in two lines of a cache, as those of the slot below may.
        seen = (entry.id.place as usize).wrapping_add(entry.item.part_count() as usize);
    }
    match slots.get(part.number.wrapping_sub(part.entry).wrapping_sub(1)) {
        Some(Some(block)) => seen.wrapping_add(block.bytes().len()),
        Some(None) | None => seen,
    }
}

/// Adds marks of current parts.
pub fn push_current(marks: &mut Vec<Mark>, count: usize)
    requires { vec_len marks.old + count ≤ vec_capacity marks.old }
    ensures items { marks.new.items ≡ marks.old.items ++ replicate count mark.Current }
    ensures capacity { vec_capacity marks.new ≡ vec_capacity marks.old }
{
    for _done in 0..count {
        marks.push_reserved(Mark::Current);
    }
}

impl Marks {
    /// No marks.
    pub fn new(alloc: Global) -> Marks
        ensures marks { result.marks.items ≡ [] }
        ensures ends { result.ends.items ≡ [] }
        ensures tallied { AreTallied result [] }
    {
        Marks {
            marks: Vec::new(alloc),
            ends: PartEnds::new(alloc),
            tallies: Vec::new(alloc),
            pages: Vec::new(alloc),
            there: 0,
        }
    }

    /// The number of the first part of an entry, by the entry's place in the log.
    pub fn first(&self, entry: usize) -> usize
        ensures { result ≡ start_at self.now.ends.items entry }
    {
        self.ends.start(entry)
    }

    /// Where the slots of an entry begin, by the entry's place in the log.
    pub fn first_slot(&self, entry: usize) -> usize
        ensures { result ≡ first_slot self.now.tallies.items entry }
    {
        if entry == 0 {
            return 0;
        }
        match self.tallies.get(entry - 1) {
            Some(tally) => tally.slots_end,
            None => 0,
        }
    }

    /// The slot of a part, in the entry that it comes with. The first part of an entry has none: it is no page.
    pub fn slot(&self, part: NumberedPart) -> Option<usize>
        requires few { first_slot self.now.tallies.items part.entry
            ≤ start_at self.now.ends.items part.entry }
        ensures { result ≡ (if nat_lt (start_at self.now.ends.items part.entry) part.number
            then Some (first_slot self.now.tallies.items part.entry
            + (part.number - start_at self.now.ends.items part.entry - 1)) else None) }
    {
        let first = self.first(part.entry);
        if part.number <= first {
            return None;
        }
        Some(self.first_slot(part.entry) + (part.number - first - 1))
    }

    /// The mark of a part, if there are so many parts.
    pub fn get(&self, n: usize) -> Option<Mark>
        ensures { result ≡ slice_get self.now.marks.items n }
    {
        self.marks.get(n).copied()
    }

    /// Whether a part of an entry is not out, by the entry's place in the log.
    pub fn has_there(&self, entry: usize) -> bool
        requires { entry < length self.now.tallies.items }
        ensures { result ≡ is_valid (tally_at self.now.tallies.items entry) }
    {
        self.tallies[entry].is_valid()
    }

    /// The place of the entry that a part stands in: the one that the part comes with, and if it is not in that one,
    /// found in the time of the logarithm of the entries.
    pub fn entry_of(&self, part: NumberedPart) -> usize
        requires runs { AreRuns self.now.ends.items (part.number + 1) }
        ensures { IsInRun self.now.ends.items part.number result }
    {
        self.ends.entry_of(part.entry, part.number)
    }

    /// Makes room for the marks of so many parts and entries more, and for so many pages in all.
    ///
    /// `OutOfMemory` where a growth was refused: then nothing has changed but room.
    #[inline(always)]
    pub fn reserve(&mut self, parts: usize, entries: usize, pages: usize) -> Result<(), Fault>
        ensures same { HaveGrown self.old self.new }
        ensures spare { OnOk result (HasSpare self.new parts entries) }
        ensures pages { OnOk result (pages ≤ vec_capacity self.new.pages) }
        ensures counted { OnOk result (parts < 2 ^ 63) }
        ensures enough { HasSpare self.old parts entries → pages ≤ vec_capacity self.old.pages
            → IsOk result }
        ensures err { FailsOnly out_of_memory result }
    {
        grow(&mut self.marks, parts, LEAST_PARTS)?;
        self.ends.reserve(entries)?;
        grow(&mut self.tallies, entries, LEAST_ENTRIES)?;
        self.pages.reserve(pages.saturating_sub(self.pages.len()))?;
        Ok(())
    }

    /// Adds the marks of an entry's parts, each current, and counts the entry in its page. Grows nothing.
    pub fn add(&mut self, page_ends: &[usize], parts: usize)
        requires room { HasSpare self.old parts 1 }
        requires page { AreRuns page_ends.now (length self.old.tallies.items + 1) }
        requires tallied { AreTallied self.old page_ends.now }
        ensures marks { self.new.marks.items
            ≡ self.old.marks.items ++ replicate parts mark.Current }
        ensures ends { self.new.ends.items
            ≡ self.old.ends.items ++ (length self.old.marks.items + parts) ∷ [] }
        ensures tallied { AreTallied self.new page_ends.now }
        ensures room { SameCapacity self.old self.new }
    {
        let tally = Tally {
            current: parts,
            there: parts,
            slots_end: self.first_slot(self.tallies.len()) + parts.saturating_sub(1),
        };
        let k = page_of(page_ends, self.tallies.len());
        self.pages[k] = self.pages[k].with_entry(tally);
        self.there += parts;
        push_current(&mut self.marks, parts);
        self.ends.push_reserved(self.marks.len());
        self.tallies.push_reserved(tally);
    }

    /// Marks current parts killed. Gives what [`look_ahead`] saw of all of them.
    pub fn kill_all(
        &mut self,
        page_ends: &[usize],
        killed: &[NumberedPart],
        chain: &Chain,
        slots: &[Option<Block>],
    ) -> usize
        requires current { (i : ℕ) → i < length killed.now → is_current
            (mark_at self.old.marks.items (slice_index (numbers_in killed.now) i)) ≡ true }
        requires tallied { AreTallied self.old page_ends.now }
        ensures marks { (n : ℕ) → mark_at self.new.marks.items n
            ≡ (if is_in n (numbers_in killed.now) then mark.Killed
            else mark_at self.old.marks.items n) }
        ensures len { vec_len self.new.marks ≡ vec_len self.old.marks }
        ensures ends { self.new.ends ≡ self.old.ends }
        ensures room { SameCapacity self.old self.new }
        ensures tallied { AreTallied self.new page_ends.now }
    {
        let mut ahead: usize = 0;
        for part in killed {
            ahead = ahead.wrapping_add(look_ahead(chain, slots, part));
            self.set(page_ends, *part, Mark::Killed);
        }
        ahead
    }

    /// Gives a part that is not out another mark than current. Its entry's tally and its page's counts go along. The
    /// time is that of the searches for its entry and its page.
    #[inline(always)]
    pub fn set(&mut self, page_ends: &[usize], part: NumberedPart, mark: Mark)
        requires there { is_there (mark_at self.old.marks.items part.number) ≡ true }
        requires ended { is_current mark ≡ false }
        requires tallied { AreTallied self.old page_ends.now }
        ensures marks { self.new.marks.items ≡ slice_set self.old.marks.items part.number mark }
        ensures room { SameCapacity self.old self.new }
        ensures ends { self.new.ends ≡ self.old.ends }
        ensures tallied { AreTallied self.new page_ends.now }
    {
        let n = part.number;
        let i = self.entry_of(part);
        let was = self.marks[n];
        let old = self.tallies[i];
        let new = old.moved(was, mark);
        let k = page_of(page_ends, i);
        self.pages[k] = self.pages[k].recounted(old, new);
        self.tallies[i] = new;
        self.marks[n] = mark;
        if !mark.is_there() {
            self.there -= 1;
        }
    }
}
