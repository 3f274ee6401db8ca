//! Where the parts and slots of entries end, and the tallies of entries and counts of pages, told anew by the marks.

ghost use Rattle.std.specs.Prelude.{◌≡◌, ℕ, ◌+◌, ◌<◌, ◌≤◌, length, vec_capacity};
ghost use Rattle.std.specs.List.{count_by};
ghost use Rattle.nv_entry.specs.Covered.{part_total};
ghost use Rattle.nv_log.specs.Chain.{log};
ghost use Rattle.nv_cell.specs.Marks.{is_current, is_there};
ghost use Rattle.nv_cell.specs.Numbers.{part_base};
ghost use Rattle.nv_cell.specs.Tallies.{AreCounts, AreRuns, AreTallied, AreTallies, SameCapacity, count_in, end_at, is_live, is_valid};

use crate::{LogPageCounts, Mark, Marks, PartEnds, Tally};
use nv_log::Chain;

/// The tally of an entry with these marks, whose slots end at `slots_end`.
fn tally_of(marks: &[Mark], slots_end: usize) -> Tally
    ensures current { result.current ≡ count_by is_current marks.now }
    ensures there { result.there ≡ count_by is_there marks.now }
    ensures slots { result.slots_end ≡ slots_end }
{
    Tally {
        current: marks.iter().filter(|mark| mark.is_current()).count(),
        there: there_in(marks),
        slots_end,
    }
}

/// How many marks are not out.
fn there_in(marks: &[Mark]) -> usize
    ensures { result ≡ count_by is_there marks.now }
{
    marks.iter().filter(|mark| mark.is_there()).count()
}

/// The tally of an entry with the marks of a run, whose slots end at `slots_end`.
fn tally_in(marks: &[Mark], start: usize, end: usize, slots_end: usize) -> Tally
    requires onward { start ≤ end }
    requires within { end ≤ length marks.now }
    ensures current { result.current ≡ count_in is_current marks.now start end }
    ensures there { result.there ≡ count_in is_there marks.now start end }
    ensures slots { result.slots_end ≡ slots_end }
{
    tally_of(&marks[start..end], slots_end)
}

/// How many entries with these tallies are live, and how many are valid.
fn counts_of(tallies: &[Tally]) -> LogPageCounts
    ensures live { result.live ≡ count_by is_live tallies.now }
    ensures valid { result.valid ≡ count_by is_valid tallies.now }
{
    LogPageCounts {
        live: tallies.iter().filter(|tally| tally.is_live()).count(),
        valid: tallies.iter().filter(|tally| tally.is_valid()).count(),
    }
}

/// Tells where the parts and slots of each entry of the log end, and what each entry has, by the marks.
fn retally(ends: &mut PartEnds, tallies: &mut Vec<Tally>, marks: &[Mark], chain: &Chain)
    requires marks { length marks.now ≡ part_total (log chain.now.state) }
    requires ends_room { chain.now.state.tail ≤ vec_capacity ends.old }
    requires tallies_room { chain.now.state.tail ≤ vec_capacity tallies.old }
    ensures len { length ends.new.items ≡ chain.now.state.tail }
    ensures ended { (i : ℕ) → i < chain.now.state.tail → end_at ends.new.items i
        ≡ part_base chain.now.state.entries (i + 1) }
    ensures tallies { AreTallies tallies.new.items ends.new.items marks.now }
    ensures ends_capacity { vec_capacity ends.new ≡ vec_capacity ends.old }
    ensures tallies_capacity { vec_capacity tallies.new ≡ vec_capacity tallies.old }
{
    ends.clear();
    tallies.clear();
    let mut start = 0;
    let mut slots_end = 0;
    for t in 0..chain.tail() {
        let count = chain.entry_at(t).item.part_count() as usize;
        let end = start + count;
        slots_end += count.saturating_sub(1);
        let tally = tally_in(marks, start, end, slots_end);
        tallies.push_reserved(tally);
        ends.push_reserved(end);
        start = end;
    }
}

/// Counts the entries of each page by their tallies.
fn recount_pages(pages: &mut Vec<LogPageCounts>, page_ends: &[usize], tallies: &[Tally])
    requires runs { AreRuns page_ends.now (length tallies.now) }
    requires room { length page_ends.now ≤ vec_capacity pages.old }
    ensures counts { AreCounts pages.new.items page_ends.now tallies.now }
    ensures capacity { vec_capacity pages.new ≡ vec_capacity pages.old }
{
    pages.clear();
    let mut start = 0;
    for k in 0..page_ends.len() {
        let end = page_ends[k].min(tallies.len());
        let counts = counts_of(&tallies[start..end]);
        pages.push_reserved(counts);
        start = end;
    }
}

impl Marks {
    /// Tells all that follows from the marks anew. The time is linear in the entries and parts, and no memory is taken.
    pub(crate) fn recount(&mut self, chain: &Chain)
        requires marks { length self.old.marks.items ≡ part_total (log chain.now.state) }
        requires ends_room { chain.now.state.tail ≤ vec_capacity self.old.ends }
        requires tallies_room { chain.now.state.tail ≤ vec_capacity self.old.tallies }
        requires pages_room { length chain.now.state.ends ≤ vec_capacity self.old.pages }
        ensures marks { self.new.marks ≡ self.old.marks }
        ensures len { length self.new.ends.items ≡ chain.now.state.tail }
        ensures ended { (i : ℕ) → i < chain.now.state.tail → end_at self.new.ends.items i
            ≡ part_base chain.now.state.entries (i + 1) }
        ensures tallied { AreTallied self.new chain.now.state.ends }
        ensures room { SameCapacity self.old self.new }
    {
        retally(&mut self.ends, &mut self.tallies, &self.marks, chain);
        recount_pages(&mut self.pages, chain.ends(), &self.tallies);
        self.there = there_in(&self.marks);
    }
}
