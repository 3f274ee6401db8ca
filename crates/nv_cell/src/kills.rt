//! The parts that an entry kills: those whose keys it covers and that the index names.

ghost use Rattle.std.specs.Prelude.{◌≡◌, ℕ, ◌+◌, ◌<◌, ◌≤◌, ◌==◌, Some, if◌then◌else◌, length, min, vec_capacity, vec_len};
ghost use Rattle.nv_base.specs.declared.limits.TheConstants.{FILE_PAGES};
ghost use Rattle.nv_entry.specs.Keys.{covers, key_named};
ghost use Rattle.nv_findex.specs.Pages.{IsRun, IsRunOf, present_from, ref_at};
ghost use Rattle.nv_log.specs.Chain.{place_of_id};
ghost use Rattle.nv_cell.specs.Numbers.{AreEnds, AreNamed, HasRoomFor, IsPart, Pushes, is_any_name, is_key, is_page_in, is_stat, number, numbers_in, times};
ghost use Rattle.nv_cell.specs.Weights.{present_between, weight_by};

use crate::{CellIndex, Marks, NumberedPart};
use nv_base::limits::FILE_PAGES;
use nv_entry::{Item, Key, PartRef};
use nv_findex::PageRun;
use nv_log::Chain;

/// Puts a part on the list, of the entry at a place of the log.
fn push_part_at(
    killed: &mut Vec<NumberedPart>,
    chain: &Chain,
    marks: &Marks,
    part: PartRef,
    entry: usize,
)
    requires ends { AreEnds marks.now.ends.items chain.now.state.entries }
    requires place { place_of_id chain.now.state.entries part.entry ≡ Some entry }
    requires within { entry < length chain.now.state.entries }
    requires known { IsPart chain.now.state.entries part }
    requires room { HasRoomFor 1 killed.old }
    ensures numbers { (n : ℕ) → times n (numbers_in killed.new.items)
        ≡ times n (numbers_in killed.old.items)
        + (if number chain.now.state.entries part == n then 1 else 0) }
    ensures len { vec_len killed.new ≡ vec_len killed.old + 1 }
    ensures capacity { vec_capacity killed.new ≡ vec_capacity killed.old }
{
    let number = marks.first(entry) + part.place as usize;
    killed.push_reserved(NumberedPart { number, entry });
}

/// Puts a part on the list.
fn push_part(killed: &mut Vec<NumberedPart>, chain: &Chain, marks: &Marks, part: PartRef)
    requires ends { AreEnds marks.now.ends.items chain.now.state.entries }
    requires known { IsPart chain.now.state.entries part }
    requires room { HasRoomFor 1 killed.old }
    ensures numbers { (n : ℕ) → times n (numbers_in killed.new.items)
        ≡ times n (numbers_in killed.old.items)
        + (if number chain.now.state.entries part == n then 1 else 0) }
    ensures len { vec_len killed.new ≡ vec_len killed.old + 1 }
    ensures capacity { vec_capacity killed.new ≡ vec_capacity killed.old }
{
    let entry = chain.place_of(part.entry).unwrap();
    push_part_at(killed, chain, marks, part, entry);
}

/// Puts the part on the list that a key has.
fn push_key(
    killed: &mut Vec<NumberedPart>,
    chain: &Chain,
    marks: &Marks,
    index: &CellIndex,
    key: Key<'_>,
)
    requires ends { AreEnds marks.now.ends.items chain.now.state.entries }
    requires named { AreNamed chain.now.state.entries index.now }
    requires room { HasRoomFor 1 killed.old }
    ensures { Pushes chain.now.state.entries index.now (is_key (key_named key.entry)) 1
        killed.old killed.new }
{
    if let Some(part) = index.part(key) {
        push_part(killed, chain, marks, part);
    }
}

/// Puts the parts on the list that some pages of one run in the index have. Its entry is looked for once.
fn push_stretch(
    killed: &mut Vec<NumberedPart>,
    chain: &Chain,
    marks: &Marks,
    index: &CellIndex,
    run: &PageRun,
    from: u32,
    to: u32,
)
    requires ends { AreEnds marks.now.ends.items chain.now.state.entries }
    requires named { AreNamed chain.now.state.entries index.now }
    requires run { IsRunOf (ref_at index.now.pages.pages) run.now }
    requires sized { IsRun run.now }
    requires first { run.now.first ≤ from }
    requires order { from < to }
    requires end { to ≤ run.now.end }
    requires room { HasRoomFor (present_between index.now from to) killed.old }
    ensures { Pushes chain.now.state.entries index.now (is_page_in from to)
        (present_between index.now from to) killed.old killed.new }
{
    let entry = chain.place_of(run.start.entry).unwrap();
    for page in from..to {
        let at = run.page_ref(page);
        let part = PartRef {
            entry: at.entry,
            place: at.place + 1,
        };
        push_part_at(killed, chain, marks, part, entry);
    }
}

/// Puts the parts on the list that the pages of a range have. Costs one look-up, and for each run in the index the
/// search for its entry. Returns where the first page was looked up among the runs.
#[inline(always)]
fn push_pages(
    killed: &mut Vec<NumberedPart>,
    chain: &Chain,
    marks: &Marks,
    index: &CellIndex,
    from: u32,
    to: u32,
) -> usize
    requires ends { AreEnds marks.now.ends.items chain.now.state.entries }
    requires named { AreNamed chain.now.state.entries index.now }
    requires order { from ≤ to }
    requires within { to ≤ FILE_PAGES }
    requires room { HasRoomFor (present_between index.now from to) killed.old }
    ensures { Pushes chain.now.state.entries index.now (is_page_in from to)
        (present_between index.now from to) killed.old killed.new }
{
    let mut next = from;
    let mut place = 0;
    let mut found = usize::MAX;
    'runs: while next < to {
        let run = index.run_near(next, &mut place);
        // Places rise, so the first one stays.
        found = found.min(place.saturating_sub(1));
        match run {
            Some(run) if run.first < to => {
                let start = run.first.max(next);
                let end = run.end.min(to);
                push_stretch(killed, chain, marks, index, &run, start, end);
                next = end;
            }
            _ => return found,
        }
    }
    found
}

/// Puts the parts on the list that the pages of a run have. Returns where the first one was looked up.
fn push_run(
    killed: &mut Vec<NumberedPart>,
    chain: &Chain,
    marks: &Marks,
    index: &CellIndex,
    first: u32,
    len: u32,
) -> usize
    requires ends { AreEnds marks.now.ends.items chain.now.state.entries }
    requires named { AreNamed chain.now.state.entries index.now }
    requires room { HasRoomFor len killed.old }
    ensures { Pushes chain.now.state.entries index.now
        (is_page_in first (min (first + len) FILE_PAGES)) len killed.old killed.new }
{
    let end = first.saturating_add(len).min(FILE_PAGES);
    if first < end {
        return push_pages(killed, chain, marks, index, first, end);
    }
    usize::MAX
}

/// Puts the parts on the list that the pages from one on have.
fn push_pages_from(
    killed: &mut Vec<NumberedPart>,
    chain: &Chain,
    marks: &Marks,
    index: &CellIndex,
    from: u64,
)
    requires ends { AreEnds marks.now.ends.items chain.now.state.entries }
    requires named { AreNamed chain.now.state.entries index.now }
    requires room { HasRoomFor (present_from from index.now.pages.pages) killed.old }
    ensures { Pushes chain.now.state.entries index.now (is_page_in from FILE_PAGES)
        (present_from from index.now.pages.pages) killed.old killed.new }
{
    if from < u64::from(FILE_PAGES) {
        let _place = push_pages(killed, chain, marks, index, from as u32, FILE_PAGES);
    }
}

/// Puts the parts on the list that names have.
fn push_names(killed: &mut Vec<NumberedPart>, chain: &Chain, marks: &Marks, index: &CellIndex)
    requires ends { AreEnds marks.now.ends.items chain.now.state.entries }
    requires named { AreNamed chain.now.state.entries index.now }
    requires room { HasRoomFor (length index.now.names.names) killed.old }
    ensures { Pushes chain.now.state.entries index.now is_any_name
        (length index.now.names.names) killed.old killed.new }
{
    for i in 0..index.name_count() {
        let part = index.name_part_at(i).unwrap();
        push_part(killed, chain, marks, part);
    }
}

/// Puts the parts on the list that kind, mode and size have.
fn push_stat(killed: &mut Vec<NumberedPart>, chain: &Chain, marks: &Marks, index: &CellIndex)
    requires ends { AreEnds marks.now.ends.items chain.now.state.entries }
    requires named { AreNamed chain.now.state.entries index.now }
    requires room { HasRoomFor 3 killed.old }
    ensures { Pushes chain.now.state.entries index.now is_stat 3 killed.old killed.new }
{
    push_key(killed, chain, marks, index, Key::Kind);
    push_key(killed, chain, marks, index, Key::Mode);
    push_key(killed, chain, marks, index, Key::Size);
}

/// Puts the parts on the list that an item kills. Returns where the first page of a Write was looked up among the runs in
/// the index.
#[inline(always)]
pub fn push_covered(
    killed: &mut Vec<NumberedPart>,
    chain: &Chain,
    marks: &Marks,
    index: &CellIndex,
    block: u64,
    item: &Item,
) -> usize
    requires ends { AreEnds marks.now.ends.items chain.now.state.entries }
    requires named { AreNamed chain.now.state.entries index.now }
    requires block { 0 < block }
    requires room { HasRoomFor (weight_by block index.now item.now) killed.old }
    ensures { Pushes chain.now.state.entries index.now (covers block item.now)
        (weight_by block index.now item.now) killed.old killed.new }
{
    match item {
        Item::Init { .. } => push_stat(killed, chain, marks, index),
        Item::Write { first, run, .. } => {
            push_key(killed, chain, marks, index, Key::Size);
            return push_run(killed, chain, marks, index, *first, run.len);
        }
        Item::SetSize { size } => {
            push_key(killed, chain, marks, index, Key::Size);
            push_pages_from(killed, chain, marks, index, size.div_ceil(block));
        }
        Item::SetMode { .. } => push_key(killed, chain, marks, index, Key::Mode),
        Item::Bind { name, .. } | Item::Unbind { name } => {
            push_key(killed, chain, marks, index, Key::Name(name.bytes()));
        }
        Item::Gone => {
            push_stat(killed, chain, marks, index);
            push_pages_from(killed, chain, marks, index, 0);
            push_names(killed, chain, marks, index);
        }
    }
    usize::MAX
}
