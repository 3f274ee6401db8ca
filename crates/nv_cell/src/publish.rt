//! What the publishing of entries does to the index and the marks, and which parts it kills.

ghost use Rattle.std.specs.Prelude.{◌≡◌, ℕ, ◌+◌, ◌-◌, ◌<◌, ◌≤◌, ◌^◌, [], Some, not, if◌then◌else◌, nat_lt, drop, length, map, slice_index_or, take, vec_capacity, vec_len};
ghost use Rattle.std.specs.List.{sum_by};
ghost use Rattle.nv_entry.specs.Covered.{is_covered, part_total};
ghost use Rattle.nv_entry.specs.Keys.{Key};
ghost use Rattle.nv_entry.specs.Refs.{scan_ref};
ghost use Rattle.nv_nindex.specs.NameIndex.{HaveSameBindings};
ghost use Rattle.nv_cell.specs.Effects.{BindNone, NamesReady, items_of};
ghost use Rattle.nv_cell.specs.Index.{bindings_of, ref_of};
ghost use Rattle.nv_cell.specs.Marks.{is_current, mark_at};
ghost use Rattle.nv_cell.specs.Numbers.{AreEnds, HasRoomFor, killed_numbers, killed_part, numbers_in, part_base, published_mark};
ghost use Rattle.nv_cell.specs.Weights.{page_runs_needed, weights_in};
ghost use Rattle.nv_cell.specs.Tallies.{AreRuns, AreTallied, HasSpare, SameCapacity, end_at};
ghost use Rattle.nv_cell.specs.declared.mark.Mark.TheVariants as mark;

use crate::effects::apply_all;
use crate::{CellIndex, KilledPart, Marks, NumberedPart};
use nv_alloc::Block;
use nv_entry::PartId;
use nv_log::Chain;

/// Adds the marks of the entries past the tail, all of them current.
fn add_all(marks: &mut Marks, chain: &Chain, tail: usize)
    requires tail { tail ≤ length chain.now.state.entries }
    requires counted { length marks.old.ends.items ≡ tail }
    requires len { length marks.old.marks.items ≡ part_base chain.now.state.entries tail }
    requires room { HasSpare marks.old (part_total chain.now.state.entries
        - part_base chain.now.state.entries tail) (length chain.now.state.entries - tail) }
    requires ended { (i : ℕ) → i < tail → end_at marks.old.ends.items i
        ≡ part_base chain.now.state.entries (i + 1) }
    requires tallied { AreTallied marks.old chain.now.state.ends }
    ensures counted { length marks.new.ends.items ≡ length chain.now.state.entries }
    ensures len { length marks.new.marks.items ≡ part_total chain.now.state.entries }
    ensures marks { (n : ℕ) → mark_at marks.new.marks.items n
        ≡ (if nat_lt n (part_base chain.now.state.entries tail) then mark_at marks.old.marks.items n
        else if nat_lt n (part_total chain.now.state.entries) then mark.Current else mark.Out) }
    ensures ended { (i : ℕ) → i < length chain.now.state.entries → end_at marks.new.ends.items i
        ≡ part_base chain.now.state.entries (i + 1) }
    ensures tallied { AreTallied marks.new chain.now.state.ends }
    ensures room { SameCapacity marks.old marks.new }
{
    for t in tail..chain.len() {
        let entry = chain.entry_at(t);
        marks.add(chain.ends(), entry.item.part_count() as usize);
    }
}

/// Brings index and marks from the entries before the tail up to all entries, and puts the parts on the list that
/// were current, or are newly published, and are not current after it, by number. Gives what was seen
/// ahead, as [`Marks::kill_all`] does.
pub fn take_effect(
    index: &mut CellIndex,
    numbers: &mut Vec<NumberedPart>,
    marks: &mut Marks,
    chain: &Chain,
    slots: &[Option<Block>],
    block: u64,
    tail: usize,
) -> usize
    requires block { 0 < block }
    requires tail { tail ≤ length chain.now.state.entries }
    requires counted { length marks.old.ends.items ≡ tail }
    requires len { length marks.old.marks.items ≡ part_base chain.now.state.entries tail }
    requires spare { HasSpare marks.old (part_total chain.now.state.entries
        - part_base chain.now.state.entries tail) (length chain.now.state.entries - tail) }
    requires ended { (i : ℕ) → i < tail → end_at marks.old.ends.items i
        ≡ part_base chain.now.state.entries (i + 1) }
    requires tallied { AreTallied marks.old chain.now.state.ends }
    requires current { (n : ℕ) → n < part_base chain.now.state.entries tail
        → is_current (mark_at marks.old.marks.items n)
        ≡ not (is_covered block (take tail chain.now.state.entries) n) }
    requires pages { sum_by page_runs_needed (items_of (drop tail chain.now.state.entries))
        ≤ index.old.pages.room }
    requires names { NamesReady (items_of (drop tail chain.now.state.entries)) index.old.names }
    requires scan { (key : Key) → ref_of index.old key
        ≡ scan_ref block (take tail chain.now.state.entries) key }
    requires bound { HaveSameBindings (bindings_of (take tail chain.now.state.entries))
        index.old.names.names }
    requires empty { numbers.old.items ≡ [] }
    requires room { HasRoomFor (weights_in block (take tail chain.now.state.entries)
        (items_of (drop tail chain.now.state.entries))) numbers.old }
    ensures scan { (key : Key) → ref_of index.new key ≡ scan_ref block chain.now.state.entries key }
    ensures bound { HaveSameBindings (bindings_of chain.now.state.entries) index.new.names.names }
    ensures counted { length marks.new.ends.items ≡ length chain.now.state.entries }
    ensures len { length marks.new.marks.items ≡ part_total chain.now.state.entries }
    ensures ended { (i : ℕ) → i < length chain.now.state.entries → end_at marks.new.ends.items i
        ≡ part_base chain.now.state.entries (i + 1) }
    ensures tallied { AreTallied marks.new chain.now.state.ends }
    ensures marks { (n : ℕ) → mark_at marks.new.marks.items n
        ≡ published_mark block chain.now.state.entries tail marks.old.marks.items n }
    ensures killed { numbers_in numbers.new.items
        ≡ killed_numbers block chain.now.state.entries tail }
    ensures few { vec_len numbers.new ≤ weights_in block (take tail chain.now.state.entries)
        (items_of (drop tail chain.now.state.entries)) }
    ensures room { SameCapacity marks.old marks.new }
    ensures capacity { vec_capacity numbers.new ≡ vec_capacity numbers.old }
    ensures runs { index.old.pages.room ≤ index.new.pages.room
        + sum_by page_runs_needed (items_of (drop tail chain.now.state.entries)) }
    ensures reserved { BindNone (items_of (drop tail chain.now.state.entries))
        → index.new.names.reserved ≡ index.old.names.reserved }
{
    let ends = chain.ends();
    add_all(marks, chain, tail);
    apply_all(index, numbers, chain, marks, block, tail);
    let ahead = marks.kill_all(ends, numbers, chain, slots);
    numbers.sort_unstable_by_key(|part| part.number);
    ahead
}

/// A part by its name, with its birth.
fn part_of(chain: &Chain, marks: &Marks, part: NumberedPart) -> KilledPart
    requires ends { AreEnds marks.now.ends.items chain.now.state.entries }
    requires counted { length marks.now.ends.items ≡ length chain.now.state.entries }
    requires runs { AreRuns marks.now.ends.items (part_total chain.now.state.entries) }
    requires ended { (i : ℕ) → i < length chain.now.state.entries → end_at marks.now.ends.items i
        ≡ part_base chain.now.state.entries (i + 1) }
    requires within { part.number < part_total chain.now.state.entries }
    ensures { Some result ≡ killed_part chain.now.state.entries part.number }
{
    let i = marks.entry_of(part);
    let entry = chain.entry_at(i);
    let place = (part.number - marks.first(i)) as u32;
    let part = entry.item.part_at(place).unwrap();
    KilledPart {
        part: PartId {
            entry: entry.id,
            part,
        },
        birth: entry.epoch,
    }
}

/// Puts these parts on the list by their names.
pub fn name_all(
    killed: &mut Vec<KilledPart>,
    numbers: &[NumberedPart],
    chain: &Chain,
    marks: &Marks,
)
    requires ends { AreEnds marks.now.ends.items chain.now.state.entries }
    requires counted { length marks.now.ends.items ≡ length chain.now.state.entries }
    requires runs { AreRuns marks.now.ends.items (part_total chain.now.state.entries) }
    requires ended { (i : ℕ) → i < length chain.now.state.entries → end_at marks.now.ends.items i
        ≡ part_base chain.now.state.entries (i + 1) }
    requires within { (i d : ℕ) → i < length numbers.now
        → slice_index_or (numbers_in numbers.now) i d < part_total chain.now.state.entries }
    requires empty { killed.old.items ≡ [] }
    requires room { length numbers.now ≤ vec_capacity killed.old }
    ensures { map Some killed.new.items
        ≡ map (killed_part chain.now.state.entries) (numbers_in numbers.now) }
{
    for part in numbers {
        killed.push_reserved(part_of(chain, marks, *part));
    }
}
