//! The entries past the tail take effect on the index.

ghost use Rattle.std.specs.Prelude.{◌≡◌, ℕ, ◌+◌, ◌-◌, ◌<◌, ◌≤◌, if◌then◌else◌, drop, length, take, vec_capacity, vec_len};
ghost use Rattle.std.specs.List.{sum_by};
ghost use Rattle.nv_entry.specs.Keys.{Key};
ghost use Rattle.nv_entry.specs.Log.{IsLog};
ghost use Rattle.nv_entry.specs.Refs.{scan_ref};
ghost use Rattle.nv_cell.specs.Effects.{BindNone, NamesReady, items_of};
ghost use Rattle.nv_nindex.specs.NameIndex.{HaveSameBindings};
ghost use Rattle.nv_cell.specs.Index.{bindings_of, ref_of};
ghost use Rattle.nv_cell.specs.Numbers.{AreEnds, HasRoomFor, dies, numbers_in, times};
ghost use Rattle.nv_cell.specs.Weights.{page_runs_needed, weights_in};

use crate::kills::push_covered;
use crate::{CellIndex, Marks, NumberedPart};
use nv_log::Chain;

/// Brings the index from the entries before the tail up to all entries, and puts the parts on the list that were
/// current, or are newly published, and are not current after it.
pub fn apply_all(
    index: &mut CellIndex,
    killed: &mut Vec<NumberedPart>,
    chain: &Chain,
    marks: &Marks,
    block: u64,
    tail: usize,
)
    requires block { 0 < block }
    requires tail { tail ≤ length chain.now.state.entries }
    requires rising { IsLog chain.now.state.entries }
    requires ends { AreEnds marks.now.ends.items chain.now.state.entries }
    requires pages { sum_by page_runs_needed (items_of (drop tail chain.now.state.entries))
        ≤ index.old.pages.room }
    requires names { NamesReady (items_of (drop tail chain.now.state.entries)) index.old.names }
    requires scan { (key : Key) → ref_of index.old key
        ≡ scan_ref block (take tail chain.now.state.entries) key }
    requires bound { HaveSameBindings (bindings_of (take tail chain.now.state.entries))
        index.old.names.names }
    requires room { HasRoomFor (weights_in block (take tail chain.now.state.entries)
        (items_of (drop tail chain.now.state.entries))) killed.old }
    ensures scan { (key : Key) → ref_of index.new key ≡ scan_ref block chain.now.state.entries key }
    ensures bound { HaveSameBindings (bindings_of chain.now.state.entries) index.new.names.names }
    ensures killed { (n : ℕ) → times n (numbers_in killed.new.items)
        ≡ times n (numbers_in killed.old.items)
        + (if dies block chain.now.state.entries tail n then 1 else 0) }
    ensures len { vec_len killed.new ≤ vec_len killed.old
        + weights_in block (take tail chain.now.state.entries)
        (items_of (drop tail chain.now.state.entries)) }
    ensures capacity { vec_capacity killed.new ≡ vec_capacity killed.old }
    ensures room { index.old.pages.room ≤ index.new.pages.room
        + sum_by page_runs_needed (items_of (drop tail chain.now.state.entries)) }
    ensures reserved { BindNone (items_of (drop tail chain.now.state.entries))
        → index.new.names.reserved ≡ index.old.names.reserved }
{
    for t in tail..chain.len() {
        let entry = chain.entry_at(t);
        index.tells_names_apart();
        let place = push_covered(killed, chain, marks, index, block, &entry.item);
        index.put(block, entry, place);
    }
}
