//! Room for what is to follow.

ghost use Rattle.std.specs.Prelude.{◌≡◌, ◌+◌, ◌-◌, ◌*◌, ◌<◌, ◌≤◌, ◌^◌, IsOk, OnErr, OnOk, length, max, min, take, vec_capacity, vec_len};
ghost use Rattle.std.specs.List.{sum_by};
ghost use Rattle.nv_base.specs.Refusals.{FailsOnly};
ghost use Rattle.nv_base.specs.Memory.{out_of_memory};
ghost use Rattle.nv_log.specs.Chain.{pages_for, room_of};
ghost use Rattle.nv_nindex.specs.NameIndex.{AreDistinct};
ghost use Rattle.nv_cell.specs.Cell.{log_of};
ghost use Rattle.nv_cell.specs.Effects.{BindOne, NamesReady};
ghost use Rattle.nv_cell.specs.Room.{AsksFor, HasGrown, HasNoLess, HaveGrown, IsReadyToAppend};
ghost use Rattle.nv_cell.specs.Tallies.{HasSpare};
ghost use Rattle.nv_cell.specs.Weights.{killed_at_most, parts_in, page_runs_needed, weights_by, weights_in};

use crate::grow::{LEAST_PARTS, grow};
use crate::needs::{most_killed, part_total};
use crate::{CellIndex, InodeCell, KilledPart, Marks, NumberedPart};
use nv_alloc::Block;
use nv_base::Fault;
use nv_entry::Item;
use nv_log::Chain;

impl InodeCell {
    /// Makes every growth of what follows for entries with these items: after it they can be appended and
    /// published without memory. No entry stands past the tail yet, and at most one of the items is a Bind, of a name
    /// that none before it takes out. The time is that of the items, and for each cut that of the runs of pages that it
    /// takes out, where no growth moves anything.
    ///
    /// `OutOfMemory` where room was missing and its growth refused: then nothing has changed but room. It makes room for
    /// no more pages, entries and parts than the items ask for; of killed parts it may make room for more.
    /// Room for killed parts is 3 for `Init`, and 1 and the block run's length for a write.
    /// Room for killed parts is 1 and the pages present from there on for a cut, 1 for a mode or a name.
    /// Room for killed parts is 3 and all pages and names for `Gone`.
    /// Only tested: the time that both take.
    pub fn ready(&mut self, items: &[Item]) -> Result<(), Fault>
        requires settled { self.old.state.chain.tail ≡ length self.old.state.chain.entries }
        requires one { BindOne items.now }
        // Making room changes nothing else, and no room falls.
        ensures state { self.new.state ≡ self.old.state }
        // Room made for items suffices to append entries with them and then to publish them.
        // Room is made in the index, and in the log.
        ensures ok { OnOk result (IsReadyToAppend items.now self.new) }
        // No more room is made for pages, entries and parts than asked for.
        ensures most { OnOk result (AsksFor items.now self.old self.new.room) }
        // A refusal is for want of memory alone, only where room was missing, and keeps the reserved name.
        ensures enough { IsReadyToAppend items.now self.old → IsOk result }
        ensures room { HasNoLess self.old.room self.new.room }
        ensures name { OnErr result (self.new.room.name ≡ self.old.room.name) }
        ensures err { FailsOnly out_of_memory result }
    {
        let parts = part_total(items);
        let killed = most_killed(&self.index, self.block, items);
        grow_lists(&mut self.numbers, &mut self.killed, killed)?;
        grow_log(
            &mut self.chain,
            &mut self.marks,
            &mut self.blocks,
            items.len(),
            parts,
        )?;
        self.index.reserve(items)?;
        self.entries = self.entries.max(items.len());
        self.parts = self.parts.max(parts);
        Ok(())
    }

    /// How many parts a publish of entries with these items behind the log kills at most, up to the greatest number:
    /// with at most one cut or Gone no more than are current, and twice those that are new. The time is that of the items, and for each cut that of the runs of pages that it takes out.
    pub fn most_killed(&self, items: &[Item]) -> usize
        // How many parts a publish of items kills at most is told before.
        ensures value { result
            ≡ min (weights_in self.now.state.block (log_of self.now.state) items.now) (2 ^ 64 - 1) }
        // Items that take nothing out kill no more parts than they set.
        // Each item that takes parts out kills no more than are current or set.
        ensures most { result
            ≤ killed_at_most self.now.state.block (log_of self.now.state) items.now }
    {
        most_killed(&self.index, self.block, items)
    }
}

/// Makes room for so many killed parts.
fn grow_lists(
    numbers: &mut Vec<NumberedPart>,
    killed: &mut Vec<KilledPart>,
    count: usize,
) -> Result<(), Fault>
    ensures numbers { HasGrown numbers.old numbers.new }
    ensures killed { HasGrown killed.old killed.new }
    ensures ok { OnOk result ((vec_len numbers.new + count ≤ vec_capacity numbers.new)
        × (vec_len killed.new + count ≤ vec_capacity killed.new)) }
    ensures counted { OnOk result (count < 2 ^ 63) }
    ensures enough { vec_len numbers.old + count ≤ vec_capacity numbers.old
        → vec_len killed.old + count ≤ vec_capacity killed.old → IsOk result }
    ensures err { FailsOnly out_of_memory result }
{
    numbers.reserve(count)?;
    killed.reserve(count)?;
    Ok(())
}

/// Makes room for so many entries and parts more, in the chain and in all that goes along with it.
fn grow_log(
    chain: &mut Chain,
    marks: &mut Marks,
    blocks: &mut Vec<Option<Block>>,
    entries: usize,
    parts: usize,
) -> Result<(), Fault>
    requires pages { length chain.old.state.blocks + chain.old.spare ≤ vec_capacity marks.old.pages }
    ensures chain { chain.new.state ≡ chain.old.state }
    ensures spare { chain.old.spare ≤ chain.new.spare }
    ensures marks { HaveGrown marks.old marks.new }
    ensures blocks { HasGrown blocks.old blocks.new }
    ensures pages { length chain.new.state.blocks + chain.new.spare ≤ vec_capacity marks.new.pages }
    ensures reserved { OnOk result (pages_for chain.new.state entries ≤ chain.new.spare) }
    ensures most { OnOk result (chain.new.spare
        ≡ max chain.old.spare (pages_for chain.old.state entries)) }
    ensures entries { OnOk result (entries
        ≤ room_of chain.new.state + chain.new.spare * chain.new.state.page) }
    ensures room { OnOk result (HasSpare marks.new parts entries) }
    ensures places { OnOk result (vec_len blocks.new + parts ≤ vec_capacity blocks.new) }
    ensures counted { OnOk result (parts < 2 ^ 63) }
    ensures enough { HasSpare marks.old parts entries
        → vec_len blocks.old + parts ≤ vec_capacity blocks.old
        → pages_for chain.old.state entries ≤ chain.old.spare → IsOk result }
    ensures err { FailsOnly out_of_memory result }
{
    let pages = chain.pages_for(entries);
    let all = chain.blocks().len().saturating_add(pages);
    marks.reserve(parts, entries, all)?;
    grow(blocks, parts, LEAST_PARTS)?;
    chain.reserve(pages)
}
