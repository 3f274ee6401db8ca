//! Which entries may go. None of these takes memory.

ghost use Rattle.std.specs.Prelude.{◌≡◌, ◌-◌, ◌<◌, ◌↔◌, IsTrue, length, slice_index_or, take, true};
ghost use Rattle.std.specs.List.{list_any};
ghost use Rattle.nv_entry.specs.Clean.{hides, select};
ghost use Rattle.nv_entry.specs.declared.item.Entry.{Entry};
ghost use Rattle.nv_log.specs.Chain.{log};
ghost use Rattle.nv_cell.specs.Removal.{AreFlags, ArePublished, MayGo, flags_of, log_flags};

use crate::{InodeCell, Stays};
use nv_entry::{Item, hides};
use nv_log::Chain;

impl InodeCell {
    /// Whether the entries of the log may go that are not flagged as staying, a flag for each. The time is linear in
    /// the entries, and for each that goes that of the entries before it.
    /// Only tested: neither test takes memory; the time that it takes.
    pub fn may_go(&self, stays: &[bool]) -> bool
        requires flags { length stays.now ≡ self.now.state.chain.tail }
        // Whether entries may go is told: their parts must be out.
        // Neither the last entry may go, nor one that hides an earlier one.
        ensures { IsTrue result ↔ MayGo stays.now self.now.state }
    {
        may_go(self, Stays::Entries(stays))
    }

    /// Whether the pages with entries may go that are not flagged as staying, a flag for each: they end at the tail or
    /// before it, and their entries may go. The time is as that of [`InodeCell::may_go`].
    pub fn pages_may_go(&self, stays: &[bool]) -> bool
        requires flags { length stays.now ≡ length self.now.state.chain.ends }
        // Whether whole log pages may go is told.
        ensures { IsTrue result ↔ (ArePublished stays.now self.now.state.chain
            × MayGo (log_flags stays.now self.now.state.chain) self.now.state) }
    {
        are_published(&self.chain, stays) && may_go(self, Stays::Pages(stays))
    }
}

/// Whether the pages that go end at the tail or before it.
fn are_published(chain: &Chain, stays: &[bool]) -> bool
    ensures { IsTrue result ↔ ArePublished stays.now chain.now.state }
{
    for k in 0..stays.len() {
        if !stays[k] && chain.page_end(k) > chain.tail() {
            return false;
        }
    }
    true
}

/// Whether an item sets a key to absent that an entry before a place covers, of those that stay.
fn hides_left(block: u64, item: &Item, chain: &Chain, stays: Stays<'_>, place: usize) -> bool
    requires block { 0 < block }
    requires flags { AreFlags stays chain.now.state }
    requires place { place < chain.now.state.tail }
    ensures { result ≡ list_any (λ (earlier : Entry). hides block item.now earlier.item)
        (select (take place (flags_of stays.entry chain.now.state)) (log chain.now.state)) }
{
    chain.holds_together();
    for i in 0..place {
        let earlier = &chain.entry_at(i).item;
        if stays.at(chain, i) && hides(block, item, earlier) {
            return true;
        }
    }
    false
}

/// Whether the last entry stays.
fn leaves_last(chain: &Chain, stays: Stays<'_>) -> bool
    requires { AreFlags stays chain.now.state }
    ensures { result ≡ slice_index_or (flags_of stays.entry chain.now.state)
        (length (log chain.now.state) - 1) true }
{
    chain.holds_together();
    let tail = chain.tail();
    tail == 0 || stays.at(chain, tail - 1)
}

/// Whether the entries may go that do not stay.
fn may_go(cell: &InodeCell, stays: Stays<'_>) -> bool
    requires { AreFlags stays cell.now.state.chain }
    ensures { IsTrue result ↔ MayGo (flags_of stays.entry cell.now.state.chain) cell.now.state }
{
    let chain = &cell.chain;
    chain.holds_together();
    for i in 0..chain.tail() {
        let goes = !stays.at(chain, i);
        let item = &chain.entry_at(i).item;
        if goes && (cell.marks.has_there(i) || hides_left(cell.block, item, chain, stays, i)) {
            return false;
        }
    }
    leaves_last(chain, stays)
}
