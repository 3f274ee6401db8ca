//! What stays in a log, by entries or by pages.

ghost use Rattle.std.specs.Prelude.{◌≡◌, ◌<◌, slice_index_or};
ghost use Rattle.nv_cell.specs.Removal.{AreFlags, flags_of};

use crate::marks::page_of;
use nv_log::Chain;

/// Flags of what stays in a log: one for each of its entries, or one for each page with entries.
#[derive(Clone, Copy, Debug)]
pub enum Stays<'a> {
    Entries(&'a [bool]),
    Pages(&'a [bool]),
}

impl Stays<'_> {
    /// Whether the entry at a place stays. The search for its page begins where it stands if all pages before are full.
    pub fn at(self, chain: &Chain, place: usize) -> bool
        requires flags { AreFlags self chain.now.state }
        requires place { place < chain.now.state.tail }
        ensures { result ≡ slice_index_or (flags_of self.entry chain.now.state) place result }
    {
        // The chain is one, so that each of its entries has a page.
        let ends = chain.ends();
        match self {
            Stays::Entries(stays) => stays[place],
            Stays::Pages(stays) => stays[page_of(ends, place)],
        }
    }
}
