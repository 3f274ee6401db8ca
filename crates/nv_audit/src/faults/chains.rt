//! The fault `chain`: entries that don't stand on the pages of their log.

ghost use Rattle.std.specs.Prelude.{◌↔◌, ◌+◌, ◌<◌, ◌≤◌, All, IsTrue, length};
ghost use Rattle.nv_log.specs.Chain.{AreEnds};
ghost use Rattle.nv_log.specs.Image.{IsPaged};
ghost use Rattle.nv_audit.specs.Faults.{AreChainsGood};
ghost use Rattle.nv_audit.specs.Image.{SlotImageValue};

use crate::{Image, SlotImage};
use nv_log::ChainImage;

/// Whether the entries of each slot stand on its pages. Costs a look at each page.
pub(crate) fn are_chains_good(image: &Image) -> bool
    ensures { IsTrue result ↔ AreChainsGood image.now }
{
    are_paged(image.geometry.numbers.page, &image.slots)
}

fn are_paged(page: u64, slots: &[SlotImage]) -> bool
    ensures { IsTrue result ↔ All (λ (slot : SlotImageValue). IsPaged page slot.chain) slots.now }
{
    for slot in slots {
        if !has_its_pages(page, slot) {
            return false;
        }
    }
    true
}

/// Whether the entries of a slot stand on its pages.
fn has_its_pages(page: u64, slot: &SlotImage) -> bool
    ensures { IsTrue result ↔ IsPaged page slot.now.chain }
{
    is_paged(page, &slot.chain)
}

/// Whether the entries of a chain stand on its pages, where a page holds `page`.
fn is_paged(page: u64, chain: &ChainImage) -> bool
    ensures { IsTrue result ↔ IsPaged page chain.now }
{
    are_parted(page, chain) && are_within(chain)
}

/// Whether the pages with entries part all entries.
fn are_parted(page: u64, chain: &ChainImage) -> bool
    ensures { IsTrue result ↔ AreEnds page 0 chain.now.ends (length chain.now.entries) }
{
    are_ends(page, &chain.ends, chain.entries.len())
}

/// Whether there are so many pages at least, and the tail is not past the entries.
fn are_within(chain: &ChainImage) -> bool
    ensures { IsTrue result ↔ ((length chain.now.ends ≤ length chain.now.pages)
        × (chain.now.tail ≤ length chain.now.entries)) }
{
    chain.ends.len() <= chain.pages.len() && chain.tail <= chain.entries.len()
}

/// Whether pages end there that have one to `page` entries each, and the last one where all `len` entries end.
fn are_ends(page: u64, ends: &[usize], len: usize) -> bool
    ensures { IsTrue result ↔ AreEnds page 0 ends.now len }
{
    let mut start = 0;
    for place in 0..ends.len() {
        let end = ends[place];
        if !is_end(page, start, end) {
            return false;
        }
        start = end;
    }
    start == len
}

/// Whether a page that begins at `start` may end there.
fn is_end(page: u64, start: usize, end: usize) -> bool
    ensures { IsTrue result ↔ ((start < end) × (end ≤ start + page)) }
{
    start < end && (end - start) as u64 <= page
}
