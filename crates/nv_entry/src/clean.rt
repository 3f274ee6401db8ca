//! Which entries a cleaner may remove.

ghost use Rattle.std.specs.Prelude.{◌≡◌, ◌<◌, ◌↔◌, IsTrue};
ghost use Rattle.std.specs.List.{list_any};
ghost use Rattle.nv_entry.specs.Clean.{IsDroppable, covers_from, hides, is_droppable};
ghost use Rattle.nv_entry.specs.Held.{retention_of};
ghost use Rattle.nv_entry.specs.declared.item.Entry.{Entry};

use crate::{Entry, Item, Key, Retention, is_kept};
use nv_base::limits::FILE_PAGES;

/// Whether a cleaner may remove an entry: it is not the last of its log, none of its pairs is current, held
/// by a snapshot or pending, and no earlier entry covers a key that it sets to absent. `before` are the
/// earlier entries that are still in the log, and `later` those behind the entry.
pub fn is_droppable(
    retention: &Retention<'_>,
    before: &[Entry],
    entry: &Entry,
    later: &[Entry],
) -> bool
    // Which entries a cleaner may remove is told: the test is the definition.
    ensures value { result
        ≡ is_droppable (retention_of retention.now) before.now entry.now later.now }
    // The last entry is not droppable.
    // An entry that is kept is not droppable.
    // An entry that hides an earlier one is not droppable.
    ensures meaning { IsTrue result
        ↔ IsDroppable (retention_of retention.now) before.now entry.now later.now }
{
    passes_test(retention, before, entry, later)
}

fn passes_test(retention: &Retention<'_>, before: &[Entry], entry: &Entry, later: &[Entry]) -> bool
    ensures { result ≡ is_droppable (retention_of retention.now) before.now entry.now later.now }
{
    !later.is_empty()
        && !is_kept(retention, entry, later)
        && !hides_any(retention.block, &entry.item, before)
}

fn hides_any(block: u64, item: &Item, before: &[Entry]) -> bool
    requires { 0 < block }
    ensures { result
        ≡ list_any (λ (earlier : Entry). hides block item.now earlier.item) before.now }
{
    before
        .iter()
        .any(|earlier| hides(block, item, &earlier.item))
}

/// Whether the item sets a key to absent that the earlier item covers.
pub fn hides(block: u64, item: &Item, earlier: &Item) -> bool
    requires { 0 < block }
    // Whether an item sets a key to absent that an earlier item covers is told.
    ensures { result ≡ hides block item.now earlier.now }
{
    match item {
        Item::SetSize { size } => covers_from(block, size.div_ceil(block), earlier),
        Item::Unbind { name } => earlier.covers(block, Key::Name(name.bytes())),
        Item::Gone => true,
        Item::Init { .. } | Item::Write { .. } | Item::SetMode { .. } | Item::Bind { .. } => false,
    }
}

/// Whether the item covers a page that a file can have, from this one on.
fn covers_from(block: u64, page: u64, item: &Item) -> bool
    requires { 0 < block }
    ensures { result ≡ covers_from block page item.now }
{
    let end = u64::from(FILE_PAGES);
    match item {
        Item::Write { first, run, .. } => {
            let first = u64::from(*first);
            page.max(first) < end.min(first + u64::from(run.len))
        }
        Item::SetSize { size } => page.max(size.div_ceil(block)) < end,
        Item::Gone => page < end,
        Item::Init { .. } | Item::SetMode { .. } | Item::Bind { .. } | Item::Unbind { .. } => false,
    }
}
