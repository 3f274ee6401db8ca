//! Which part of which entry holds a key, from scratch.

ghost use Rattle.std.specs.Prelude.{◌≡◌, ◌<◌};
ghost use Rattle.nv_entry.specs.Keys.{IsFileKey, key_named};
ghost use Rattle.nv_entry.specs.Refs.{place_in, ref_after, scan_ref};

use crate::{Entry, Item, Key, Setting};
use nv_base::EntryId;

/// A part of an entry of a log, by its place among the entry's parts, from 0. The size of a `Write` is its part 0,
/// so that the first page of its run is part 1.
#[derive(Clone, Copy, Debug, PartialEq, Eq)]
pub struct PartRef {
    pub entry: EntryId,
    pub place: u32,
}

/// The part that holds a key now: the key's part of the last entry that covers it, if that sets it to a value.
/// Costs one pass over the log.
/// Only tested: the part that holds a key is found in one scan.
pub fn current_part(block: u64, log: &[Entry], key: Key<'_>) -> Option<PartRef>
    requires { 0 < block }
    // The part that holds a key is told.
    ensures { result ≡ scan_ref block log.now (key_named key.entry) }
{
    let mut part = None;
    for entry in log {
        part = ref_after(block, entry, key, part);
    }
    part
}

/// The part that holds a key after one more entry.
fn ref_after(block: u64, entry: &Entry, key: Key<'_>, before: Option<PartRef>) -> Option<PartRef>
    requires { 0 < block }
    ensures { result ≡ ref_after block entry.now (key_named key.entry) before }
{
    match entry.item.setting(block, key) {
        Setting::Untouched => before,
        Setting::Absent => None,
        Setting::Present(_) => Some(PartRef {
            entry: entry.id,
            place: entry.item.place_of(key),
        }),
    }
}

impl Item {
    /// The place of a key among the parts of an entry that sets it to a value, from 0.
    pub fn place_of(&self, key: Key<'_>) -> u32
        requires { IsFileKey (key_named key) }
        // The place of a key that the item sets to a value, among the item's parts, is told.
        ensures { result ≡ place_in self.now (key_named key.entry) }
    {
        match self {
            Item::Init { .. } => match key {
                Key::Mode => 1,
                Key::Size => 2,
                _ => 0,
            },
            Item::Write { first, .. } => match key {
                Key::Page(page) => page.saturating_sub(*first) + 1,
                _ => 0,
            },
            _ => 0,
        }
    }
}
