//! Values of keys by a log, and when they died.

ghost use Rattle.std.specs.Prelude.{◌≡◌, ◌<◌};
ghost use Rattle.nv_entry.specs.Keys.{covers, key_named};
ghost use Rattle.nv_entry.specs.Log.{first_cover, last_setting, later_of, seen, sees, value_now, value_of};

use crate::{Datum, Entry, Item, Key, Setting};
use nv_base::Epoch;

/// At which time a log is looked at: now, or as it stood at the end of an epoch.
#[derive(Clone, Copy, Debug, PartialEq, Eq)]
pub enum When {
    Now,
    At(Epoch),
}

impl When {
    /// Whether an entry of that epoch counts.
    pub fn sees(&self, epoch: Epoch) -> bool
        // Whether an entry is seen now or at an epoch is told.
        ensures { result ≡ sees self.now epoch }
    {
        match self {
            When::Now => true,
            When::At(last) => epoch <= *last,
        }
    }
}

impl Setting {
    /// This setting and then a later one.
    pub fn then(self, later: Setting) -> Setting
        // The fields of a setting read as they are defined.
        ensures { result ≡ later_of self later }
    {
        match later {
            Setting::Untouched => self,
            Setting::Absent | Setting::Present(_) => later,
        }
    }

    /// The value that the setting leaves.
    pub fn value(self) -> Option<Datum>
        ensures { result ≡ value_of self }
    {
        match self {
            Setting::Untouched | Setting::Absent => None,
            Setting::Present(value) => Some(value),
        }
    }
}

impl Item {
    /// Whether the item sets the key, to a value or to absent.
    pub fn covers(&self, block: u64, key: Key<'_>) -> bool
        requires { 0 < block }
        // An item covers each key as its definition says.
        ensures { result ≡ covers block self.now (key_named key.entry) }
    {
        match self.setting(block, key) {
            Setting::Untouched => false,
            Setting::Absent | Setting::Present(_) => true,
        }
    }
}

/// The value of a key now or at an epoch.
pub fn value_when(block: u64, when: When, log: &[Entry], key: Key<'_>) -> Option<Datum>
    requires { 0 < block }
    ensures { result ≡ value_now block (seen when log.now) (key_named key.entry) }
{
    last_setting(block, when, log, key).value()
}

/// The epoch of the first of these entries that covers the key, of those that are seen. Of the entries
/// behind another one, it is the death of that one's pair.
pub fn first_cover(block: u64, when: When, later: &[Entry], key: Key<'_>) -> Option<Epoch>
    requires { 0 < block }
    // The first later entry that covers a key is found.
    ensures { result ≡ first_cover block (seen when later.now) (key_named key.entry) }
{
    for entry in later {
        if when.sees(entry.epoch) && entry.item.covers(block, key) {
            return Some(entry.epoch);
        }
    }
    None
}

fn last_setting(block: u64, when: When, log: &[Entry], key: Key<'_>) -> Setting
    requires { 0 < block }
    ensures { result ≡ last_setting block (seen when log.now) (key_named key.entry) }
{
    let mut last = Setting::Untouched;
    for entry in log {
        if when.sees(entry.epoch) {
            last = last.then(entry.item.setting(block, key));
        }
    }
    last
}
