//! Pairs of an entry and a part, and which of them are current, held by a snapshot, and needed.

ghost use Rattle.std.specs.Prelude.{◌≡◌, ◌<◌, length, slice_get, slice_index_or};
ghost use Rattle.nv_entry.specs.Counts.{is_entry_kept};
ghost use Rattle.nv_entry.specs.Held.{has_name, holds, is_current, is_held, is_named, is_needed, keeps, retention_of};
ghost use Rattle.nv_entry.specs.Keys.{key_of, parts_of};
ghost use Rattle.nv_entry.specs.Log.{first_cover, pair_of, pairs_of};

use crate::{Entry, Part, PartId, Retention, When, first_cover};
use nv_base::{EntryId, Epoch};

/// A part of an entry, with its birth and its death: it is the value of its key from the one epoch on, and
/// before the other. A pair without a death is current.
#[derive(Clone, Copy, Debug, PartialEq, Eq)]
pub struct Pair {
    pub entry: EntryId,
    pub part: Part,
    pub birth: Epoch,
    pub death: Option<Epoch>,
}

impl Pair {
    /// The pair of an entry's part at a place among its parts, from 0; none past them. `later` are the
    /// entries of the log behind the entry.
    pub fn at(block: u64, entry: &Entry, later: &[Entry], place: u32) -> Option<Pair>
        requires { 0 < block }
        // A pair's death is the epoch of the first later entry that covers its key.
        ensures { result ≡ slice_get (pairs_of block entry.now later.now) place }
    {
        let part = entry.item.part_at(place)?;
        Some(Pair::of(block, entry, later, part))
    }

    fn of(block: u64, entry: &Entry, later: &[Entry], part: Part) -> Pair
        requires { 0 < block }
        ensures { result ≡ pair_of block entry.now later.now part }
    {
        Pair {
            entry: entry.id,
            part,
            birth: entry.epoch,
            death: first_cover(block, When::Now, later, entry.item.part_key(part)),
        }
    }

    /// Whether no later entry covers its key.
    pub fn is_current(&self) -> bool
        // Whether a pair is current, held by a living snapshot, or named, is told.
        ensures { result ≡ is_current self.now }
    {
        self.death.is_none()
    }

    /// Whether one of these snapshots holds it: it was born by then and had not died.
    pub fn is_held(&self, snapshots: &[Epoch]) -> bool
        ensures { result ≡ is_held snapshots.now self.now }
    {
        snapshots.iter().any(|snapshot| self.lives_at(*snapshot))
    }

    /// Whether it is current or one of these snapshots holds it.
    pub fn is_needed(&self, snapshots: &[Epoch]) -> bool
        // A pair is needed exactly where it is current or a living snapshot holds it.
        // A snapshot holds a pair from its birth on and before its death.
        ensures { result ≡ is_needed snapshots.now self.now }
    {
        self.is_current() || self.is_held(snapshots)
    }

    /// Whether it is among the named ones.
    pub fn is_named(&self, named: &[PartId]) -> bool
        ensures { result ≡ is_named named.now self.now }
    {
        named.iter().any(|name| self.has_name(*name))
    }

    fn lives_at(&self, epoch: Epoch) -> bool
        ensures { result ≡ holds epoch self.now }
    {
        match self.death {
            None => self.birth <= epoch,
            Some(death) => self.birth <= epoch && epoch < death,
        }
    }

    fn has_name(&self, name: PartId) -> bool
        ensures { result ≡ has_name self.now name }
    {
        name.entry == self.entry && name.part == self.part
    }
}

/// Whether a pair of the entry is needed or pending. `later` are the entries of the log behind the entry.
pub fn is_kept(retention: &Retention<'_>, entry: &Entry, later: &[Entry]) -> bool
    // An entry is kept where a pair of it is needed or pending.
    ensures { result ≡ is_entry_kept (retention_of retention.now) entry.now later.now }
{
    for place in 0..entry.item.part_count() {
        if is_part_kept(retention, entry, later, place) {
            return true;
        }
    }
    false
}

/// Whether the pair of an entry's part at a place is needed or pending.
fn is_part_kept(retention: &Retention<'_>, entry: &Entry, later: &[Entry], place: u32) -> bool
    requires { place < length (parts_of entry.now.item) }
    ensures { result ≡ keeps (retention_of retention.now)
        (slice_index_or (pairs_of retention.now.block entry.now later.now) place
        (pair_of retention.now.block entry.now later.now Part.Kind)) }
{
    let part = entry.item.part_at(place).unwrap();
    let pair = Pair::of(retention.block, entry, later, part);
    pair.is_needed(retention.snapshots) || pair.is_named(retention.pending)
}
