//! The parts of an entry: the keys that it sets to a value.

ghost use Rattle.std.specs.Prelude.{◌≡◌, ◌≤◌, IsSome, drop, length, slice_get};
ghost use Rattle.std.specs.Iterator.{YieldsFirst, item_count};
ghost use Rattle.nv_base.specs.declared.limits.TheConstants.{FILE_PAGES};
ghost use Rattle.nv_entry.specs.Keys.{key_named, key_of, name_of, parts_of};
ghost use Rattle.nv_entry.specs.Parts.{parts_left};

use crate::{Entry, Item, Key};
use nv_base::EntryId;
use nv_base::limits::FILE_PAGES;

/// A key that an entry sets to a value. `Bound` is the name that a `Bind` binds, `Page` a page of a
/// `Write`.
#[derive(Clone, Copy, Debug, PartialEq, Eq)]
pub enum Part {
    Kind,
    Mode,
    Size,
    Bound,
    Page(u32),
}

/// What names a pair of an entry and one of its parts, within one log.
#[derive(Clone, Copy, Debug, PartialEq, Eq)]
pub struct PartId {
    pub entry: EntryId,
    pub part: Part,
}

/// The parts of an entry that are left to go over, in order.
#[derive(Debug, Drop)]
pub struct Parts<'a> {
    item: &'a Item,
    next: u32,
}

impl<'a> Iterator for Parts<'a> {
    type Item = Part;

    ghost next_gives = { YieldsFirst (λ s. drop s.next (parts_of s.item.now)) };

    ghost remaining = { item_count (λ s. drop s.next (parts_of s.item.now)) };

    fn next(&mut self) -> Option<Part> {
        match self.item.part_at(self.next) {
            None => None,
            Some(part) => {
                self.next += 1;
                Some(part)
            }
        }
    }
}

impl Entry {
    /// The parts of the entry in order: kind, mode, size, name, pages rising.
    pub fn parts(&self) -> Parts<'_>
        // The parts of an entry are the keys that it sets to a value, by kind, mode, size, name, rising pages.
        ensures { parts_left result ≡ parts_of self.now.item }
    {
        Parts {
            item: &self.item,
            next: 0,
        }
    }
}

impl Item {
    /// How many parts an entry with the item has.
    pub fn part_count(&self) -> u32
        // How many parts an item has, the name that it binds, and its parts one by one, are told.
        ensures { result ≡ length (parts_of self.now) }
    {
        match self {
            Item::Init { .. } => 3,
            Item::Write { first, run, .. } => 1 + run.len.min(FILE_PAGES.saturating_sub(*first)),
            Item::SetSize { .. } | Item::SetMode { .. } | Item::Bind { .. } => 1,
            Item::Unbind { .. } | Item::Gone => 0,
        }
    }

    /// The part at a place among those of an entry with the item, from 0.
    pub fn part_at(&self, place: u32) -> Option<Part>
        ensures value { result ≡ slice_get (parts_of self.now) place }
        ensures bound { IsSome result → place ≤ FILE_PAGES }
    {
        if place >= self.part_count() {
            return None;
        }
        match self {
            Item::Init { .. } => match place {
                0 => Some(Part::Kind),
                1 => Some(Part::Mode),
                _ => Some(Part::Size),
            },
            Item::Write { first, .. } if place > 0 => Some(Part::Page(*first + (place - 1))),
            Item::Write { .. } | Item::SetSize { .. } => Some(Part::Size),
            Item::SetMode { .. } => Some(Part::Mode),
            Item::Bind { .. } => Some(Part::Bound),
            Item::Unbind { .. } | Item::Gone => None,
        }
    }

    /// The name that the item speaks of; no bytes where it speaks of none.
    pub fn name(&self) -> &[u8]
        ensures { result.now ≡ name_of self.now }
    {
        match self {
            Item::Bind { name, .. } | Item::Unbind { name } => name.bytes(),
            Item::Init { .. }
            | Item::Write { .. }
            | Item::SetSize { .. }
            | Item::SetMode { .. }
            | Item::Gone => &[],
        }
    }

    /// The key of a part of an entry with the item.
    pub fn part_key(&self, part: Part) -> Key<'_>
        // The key of a part is told.
        ensures { key_named result ≡ key_of self.now part }
    {
        match part {
            Part::Kind => Key::Kind,
            Part::Mode => Key::Mode,
            Part::Size => Key::Size,
            Part::Bound => Key::Name(self.name()),
            Part::Page(page) => Key::Page(page),
        }
    }
}
