//! What the walks of the cleaners find, which the cleanings are handed.

ghost use Rattle.std.specs.Prelude.{◌≡◌, ◌==◌};

use std::marker::Model;

/// What a thorough cleaning leaves of the log of a cell. That it is of the cell as it stands is a condition of the
/// cleaning.
#[derive(Debug, Drop)]
pub struct Wanted {
    pub(crate) stays: Vec<bool>,
    pub(crate) entries: usize,
    pub(crate) pages: usize,
    pub(crate) dropped: usize,
}

impl Model for Wanted {
    ghost use Rattle.nv_clean.specs.Plans.{WantedValue};

    ghost Value = { WantedValue };

    ghost view = { λ w. record {
      stays = w.stays.items;
      entries = w.entries;
      pages = w.pages;
      dropped = w.dropped;
    } };
}

impl Wanted {
    /// How many entries stay.
    pub fn entries(&self) -> usize
        ensures { result ≡ self.now.entries }
    {
        self.entries
    }

    /// How many pages these fill, which a cleaning takes.
    pub fn pages(&self) -> usize
        ensures { result ≡ self.now.pages }
    {
        self.pages
    }

    /// Whether all stay: nothing is droppable.
    pub fn is_all(&self) -> bool
        ensures { result ≡ (self.now.dropped == 0) }
    {
        self.dropped == 0
    }
}

/// What a fast cleaning unlinks from the log of a cell. That it is of the cell as it stands is a condition of the
/// cleaning.
#[derive(Debug, Drop)]
pub struct Unlinkable {
    pub(crate) stays: Vec<bool>,
    pub(crate) pages: u64,
    pub(crate) entries: usize,
}

impl Model for Unlinkable {
    ghost use Rattle.nv_clean.specs.Plans.{UnlinkableValue};

    ghost Value = { UnlinkableValue };

    ghost view = { λ u. record {
      stays = u.stays.items;
      pages = u.pages;
      entries = u.entries;
    } };
}

impl Unlinkable {
    /// How many pages go: a hand is to have room for them.
    pub fn pages(&self) -> u64
        ensures { result ≡ self.now.pages }
    {
        self.pages
    }

    /// How many entries these have, which the log loses.
    pub fn entries(&self) -> usize
        ensures { result ≡ self.now.entries }
    {
        self.entries
    }
}
