//! The numbers of the living snapshots, one after another.

ghost use Rattle.std.specs.Prelude.{◌≡◌};
ghost use Rattle.std.specs.Iterator.{YieldsFirst, item_count};
ghost use Rattle.nv_epoch.specs.SnapList.{numbers};

use crate::Snapshot;
use nv_base::Epoch;
use std::marker::Model;

/// The numbers of living snapshots, oldest first. Contracts see the list of those that are left.
/// The numbers of the snapshots are given one by one, oldest first.
#[derive(Debug, Drop)]
pub struct Ids<'a> {
    left: &'a [Snapshot],
}

impl<'a> Model for Ids<'a> {
    ghost use Rattle.std.specs.Prelude.{List, ℕ};
    ghost use Rattle.nv_epoch.specs.SnapList.{numbers};

    ghost Value = { List ℕ };

    ghost view = { λ ids. numbers ids.left.now };
}

impl<'a> Ids<'a> {
    pub(crate) fn new(living: &'a [Snapshot]) -> Ids<'a>
        ensures { result ≡ numbers living.now }
    {
        Ids { left: living }
    }
}

impl Iterator for Ids<'_> {
    type Item = Epoch;

    ghost next_gives = { YieldsFirst (λ ids. ids) };

    ghost remaining = { item_count (λ ids. ids) };

    fn next(&mut self) -> Option<Epoch> {
        let (first, others) = self.left.split_first()?;
        self.left = others;
        Some(first.number)
    }
}
