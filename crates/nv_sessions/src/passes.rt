//! Passes of the freshness cell, as values that contracts can read: what a session has seen, who owns an inode, and who
//! makes these.

ghost use Rattle.std.specs.Prelude.{◌≡◌, ℕ, ◌+◌, ◌≤◌, List, [], slice_index};
ghost use Rattle.crossbeam_utils.specs.Seq.{cell_view};
ghost use Rattle.nv_sessions.specs.Fresh.{greater, maker, only_at};

use crate::fresh::{FreshCell, FreshPass, Meet, NextOwner, OwnerNote, Raise, SeenNote};
use crate::names::Commits;
use std::marker::{Model, PhantomData};
use std::sync::Wait;

/// The freshness cell of a service.
#[derive(Drop)]
pub struct Fresh<C: Commits> {
    cell: FreshCell,
    of: PhantomData<C>,
    ghost named: { cell.table.shared.table_id ≡ C.table },
}

impl<C: Commits> Fresh<C> {
    /// The cell of a service with its first pass, which makes all others.
    pub fn named(cell: FreshCell, pass: FreshPass) -> (Fresh<C>, Maker<C>)
        requires cell { cell.table.shared.table_id ≡ C.table }
        requires pass { (pass.table_id ≡ C.table) × (cell_view pass ≡ maker 0) }
        ensures { result.1 ≡ 0 }
    {
        (
            Fresh {
                cell,
                of: PhantomData,
            },
            Maker {
                pass,
                of: PhantomData,
            },
        )
    }
}

/// The versions that were seen since the opening, by inode: of each how many commits came after the opening.
#[derive(Drop)]
pub struct Notes<C: Commits> {
    pass: FreshPass,
    of: PhantomData<C>,
}

impl<C: Commits> Model for Notes<C> {
    ghost use Rattle.std.specs.Prelude.{◌≡◌, ℕ, List};
    ghost use Rattle.crossbeam_utils.specs.Seq.{cell_view};
    ghost use Rattle.nv_sessions.specs.Fresh.{seer};

    ghost Value = { List ℕ };

    ghost view = { λ s. (cell_view s.pass).seen };

    ghost invariant = { λ s. (s.pass.table_id ≡ C.table)
        × (cell_view s.pass ≡ seer (cell_view s.pass).seen) };
}

impl<C: Commits> Notes<C> {
    /// Takes in what another has seen.
    pub fn join(&mut self, fresh: &Fresh<C>, mut other: Notes<C>)
        ensures mine { (i : ℕ) → slice_index self.old i ≤ slice_index self.new i }
        ensures other { (i : ℕ) → slice_index other i ≤ slice_index self.new i }
    {
        let note = fresh.cell.split_pass::<SeenNote>(&mut other.pass);
        fresh.cell.join_pass::<SeenNote>(&mut self.pass, note);
    }
}

/// The one pass that owns an inode, at its version since the opening.
#[derive(Drop)]
pub struct Owner<C: Commits> {
    pass: FreshPass,
    of: PhantomData<C>,
}

impl<C: Commits> Model for Owner<C> {
    ghost use Rattle.std.specs.Prelude.{◌≡◌, []};
    ghost use Rattle.crossbeam_utils.specs.Seq.{cell_view};
    ghost use Rattle.nv_sessions.specs.Fresh.{Owned, owner};

    ghost Value = { Owned };

    ghost view = { λ s. record {
      ino = (cell_view s.pass).ino;
      version = (cell_view s.pass).version;
    } };

    // The pass is of the service's freshness cell, and of its own kind.
    ghost invariant = { λ s. (s.pass.table_id ≡ C.table)
        × (cell_view s.pass ≡ owner (cell_view s.pass).ino (cell_view s.pass).version []) };
}

impl<C: Commits> Owner<C> {
    ghost use Rattle.nv_sessions.specs.Fresh.{Owned};

    /// Raises the version by one.
    pub fn raise<R: Wait>(&mut self, rt: &R, fresh: &Fresh<C>)
        ensures { self.new ≡ record self.old { version = self.old.version + 1 } }
    {
        fresh.cell.load_as::<Raise, R>(rt, &mut self.pass);
    }

    /// Nobody has seen more of the inode than the version.
    pub fn check_seen<R: Wait>(&mut self, rt: &R, fresh: &Fresh<C>, seen: &mut Notes<C>)
        ensures owner { self.new ≡ self.old }
        ensures seen { seen.new ≡ seen.old }
        // Nobody has seen more of an inode than its owner's version.
        ensures met { slice_index seen.old self.old.ino ≤ self.old.version }
    {
        let note = fresh.cell.split_pass::<SeenNote>(&mut seen.pass);
        fresh.cell.join_pass::<OwnerNote>(&mut self.pass, note);
        fresh.cell.load_as::<Meet, R>(rt, &mut self.pass);
    }

    /// Tells the version: it is seen from here on.
    pub fn note_seen(&mut self, fresh: &Fresh<C>, seen: &mut Notes<C>)
        ensures owner { self.new ≡ self.old }
        // A version that is told is seen from then on.
        ensures seen { seen.new ≡ greater seen.old (only_at self.old.ino self.old.version) }
    {
        let note = fresh.cell.split_pass::<OwnerNote>(&mut self.pass);
        fresh.cell.join_pass::<SeenNote>(&mut seen.pass, note);
    }
}

/// The pass that makes owners and notes. Contracts see how many owners it has made.
#[derive(Drop)]
pub struct Maker<C: Commits> {
    pass: FreshPass,
    of: PhantomData<C>,
}

impl<C: Commits> Model for Maker<C> {
    ghost use Rattle.std.specs.Prelude.{◌≡◌, ℕ};
    ghost use Rattle.crossbeam_utils.specs.Seq.{cell_view};
    ghost use Rattle.nv_sessions.specs.Fresh.{maker};

    ghost Value = { ℕ };

    ghost view = { λ s. (cell_view s.pass).made };

    ghost invariant = { λ s. (s.pass.table_id ≡ C.table)
        × (cell_view s.pass ≡ maker (cell_view s.pass).made) };
}

impl<C: Commits> Maker<C> {
    ghost use Rattle.nv_sessions.specs.Fresh.{Owned};

    /// The owner of the next inode, at the version of the opening.
    pub fn owner(&mut self, fresh: &Fresh<C>) -> Owner<C>
        ensures next { self.new ≡ self.old + 1 }
        ensures owner { result ≡ record { ino = self.old; version = 0 } }
    {
        let pass = fresh.cell.split_pass::<NextOwner>(&mut self.pass);
        Owner {
            pass,
            of: PhantomData,
        }
    }

    /// Notes of one who has seen nothing since the opening.
    pub fn seen(&mut self, fresh: &Fresh<C>) -> Notes<C>
        ensures next { self.new ≡ self.old }
        ensures seen { result ≡ [] }
    {
        let pass = fresh.cell.split_pass::<SeenNote>(&mut self.pass);
        Notes {
            pass,
            of: PhantomData,
        }
    }
}
