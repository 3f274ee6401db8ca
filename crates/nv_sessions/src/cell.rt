//! The place of an inode's cell under its lock.

ghost use Rattle.std.specs.Prelude.{◌≡◌, ◌≢◌, ◌+◌, ◌<◌, ◌≤◌, ◌↔◌, ℕ, IfSome, IsTrue, MatchOption, None, Some, slice_index};
ghost use Rattle.nv_cell.specs.Cell.{IsCell, block_total};
ghost use Rattle.nv_sessions.specs.Locked.{IsThere, cell_of, version_at, with_cell, without_cell};

use crate::beside::Beside;
use crate::exclusive::Exclusive;
use crate::names::{Blocks, Commits};
use crate::passes::Fresh;
use crate::seen_versions::SeenVersions;
use nv_base::Ino;
use nv_cell::InodeCell;
use std::marker::Model;
use std::mem;
use std::sync::Wait;
use std::sync::ledger::Share;

/// The place of a cell: the number of its inode, its version, the cell unless a call has it, and what lies beside it. Readers
/// share a place: nobody reaches what lies beside the cell except with the place to himself. It owns blocks, so it is no
/// `Drop`.
/// No older cell can be put behind a lock.
pub struct LockedCell<C: Commits, B: Blocks> {
    pub(crate) ino: Ino,
    pub(crate) version: u64,
    pub(crate) cell: Option<InodeCell>,
    pub(crate) beside: Option<Exclusive<Beside<C, B>>>,
}

impl<C: Commits, B: Blocks> Model for LockedCell<C, B> {
    ghost use Rattle.std.specs.Prelude.{◌≡◌};
    ghost use Rattle.nv_sessions.specs.Beside.{beside_of};
    ghost use Rattle.nv_sessions.specs.Locked.{IsAt, LockedValue, blocks_there, version_at};

    ghost Value = { LockedValue };

    ghost view = { λ l. record { ino = l.ino; version = l.version; cell = l.cell } };

    // The share of its blocks has one part and as many blocks as the cell, none where the cell is out.
    // The pass owns the inode whose number lies beside the cell, at the version of the place.
    // A cell that is there has that version.
    ghost invariant = { λ l. ((beside_of l.beside).parts ≡ 1)
        × ((beside_of l.beside).blocks ≡ blocks_there l.cell)
        × ((beside_of l.beside).owner.ino ≡ l.ino)
        × (l.version ≡ version_at C.opened l.ino (beside_of l.beside).owner.version)
        × IsAt l.version l.cell };
}

impl<C: Commits, B: Blocks> LockedCell<C, B> {
    /// The number of the inode.
    pub fn ino(&self) -> Ino
        ensures { result ≡ self.now.ino }
    {
        self.ino
    }

    /// The version.
    pub(crate) fn version(&self) -> u64
        ensures { result ≡ self.now.version }
    {
        self.version
    }

    /// The cell, if it is there. A call that has it keeps the guard, and no type says so of a lock.
    pub fn cell(&self) -> Option<&InodeCell>
        ensures cell { MatchOption result (self.now.cell ≡ None)
            (λ cell. self.now.cell ≡ Some cell.now) }
        // A cell that is there has the version of its place.
        ensures version { IfSome result (λ cell. cell.now.state.version ≡ self.now.version) }
    {
        match &self.cell {
            Some(cell) => Some(cell),
            None => None,
        }
    }

    /// Whether this is the place of an inode, and its cell is there.
    pub(crate) fn has_cell_of(&self, ino: Ino) -> bool
        ensures { IsTrue result ↔ ((self.now.ino ≡ ino) × IsThere self.now) }
    {
        self.ino == ino && self.cell.is_some()
    }

    /// The cell of a place that has it.
    pub(crate) fn part(&self) -> &InodeCell
        requires there { IsThere self.now }
        ensures cell { result.now ≡ cell_of self.now }
        ensures version { result.now.state.version ≡ self.now.version }
    {
        match &self.cell {
            Some(cell) => cell,
            None => unreachable!(),
        }
    }

    /// Compares notes with the place: they have no higher version of its inode than it has.
    pub(crate) fn check_seen<R: Wait>(
        &mut self,
        rt: &R,
        fresh: &Fresh<C>,
        seen: &mut SeenVersions<C>,
    )
        ensures place { self.new ≡ self.old }
        ensures seen { seen.new ≡ seen.old }
        ensures met { version_at C.opened self.old.ino (slice_index seen.old self.old.ino)
            ≤ self.old.version }
    {
        let mut beside = Beside::taken(&mut self.beside);
        seen.check(rt, fresh, &mut beside.owner);
        self.beside = beside.hidden();
    }

    /// Notes the version of the place, and nothing else new. The notes have no higher one, which `check_seen` tells.
    pub(crate) fn note_seen(&mut self, fresh: &Fresh<C>, seen: &mut SeenVersions<C>)
        requires { version_at C.opened self.old.ino (slice_index seen.old self.old.ino)
            ≤ self.old.version }
        ensures place { self.new ≡ self.old }
        ensures here { version_at C.opened self.old.ino (slice_index seen.new self.old.ino)
            ≡ self.old.version }
        ensures elsewhere { (i : ℕ) → i ≢ self.old.ino
            → slice_index seen.new i ≡ slice_index seen.old i }
    {
        let mut beside = Beside::taken(&mut self.beside);
        seen.note(fresh, &mut beside.owner, self.ino, self.version);
        self.beside = beside.hidden();
    }

    /// Takes the cell out, with the share of its blocks. The place is empty then.
    pub(crate) fn take(&mut self, mine: &mut Share<B>) -> InodeCell
        requires there { IsThere self.old }
        requires part { 0 < mine.old.parts }
        ensures cell { Some result ≡ self.old.cell }
        ensures left { self.new ≡ without_cell self.old }
        ensures whole { IsCell result.state }
        ensures version { result.state.version ≡ self.old.version }
        ensures parts { mine.new.parts ≡ mine.old.parts }
        // The share follows the cell.
        ensures amount { mine.new.amount ≡ mine.old.amount + block_total result.state }
    {
        match mem::take(&mut self.cell) {
            None => unreachable!(),
            Some(cell) => {
                cell.holds_together();
                let mut beside = Beside::taken(&mut self.beside);
                beside.blocks.transfer(mine, cell.blocks());
                self.beside = beside.hidden();
                cell
            }
        }
    }

    /// The pass follows a cell that is out to its next version.
    pub(crate) fn raise<R: Wait>(&mut self, rt: &R, fresh: &Fresh<C>, version: u64)
        requires out { self.old.cell ≡ None }
        requires next { version ≡ self.old.version + 1 }
        // A pass rises by one, and only while the cell is out.
        ensures { self.new ≡ record self.old { version = version } }
    {
        let mut beside = Beside::taken(&mut self.beside);
        beside.owner.raise(rt, fresh);
        self.beside = beside.hidden();
        self.version = version;
    }

    /// Puts a cell back into an empty place of its version. The share of its blocks goes with it.
    pub(crate) fn put(&mut self, cell: InodeCell, mine: &mut Share<B>)
        requires out { self.old.cell ≡ None }
        requires agree { cell.state.version ≡ self.old.version }
        requires part { 0 < mine.old.parts }
        requires enough { block_total cell.state ≤ mine.old.amount }
        ensures cell { self.new ≡ with_cell cell self.old }
        ensures parts { mine.new.parts ≡ mine.old.parts }
        ensures amount { mine.new.amount + block_total cell.state ≡ mine.old.amount }
    {
        let mut beside = Beside::taken(&mut self.beside);
        mine.transfer(&mut beside.blocks, cell.blocks());
        self.beside = beside.hidden();
        match mem::replace(&mut self.cell, Some(cell)) {
            None => {}
            Some(_other) => unreachable!(),
        }
    }

    /// Takes the place apart, and the cell with all its blocks: for the owner of a whole device that is let go.
    pub(crate) fn dismantle(self) {
        let LockedCell {
            ino: _,
            version: _,
            cell,
            beside: _,
        } = self;
        match cell {
            Some(cell) => cell.dismantle(),
            None => {}
        }
    }
}
