//! The versions that a session has seen, of which some lie at hand.

ghost use Rattle.std.specs.Prelude.{◌≡◌, ◌≢◌, ◌≤◌, ℕ, IfSome, slice_index};
ghost use Rattle.nv_sessions.specs.Locked.{version_at};

use crate::names::Commits;
use crate::passes::{Fresh, Notes, Owner};
use nv_base::Ino;
use std::marker::Model;
use std::sync::Wait;

/// How many inodes at most have their versions at hand.
const SLOTS: u64 = 16;

/// The version of an inode that was noted.
#[derive(Clone, Copy)]
pub(crate) struct Noted {
    ino: u64,
    version: u64,
}

/// What a session has seen, to contracts the versions since the opening by inode. Those that were noted last lie at hand, so
/// that a place that is still at its noted version tells nothing new: it can be read beside others.
#[derive(Drop)]
pub struct SeenVersions<C: Commits> {
    notes: Notes<C>,
    slots: [Option<Noted>; 16],
}

impl<C: Commits> Model for SeenVersions<C> {
    ghost use Rattle.std.specs.Prelude.{ℕ, List};
    ghost use Rattle.nv_sessions.specs.SeenVersions.{AreNoted};

    ghost Value = { List ℕ };

    ghost view = { λ s. s.notes };

    // A version at hand is the one that was seen of its inode, which lies in the inode's own slot.
    ghost invariant = { λ s. AreNoted C.opened s.notes s.slots };
}

impl<C: Commits> SeenVersions<C> {
    /// Of these notes, with none at hand.
    pub(crate) fn new(notes: Notes<C>) -> SeenVersions<C>
        ensures { result ≡ notes }
    {
        SeenVersions {
            notes,
            slots: [None; 16],
        }
    }

    /// The notes.
    pub(crate) fn into_notes(self) -> Notes<C>
        ensures { result ≡ self }
    {
        let SeenVersions { notes, slots: _ } = self;
        notes
    }

    /// The version that was seen of an inode, where it lies at hand.
    pub(crate) fn version_of(&self, ino: Ino) -> Option<u64>
        ensures { IfSome result (λ version.
            version_at C.opened ino (slice_index self.now ino) ≡ version) }
    {
        match self.slots[(ino.number() % SLOTS) as usize] {
            Some(noted) => {
                if noted.ino == ino.number() {
                    Some(noted.version)
                } else {
                    None
                }
            }
            None => None,
        }
    }

    /// Nobody has seen more of the inode than its owner's version.
    pub(crate) fn check<R: Wait>(&mut self, rt: &R, fresh: &Fresh<C>, owner: &mut Owner<C>)
        ensures owner { owner.new ≡ owner.old }
        ensures seen { self.new ≡ self.old }
        ensures met { slice_index self.old owner.old.ino ≤ owner.old.version }
    {
        owner.check_seen(rt, fresh, &mut self.notes);
    }

    /// Notes the version at which an owner has its inode, and nothing else new.
    pub(crate) fn note(&mut self, fresh: &Fresh<C>, owner: &mut Owner<C>, ino: Ino, version: u64)
        requires ino { owner.old.ino ≡ ino }
        requires version { version ≡ version_at C.opened ino owner.old.version }
        requires met { version_at C.opened ino (slice_index self.old ino) ≤ version }
        ensures owner { owner.new ≡ owner.old }
        ensures here { version_at C.opened ino (slice_index self.new ino) ≡ version }
        ensures elsewhere { (i : ℕ) → i ≢ ino → slice_index self.new i ≡ slice_index self.old i }
    {
        owner.note_seen(fresh, &mut self.notes);
        let number = ino.number();
        self.slots[(number % SLOTS) as usize] = Some(Noted {
            ino: number,
            version,
        });
    }
}
