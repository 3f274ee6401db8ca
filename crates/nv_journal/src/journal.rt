//! The journal.

ghost use Rattle.std.specs.Prelude.{◌≡◌, ℕ, ◌<◌, ◌≤◌, ◌↔◌, [], ◌∷◌, length, IsTrue, Some, Contains, take};
ghost use Rattle.std.specs.Bool.{OnFalse};
ghost use Rattle.smallvec.specs.SmallVec.{small_vec_len};
ghost use Rattle.nv_journal.specs.Journal.{AreDistinct, IsJournal, tail_noted};

use crate::OldTail;
use nv_base::Ino;
use smallvec::SmallVec;
use std::marker::Model;

const PLACES: usize = 4;

/// The inodes of one commit with their old tails, from its opening to its closing. Contracts see the list of
/// them, which is empty while the journal is closed. It takes no memory, and each call costs at most a look at the
/// four places.
/// Only tested: a journal is `Send` and `Sync`.
#[derive(Debug, Drop)]
pub struct Journal {
    places: [OldTail; PLACES],
    count: usize,
}

impl Model for Journal {
    ghost use Rattle.std.specs.Prelude.{List, ◌≤◌, take};
    ghost use Rattle.nv_journal.specs.declared.old_tail.OldTail.{OldTail};
    ghost use Rattle.nv_journal.specs.Journal.{IsJournal};

    ghost Value = { List OldTail };

    ghost view = { λ journal. take journal.count journal.places };

    // It is empty, or has two to four distinct inodes.
    ghost invariant = { λ journal. (journal.count ≤ 4)
        × IsJournal (take journal.count journal.places) };
}

impl Journal {
    /// A closed journal.
    pub fn new() -> Journal
        // A new journal is closed, and whether one is open is told.
        ensures { result ≡ [] }
    {
        Journal {
            places: [OldTail::default(); PLACES],
            count: 0,
        }
    }

    /// Notes these inodes with their old tails, in this order. [`crate::are_distinct`] tests whether the inodes
    /// are distinct.
    pub fn open(&mut self, tails: &SmallVec<OldTail, 4>)
        requires closed { self.old ≡ [] }
        requires two { 2 ≤ small_vec_len tails.now }
        requires four { small_vec_len tails.now ≤ 4 }
        requires distinct { AreDistinct tails.now.items }
        // A journal notes the old tails that it is given.
        ensures { self.new ≡ tails.now.items }
    {
        self.places = places_with(tails.as_slice());
        self.count = tails.len();
    }

    /// Forgets what was noted.
    pub fn close(&mut self)
        // After `close` a journal has nothing noted.
        ensures { self.new ≡ [] }
    {
        self.count = 0;
    }

    /// The inodes that were noted, with their old tails, in the order in which they were noted.
    pub fn pending(&self) -> &[OldTail]
        // A journal gives back what it has noted.
        ensures noted { result.now ≡ self.now }
        ensures sound { IsJournal self.now }
    {
        &self.places[..self.count]
    }

    /// Whether the journal is open.
    pub fn is_open(&self) -> bool
        ensures open { IsTrue result ↔ (2 ≤ length self.now) }
        ensures closed { OnFalse result (self.now ≡ []) }
    {
        !self.pending().is_empty()
    }

    /// The old tail that was noted for the inode, if the journal is open and names it.
    pub fn tail_of(&self, ino: Ino) -> Option<u64>
        // The old tail of one inode is told, and none where none is noted.
        ensures value { result ≡ tail_noted self.now ino }
        ensures noted { (tail : ℕ) → (result ≡ Some tail)
            ↔ Contains self.now (record { ino = ino; tail = tail }) }
    {
        self.pending().iter().find(|t| t.ino == ino).map(|t| t.tail)
    }
}

/// Places that begin with these tails.
fn places_with(tails: &[OldTail]) -> [OldTail; PLACES]
    requires { length tails.now ≤ 4 }
    ensures { take (length tails.now) result ≡ tails.now }
{
    let mut places = [OldTail::default(); PLACES];
    places[..tails.len()].copy_from_slice(tails);
    places
}
