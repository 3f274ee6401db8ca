//! The freshness cell: who owns which inode at which version, and who has seen what.
//!
//! The cell's word says nothing: what counts is its rule over what all passes know. Beside each inode's cell lies the
//! one pass that owns the inode, at the inode's version. Each session has a pass that knows which versions it has seen,
//! and by the rule none of these is above the owner's. So whoever holds the lock of an inode finds what he has seen of
//! it, or what came later. Nothing of this runs except a load of the word.

use atomic_table::{Join, Split};
use crossbeam_utils::atomic::seq_cell::{Pass, RuledSeqCell};
use crossbeam_utils::rule::{Outcome, Protocol};
use std::collections::LinkedList;

/// What a pass knows. It stands in proofs alone: no value of it is made.
pub struct View {
    /// Whether it makes owners.
    pub is_maker: bool,
    /// How many owners it has made: the number of the inode whose owner is next.
    pub made: u64,
    /// Whether it owns an inode.
    pub is_owner: bool,
    /// That inode.
    pub ino: u64,
    /// Its version.
    pub version: u64,
    /// The versions that were seen, by inode.
    pub seen: LinkedList<u64>,
}

/// The rule: each inode has one owner, at its version, and no pass has seen a higher one.
/// Each inode has one owner, at its version, and no pass has seen a higher one.
pub struct Freshness;

impl Protocol<[u64; 1], View> for Freshness {
    ghost use Rattle.nv_sessions.specs.Fresh.{AreFresh, maker};

    ghost holds = { AreFresh };

    ghost first = { maker 0 };
}

/// The cell.
pub type FreshCell = RuledSeqCell<[u64; 1], View, Freshness, 1>;

/// A pass of the cell.
pub type FreshPass = Pass<[u64; 1], View>;

/// The maker makes the owner of the next inode, at its first version.
pub struct NextOwner;

impl Split<View> for NextOwner {
    ghost use Rattle.nv_sessions.specs.Fresh.{made_one, new_owner};

    ghost left = { made_one };

    ghost right = { new_owner };
}

/// A note of what a pass has seen, which a session takes in.
pub struct SeenNote;

impl Split<View> for SeenNote {
    ghost use Rattle.nv_sessions.specs.Fresh.{note};

    ghost left = { λ v. v };

    ghost right = { note };
}

impl Join<View> for SeenNote {
    ghost use Rattle.nv_sessions.specs.Fresh.{with_note, seer};
    ghost use Rattle.std.specs.Prelude.{[]};

    ghost both = { with_note };

    ghost spent = { seer [] };
}

/// A note of an owner's version. The other way round, an owner is told of a session's note.
pub struct OwnerNote;

impl Split<View> for OwnerNote {
    ghost use Rattle.nv_sessions.specs.Fresh.{own_note};

    ghost left = { λ v. v };

    ghost right = { own_note };
}

impl Join<View> for OwnerNote {
    ghost use Rattle.nv_sessions.specs.Fresh.{told, seer};
    ghost use Rattle.std.specs.Prelude.{[]};

    ghost both = { told };

    ghost spent = { seer [] };
}

/// The owner's version rises by one.
pub struct Raise;

impl Outcome<[u64; 1], View> for Raise {
    ghost use Rattle.nv_sessions.specs.Fresh.{Raises};

    ghost then = { Raises };
}

/// The owner meets what it was told of: it is no higher than its version.
pub struct Meet;

impl Outcome<[u64; 1], View> for Meet {
    ghost use Rattle.nv_sessions.specs.Fresh.{Meets};

    ghost then = { Meets };
}
