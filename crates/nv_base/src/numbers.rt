//! Numbers, each kind a type of its own. Contracts see each as a natural number.

ghost use Rattle.std.specs.Prelude.{◌≡◌, ◌+◌, ◌<◌, ◌↔◌, IsTrue};
ghost use Rattle.nv_base.specs.Ids.{AreIdsOrdered, IsIdBefore};
ghost use Rattle.nv_base.specs.declared.limits.TheConstants.{NUMBER};

use std::marker::Model;

/// An inode number: the place of its slot. The root is 0.
#[derive(Clone, Copy, Debug, PartialEq, Eq, PartialOrd, Ord)]
pub struct Ino {
    number: u64,
}

impl Model for Ino {
    ghost use Rattle.std.specs.Prelude.{ℕ};

    ghost Value = { ℕ };

    ghost view = { λ n. n.number };

    ghost inverse = { λ n. record { number = n } };
}

impl Ino {
    /// The inode number of this number.
    pub fn new(number: u64) -> Ino
        // Inode numbers and generations read back as they were given.
        ensures { result ≡ number }
    {
        Ino { number }
    }

    /// The number that it was made of.
    pub fn number(self) -> u64
        ensures { result ≡ self }
    {
        self.number
    }
}

/// The generation of a slot: 1 at first, and one more each time that its inode is erased.
#[derive(Clone, Copy, Debug, PartialEq, Eq, PartialOrd, Ord)]
pub struct Gen {
    number: u64,
}

impl Model for Gen {
    ghost use Rattle.std.specs.Prelude.{ℕ};

    ghost Value = { ℕ };

    ghost view = { λ n. n.number };

    ghost inverse = { λ n. record { number = n } };
}

impl Gen {
    /// The generation of this number.
    pub fn new(number: u64) -> Gen
        ensures { result ≡ number }
    {
        Gen { number }
    }

    /// The number that it was made of.
    pub fn number(self) -> u64
        ensures { result ≡ self }
    {
        self.number
    }

    /// The generation after this one.
    pub fn next(self) -> Gen
        requires { self < NUMBER }
        // The next generation is one more, below the last.
        ensures { result ≡ self + 1 }
    {
        Gen {
            number: self.number + 1,
        }
    }
}

/// What names an inode: its slot, and the slot's generation. A handle whose slot has another generation
/// is stale.
#[derive(Clone, Copy, Debug, PartialEq, Eq, PartialOrd, Ord)]
pub struct Handle {
    pub ino: Ino,
    pub generation: Gen,
}

/// The number of a block of the device, from 0.
#[derive(Clone, Copy, Debug, PartialEq, Eq, PartialOrd, Ord)]
pub struct BlockNo {
    number: u64,
}

impl Model for BlockNo {
    ghost use Rattle.std.specs.Prelude.{ℕ};

    ghost Value = { ℕ };

    ghost view = { λ n. n.number };

    ghost inverse = { λ n. record { number = n } };
}

impl BlockNo {
    /// The block number of this number.
    pub fn new(number: u64) -> BlockNo
        // A block number reads back as the number that it was made of.
        ensures { result ≡ number }
    {
        BlockNo { number }
    }

    /// The number that it was made of.
    pub fn number(self) -> u64
        ensures { result ≡ self }
    {
        self.number
    }
}

/// An epoch, from 1 on. Making a snapshot closes the current epoch, whose number is the snapshot's.
#[derive(Clone, Copy, Debug, PartialEq, Eq, PartialOrd, Ord)]
pub struct Epoch {
    number: u64,
}

impl Model for Epoch {
    ghost use Rattle.std.specs.Prelude.{ℕ};

    ghost Value = { ℕ };

    ghost view = { λ n. n.number };

    ghost inverse = { λ n. record { number = n } };
}

impl Epoch {
    /// The epoch of this number.
    pub fn new(number: u64) -> Epoch
        // An epoch reads back as the number that it was made of.
        ensures { result ≡ number }
    {
        Epoch { number }
    }

    /// The number that it was made of.
    pub fn number(self) -> u64
        ensures { result ≡ self }
    {
        self.number
    }

    /// The epoch after this one.
    pub fn next(self) -> Epoch
        requires { self < NUMBER }
        // The next epoch is one more, below the last.
        ensures { result ≡ self + 1 }
    {
        Epoch {
            number: self.number + 1,
        }
    }
}

/// The number of a commit. Format is commit 0, and each later commit has the next number.
#[derive(Clone, Copy, Debug, PartialEq, Eq, PartialOrd, Ord)]
pub struct CommitNo {
    number: u64,
}

impl Model for CommitNo {
    ghost use Rattle.std.specs.Prelude.{ℕ};

    ghost Value = { ℕ };

    ghost view = { λ n. n.number };

    ghost inverse = { λ n. record { number = n } };
}

impl CommitNo {
    /// The commit number of this number.
    pub fn new(number: u64) -> CommitNo
        // A commit number reads back as the number that it was made of.
        ensures { result ≡ number }
    {
        CommitNo { number }
    }

    /// The number that it was made of.
    pub fn number(self) -> u64
        ensures { result ≡ self }
    {
        self.number
    }

    /// The commit number after this one.
    pub fn next(self) -> CommitNo
        requires { self < NUMBER }
        // The next commit number is one more, below the last.
        ensures { result ≡ self + 1 }
    {
        CommitNo {
            number: self.number + 1,
        }
    }
}

/// What names a log entry: its commit, and its place among the entries of that commit in append order,
/// from 0. Ids are ordered by commit and then by place.
#[derive(Clone, Copy, Debug, PartialEq, Eq, PartialOrd, Ord)]
pub struct EntryId {
    pub commit: CommitNo,
    pub place: u32,
}

impl EntryId {
    /// Whether this id stands before another.
    pub fn is_before(self, other: EntryId) -> bool
        // Entry ids stand in one order, by commit and then by place.
        ensures { IsTrue result ↔ IsIdBefore self other }
    {
        self < other
    }
}

/// A law: ids stand in one order, no id before itself, and the tests of the definitions say so.
pub fn ids_are_ordered()
    // The order of ids is total, irreflexive and transitive.
    // The tests `is_id_before` and `is_same_id` decide the order and equality of ids.
    ensures { AreIdsOrdered }
{}
