//! The tail that an inode's log had before a commit.

ghost use Rattle.std.specs.Prelude.{◌≡◌, ◌↔◌, Any, IsTrue};
ghost use Rattle.nv_journal.specs.Journal.{AreDistinct};

use nv_base::Ino;

/// An inode, and the tail of its log before a commit.
#[derive(Clone, Copy, Debug, PartialEq, Eq)]
pub struct OldTail {
    pub ino: Ino,
    /// The entries up to the tail.
    pub tail: u64,
}

/// What an unused place of a list holds.
impl Default for OldTail {
    ghost is_default = { λ t. t ≡ record { ino = 0; tail = 0 } };

    fn default() -> OldTail {
        OldTail {
            ino: Ino::new(0),
            tail: 0,
        }
    }
}

/// Whether no two of the tails are of one inode. Costs the square of their number at most.
pub fn are_distinct(tails: &[OldTail]) -> bool
    // Whether the inodes of old tails are distinct is told.
    ensures { IsTrue result ↔ AreDistinct tails.now }
{
    for i in 0..tails.len() {
        if names_inode(&tails[i + 1..], tails[i].ino) {
            return false;
        }
    }
    true
}

fn names_inode(tails: &[OldTail], ino: Ino) -> bool
    ensures { IsTrue result ↔ Any (λ t. t.ino ≡ ino) tails.now }
{
    tails.iter().any(|t| t.ino == ino)
}
