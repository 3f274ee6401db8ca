//! Lists of parts of all inodes.

ghost use Rattle.std.specs.Prelude.{◌≡◌, ◌↔◌, IsTrue};
ghost use Rattle.nv_audit.specs.PartLists.{HaveSameParts, order_of, part_order};

use nv_base::{EntryId, Ino};
use nv_entry::{Part, PartId};

/// A part of the log of an inode.
#[derive(Clone, Copy, Debug, PartialEq, Eq)]
pub struct InodePart {
    pub ino: Ino,
    pub part: PartId,
}

impl InodePart {
    /// Where this part stands in a sorted list: by inode, by entry, and within one entry by its key. No two parts stand
    /// at one place.
    fn order(&self) -> (Ino, EntryId, (u32, u32))
        ensures { result ≡ order_of self.now }
    {
        (self.ino, self.part.entry, place_of(self.part.part))
    }
}

/// Where a key stands among the keys of an entry: the number of its kind, and for a page the page's number.
fn place_of(part: Part) -> (u32, u32)
    ensures { result ≡ part_order part }
{
    match part {
        Part::Kind => (0, 0),
        Part::Mode => (1, 0),
        Part::Size => (2, 0),
        Part::Bound => (3, 0),
        Part::Page(page) => (4, page),
    }
}

/// Whether each part stands in one list as often as in the other. Costs their lengths, times a logarithm.
pub(crate) fn have_same_parts(mut one: Vec<InodePart>, mut other: Vec<InodePart>) -> bool
    ensures { IsTrue result ↔ HaveSameParts one.items other.items }
{
    one.sort_unstable_by_key(|part| part.order());
    other.sort_unstable_by_key(|part| part.order());
    one == other
}
