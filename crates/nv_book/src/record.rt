//! A record of a part that a commit killed.

ghost use Rattle.std.specs.Prelude.{◌≡◌};
ghost use Rattle.nv_book.specs.Records.{goes_on, is_born_by, is_held_by, is_next_page, is_page};

use nv_base::{EntryId, Epoch, Ino};
use nv_entry::Part;

/// A part of an entry that a commit killed. It was current from the epoch of its birth on, and from that of its
/// death on no more.
#[derive(Clone, Copy, Debug, PartialEq, Eq)]
pub struct Record {
    pub ino: Ino,
    pub entry: EntryId,
    pub part: Part,
    pub birth: Epoch,
    pub death: Epoch,
}

fn is_next_page(part: Part, next: Part) -> bool
    ensures { result ≡ is_next_page part next }
{
    match (part, next) {
        (Part::Page(page), Part::Page(other)) => page < other && other - page == 1,
        _ => false,
    }
}

impl Record {
    /// Whether the record `next` is of the same inode, entry, birth and death, and of the page after this.
    pub(crate) fn goes_on(&self, next: &Record) -> bool
        ensures { result ≡ goes_on self.now next.now }
    {
        self.ino == next.ino
            && self.entry == next.entry
            && self.birth == next.birth
            && self.death == next.death
            && is_next_page(self.part, next.part)
    }

    /// Whether the part was born by the snapshot, if there is one.
    pub(crate) fn is_born_by(&self, snapshot: &Option<Epoch>) -> bool
        ensures { result ≡ is_born_by snapshot.now self.now }
    {
        match snapshot {
            Some(s) => self.birth <= *s,
            None => false,
        }
    }

    /// Whether the snapshot `s` holds the part.
    pub fn is_held_by(&self, s: Epoch) -> bool
        // Whether a snapshot holds a record is told.
        ensures { result ≡ is_held_by s self.now }
    {
        self.birth <= s && s < self.death
    }

    /// Whether the part is a page, which has a block.
    pub fn is_page(&self) -> bool
        // Whether a record is of a page is told.
        ensures { result ≡ is_page self.now.part }
    {
        matches!(self.part, Part::Page(_))
    }
}
