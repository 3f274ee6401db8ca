//! The names of a directory, as a reply lists them.

ghost use Rattle.std.specs.Prelude.{◌≡◌, ◌<◌, ◌+◌, ◌^◌, ◌++◌, if◌then◌else◌, length, nat_le, IfOk, OnErr, OnOk};
ghost use Rattle.std.specs.Prelude.{vec_capacity, vec_len};
ghost use Rattle.std.specs.List.{flat_map};
ghost use Rattle.nv_fuse.specs.Replies.{kind_number, listed_bytes, listed_rows, padding};
ghost use Rattle.nv_fuse.specs.Rows.{bytes_of};
ghost use Rattle.nv_fuse.specs.Written.{field_bytes};

use crate::put::{Field, put, put_fields};
use std::alloc::AllocError;

/// What a listed name stands for.
#[derive(Clone, Copy, Debug, PartialEq, Eq, Drop)]
pub enum ListedKind {
    Directory,
    File,
}

impl ListedKind {
    /// The number of the kind.
    pub fn number(self) -> u32
        // Each kind has the number by which the kernel knows it.
        ensures { result ≡ kind_number self }
    {
        match self {
            ListedKind::Directory => 4,
            ListedKind::File => 8,
        }
    }
}

/// A name of a directory as a reply lists it.
#[derive(Clone, Copy, Debug, PartialEq, Eq, Drop)]
pub struct Listed<'a> {
    /// The number that programs see.
    pub inode: u64,
    /// From where a later request lists on behind this name.
    pub offset: u64,
    /// What it stands for.
    pub kind: ListedKind,
    /// The name.
    pub name: &'a [u8],
}

/// Enough room for the numbers of a listed name and for the zero bytes behind it.
const ROOM: usize = 40;

impl Listed<'_> {
    /// How many bytes the listed name takes.
    pub fn length(&self) -> usize
        requires { length self.now.name.now < 2 ^ 32 }
        // A listed name is as long as its bytes.
        ensures { result ≡ length (listed_bytes self.now) }
    {
        24 + self.name.len() + padding(self.name.len())
    }

    /// Appends the listed name where all has so much room. Tells whether it had.
    pub fn append_to(&self, room: usize, out: &mut Vec<u8>) -> Result<bool, AllocError>
        // The length of a name has a place of four bytes.
        requires { length self.now.name.now < 2 ^ 32 }
        // There is room exactly where the bytes with this name are not more.
        ensures fits { IfOk result (λ fits. fits
            ≡ nat_le (vec_len out.old + length (listed_bytes self.now)) room) }
        // Where there is room the bytes of the table stand behind what was there, else nothing does.
        ensures ok { IfOk result (λ fits. out.new.items
            ≡ (if fits then out.old.items ++ listed_bytes self.now else out.old.items)) }
        // Without memory nothing is appended.
        ensures err { OnErr result (out.new.items ≡ out.old.items) }
    {
        let length = self.length();
        if room < length || room - length < out.len() {
            return Ok(false);
        }
        out.reserve(ROOM + self.name.len())?;
        put_fields(out, &listed_fields(self));
        put(out, self.name);
        let zeros = [0u8; 8];
        put(out, &zeros[..padding(self.name.len())]);
        Ok(true)
    }
}

fn listed_fields(listed: &Listed<'_>) -> [Field; 4]
    requires { length listed.now.name.now < 2 ^ 32 }
    ensures { flat_map field_bytes result ≡ bytes_of (listed_rows listed.now) }
{
    [
        Field::Long(listed.inode),
        Field::Long(listed.offset),
        Field::Word(listed.name.len() as u32),
        Field::Word(listed.kind.number()),
    ]
}

/// How many bytes fill up this many to a multiple of eight.
fn padding(count: usize) -> usize
    ensures padding { result ≡ padding count }
    ensures most { result < 8 }
{
    (8 - count % 8) % 8
}
