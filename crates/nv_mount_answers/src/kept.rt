//! What is kept of a node beside its world.

ghost use Rattle.std.specs.Prelude.{◌≡◌, ◌≤◌, ◌+◌, ◌<◌, ◌^◌};
ghost use Rattle.nv_mount_answers.specs.Kept.{attributes_of, kept_after, kind_bits, owner_after, time_after};

use nv_base::{Kind, Mode};
use nv_fuse::{Attributes, SetAttributes};

/// A time: seconds since 1970, and nanoseconds.
#[derive(Clone, Copy, Debug, PartialEq, Eq, Drop)]
pub struct Time {
    pub seconds: u64,
    pub nanoseconds: u32,
}

/// What a world tells of a node.
#[derive(Clone, Copy, Debug, PartialEq, Eq, Drop)]
pub struct Shape {
    pub kind: Kind,
    pub mode: Mode,
    /// Its bytes, none for a directory.
    pub size: u64,
}

/// What is kept of a node beside the world. It ends with the mount.
#[derive(Clone, Copy, Debug, PartialEq, Eq, Drop)]
pub struct Kept {
    /// When it was read last.
    pub accessed: Time,
    /// When it was written last.
    pub modified: Time,
    /// When its attributes changed last.
    pub changed: Time,
    /// Its owner.
    pub user: u32,
    /// Its group.
    pub group: u32,
}

/// The attributes of a node, as the kernel is told.
pub fn attributes_of(inode: u64, shape: Shape, kept: Kept) -> Attributes
    // The blocks of the greatest size have a number.
    requires { shape.size + 511 < 2 ^ 64 }
    // Kind, mode and size are those of the world, times and owners those that are kept.
    ensures { result ≡ attributes_of inode shape kept }
{
    Attributes {
        inode,
        size: shape.size,
        blocks: (shape.size + 511) / 512,
        accessed: kept.accessed.seconds,
        modified: kept.modified.seconds,
        changed: kept.changed.seconds,
        accessed_nanoseconds: kept.accessed.nanoseconds,
        modified_nanoseconds: kept.modified.nanoseconds,
        changed_nanoseconds: kept.changed.nanoseconds,
        mode: kind_bits(shape.kind) + u32::from(shape.mode.bits()),
        links: 1,
        user: kept.user,
        group: kept.group,
        device: 0,
        block_size: 4096,
    }
}

impl Kept {
    /// What is kept after attributes were set.
    pub fn after(self, now: Time, set: &SetAttributes) -> Kept
        // Times and owners are those that were set, or now; what was not set stays.
        ensures { result ≡ kept_after now set.now self }
    {
        let valid = set.valid;
        let accessed = Time {
            seconds: set.accessed,
            nanoseconds: set.accessed_nanoseconds,
        };
        let modified = Time {
            seconds: set.modified,
            nanoseconds: set.modified_nanoseconds,
        };
        Kept {
            accessed: time_after(valid & 16, valid & 128, now, accessed, self.accessed),
            modified: time_after(valid & 32, valid & 256, now, modified, self.modified),
            changed: now,
            user: owner_after(valid & 2, set.user, self.user),
            group: owner_after(valid & 4, set.group, self.group),
        }
    }
}

fn time_after(is_set: u32, is_now: u32, now: Time, told: Time, old: Time) -> Time
    ensures { result ≡ time_after is_set is_now now told old }
{
    if is_set == 0 {
        return old;
    }
    if is_now == 0 {
        return told;
    }
    now
}

fn owner_after(is_set: u32, told: u32, old: u32) -> u32
    ensures { result ≡ owner_after is_set told old }
{
    if is_set == 0 {
        return old;
    }
    told
}

/// The bits of a kind in a mode.
fn kind_bits(kind: Kind) -> u32
    ensures kind { result ≡ kind_bits kind }
    ensures most { result ≤ 2 ^ 16 }
{
    match kind {
        Kind::Dir => 0o040_000,
        Kind::File => 0o100_000,
    }
}
