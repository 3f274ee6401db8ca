//! What the kernel is told of a node, and what the first reply agrees on.

ghost use Rattle.std.specs.Prelude.{◌≡◌};
ghost use Rattle.nv_mount_beside.specs.Names.{number_of};
ghost use Rattle.nv_mount_beside.specs.Shown.{agreement_with, attributes_if, entry_of, opened_file, shape_in_snapshot};

use crate::refusal::Refusal;
use nv_base::{Handle, Mode};
use nv_fuse::{Agreement, Attributes, Entry, Errno, OpenFile};
use nv_mount_answers::{Kept, Shape, attributes_of, node_of};

/// The first number of the nodes of snapshots.
pub const FIRST: u64 = 9_223_372_036_854_775_808;

/// For how many seconds names and attributes hold: only the kernel changes the world.
pub const VALID: u64 = 3_600;

/// The kernel's pages of a file stay when it is opened again: nobody else changes it.
const KEEP_PAGES: u32 = 2;

/// What a mount is able to: reads that wait for one another, writes of many pages, look-ups side by side, and as many
/// pages of a request as it agrees on.
const ABILITIES: u32 = 4_456_481;

/// How many bytes are read ahead or written at most.
const BYTES: u32 = 1_048_576;

/// The greatest size that is told: no file has more bytes.
const MOST: u64 = 1_099_511_627_776;

/// The lower of the two bits of a mode by which a program runs as another user. Above it is the other alone.
const SET_GROUP_ID: u16 = 0o2_000;

/// The number of a node. One that has none is never told of.
pub fn number(handle: &Handle) -> Result<u64, Refusal>
    // Numbers are told below those of snapshots.
    ensures { result ≡ number_of handle.now }
{
    match node_of(*handle) {
        Some(node) if node < FIRST => Ok(node),
        _ => Err(Refusal::Errno(Errno::InputOutput)),
    }
}

/// The attributes of a node. Without a name it has no link.
pub fn attributes(
    node: u64,
    shape: Shape,
    kept: Kept,
    nameless: bool,
) -> Result<Attributes, Refusal>
    // A size that no file has is refused, and a node without a name has no link.
    ensures { result ≡ attributes_if node shape kept nameless }
{
    if shape.size > MOST {
        return Err(Refusal::Errno(Errno::InputOutput));
    }
    let attributes = attributes_of(node, shape, kept);
    if nameless {
        return Ok(Attributes {
            links: 0,
            ..attributes
        });
    }
    Ok(attributes)
}

/// Kind, mode and size of a node, as a snapshot tells them: a program of a snapshot runs as no other user.
pub fn shape_in_snapshot(shape: Shape) -> Shape
    // The mode has neither set-user-id nor set-group-id.
    ensures { result ≡ shape_in_snapshot shape }
{
    let mode = Mode::checked(shape.mode.bits() % SET_GROUP_ID).unwrap();
    Shape { mode, ..shape }
}

/// The entry of a node with these attributes.
pub fn entry(attributes: Attributes) -> Entry
    // Names and attributes hold an hour.
    ensures { result ≡ entry_of attributes }
{
    Entry {
        node: attributes.inode,
        generation: 0,
        name_valid: VALID,
        attributes_valid: VALID,
        name_valid_nanoseconds: 0,
        attributes_valid_nanoseconds: 0,
        attributes,
    }
}

/// A file that was opened. Requests name it by its node, so that it needs no number.
pub fn opened_file() -> OpenFile
    // It has no number, and the kernel keeps its pages.
    ensures { result ≡ opened_file }
{
    OpenFile {
        file: 0,
        flags: KEEP_PAGES,
    }
}

/// What the first reply agrees on, with a kernel of these abilities.
pub fn agreement(flags: u32) -> Agreement
    // The protocol is 7.31, and the abilities are those of both.
    ensures { result ≡ agreement_with flags }
{
    Agreement {
        major: 7,
        minor: 31,
        max_readahead: BYTES,
        flags: flags & ABILITIES,
        max_background: 64,
        congestion_threshold: 48,
        max_write: BYTES,
        time_granularity: 1,
        max_pages: 256,
        map_alignment: 0,
    }
}
