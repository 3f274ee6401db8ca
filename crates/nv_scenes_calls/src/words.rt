//! Calls by their words, and answers that are wanted.

use nv_base::{Bytes, Epoch, Fault, Handle, Ino, Kind, Mode};
use nv_calls::{Answer, Call, SnapshotOrCleanerCall};
use nv_entry::{BoundName, TreeNode};
use nv_scenes::handle_of;
use std::alloc::Global;

/// The inode and the generation of a handle.
pub type At = (u64, u64);

/// A call: its handle, and then its name, or its numbers and text. A call on snapshots has a number alone, and a cleaner
/// that of an inode.
#[derive(Clone, Copy, Debug)]
pub enum Words {
    Create(At, &'static [u8]),
    Mkdir(At, &'static [u8]),
    Write(At, u64, &'static [u8]),
    Read(At, u64, u64),
    Size(At, u64),
    Mode(At, u16),
    Stat(At),
    List(At),
    Lookup(At, &'static [u8]),
    Unlink(At, &'static [u8]),
    Rmdir(At, &'static [u8]),
    Rename(At, &'static [u8], At, &'static [u8]),
    Snap,
    Drop(u64),
    Show(u64),
    Drain(u64),
    Fast(u64),
    Thorough(u64),
    Auto(u64),
}

/// A node of a tree: its last name, which the root has none of, and its bytes.
pub type Shown = (&'static [u8], &'static [u8]);

/// A reply. A node has its kind, mode, size and last commit, and a name the inode that it leads to, of generation 1. A
/// cleaner tells whether it was thorough, and how many entries and pages the log lost.
#[derive(Clone, Copy, Debug)]
pub enum Want {
    Started,
    Moved,
    Waits,
    Stopped,
    Made(At),
    Count(u64),
    Nothing,
    Bytes(&'static [u8]),
    Stat(Kind, u16, u64, u64),
    Names(&'static [(&'static [u8], u64)]),
    Snapshot(u64),
    Tree(&'static [Shown]),
    Cleaned(bool, usize, usize),
    Refused(Fault),
}

fn bytes(alloc: Global, text: &[u8]) -> Option<Bytes> {
    let text = Vec::from_slice(alloc, text).ok()?;
    Some(Bytes::from_vec(text))
}

fn at_handle((ino, generation): At) -> Handle {
    handle_of(ino, generation)
}

/// The call of some words, none where memory is refused. New files have mode 420, and new directories mode 493.
pub fn call(alloc: Global, words: &Words) -> Option<Call> {
    match *words {
        Words::Create(at, name) => Some(Call::Create {
            dir: at_handle(at),
            name: bytes(alloc, name)?,
            mode: Mode::checked(420)?,
        }),
        Words::Mkdir(at, name) => Some(Call::Mkdir {
            dir: at_handle(at),
            name: bytes(alloc, name)?,
            mode: Mode::checked(493)?,
        }),
        Words::Unlink(at, name) => Some(Call::Unlink {
            dir: at_handle(at),
            name: bytes(alloc, name)?,
        }),
        Words::Rmdir(at, name) => Some(Call::Rmdir {
            dir: at_handle(at),
            name: bytes(alloc, name)?,
        }),
        Words::Rename(from, old, to, new) => Some(Call::Rename {
            from: at_handle(from),
            old: bytes(alloc, old)?,
            to: at_handle(to),
            new: bytes(alloc, new)?,
        }),
        _ => call_on_a_node(alloc, words),
    }
}

/// The same for calls that change or show one node.
fn call_on_a_node(alloc: Global, words: &Words) -> Option<Call> {
    match *words {
        Words::Write(at, offset, text) => Some(Call::Write {
            file: at_handle(at),
            offset,
            text: bytes(alloc, text)?,
        }),
        Words::Read(at, offset, count) => Some(Call::Read {
            file: at_handle(at),
            offset,
            count,
        }),
        Words::Size(at, size) => Some(Call::Size {
            file: at_handle(at),
            size,
        }),
        Words::Mode(at, bits) => Some(Call::Mode {
            handle: at_handle(at),
            mode: Mode::checked(bits)?,
        }),
        Words::Stat(at) => Some(Call::Stat {
            handle: at_handle(at),
        }),
        Words::List(at) => Some(Call::List { dir: at_handle(at) }),
        Words::Lookup(at, name) => Some(Call::Lookup {
            dir: at_handle(at),
            name: bytes(alloc, name)?,
        }),
        _ => Some(Call::SnapshotOrCleaner(snapshot_or_cleaner_call_of(words)?)),
    }
}

/// The same for calls on snapshots and cleaners.
fn snapshot_or_cleaner_call_of(words: &Words) -> Option<SnapshotOrCleanerCall> {
    match *words {
        Words::Snap => Some(SnapshotOrCleanerCall::Snap),
        Words::Drop(number) => Some(SnapshotOrCleanerCall::Drop(Epoch::new(number))),
        Words::Show(number) => Some(SnapshotOrCleanerCall::Show(Epoch::new(number))),
        Words::Drain(most) => Some(SnapshotOrCleanerCall::Drain(most)),
        Words::Fast(ino) => Some(SnapshotOrCleanerCall::Fast(Ino::new(ino))),
        Words::Thorough(ino) => Some(SnapshotOrCleanerCall::Thorough(Ino::new(ino))),
        Words::Auto(ino) => Some(SnapshotOrCleanerCall::Auto(Ino::new(ino))),
        _ => None,
    }
}

fn is_named(name: &BoundName, bytes: &[u8], ino: u64) -> bool {
    name.name.bytes() == bytes && name.to == handle_of(ino, 1)
}

fn are_named(names: &[BoundName], wanted: &[(&[u8], u64)]) -> bool {
    for (name, (bytes, ino)) in names.iter().zip(wanted) {
        if !is_named(name, bytes, *ino) {
            return false;
        }
    }
    names.len() == wanted.len()
}

fn is_shown(node: &TreeNode, (name, bytes): &Shown) -> bool {
    let is_named = match node.path.as_slice().last() {
        Some(last) => last.bytes() == *name,
        None => name.is_empty(),
    };
    is_named && node.node.bytes.as_slice() == *bytes
}

/// Whether a tree has these nodes.
pub fn are_shown(nodes: &[TreeNode], wanted: &[Shown]) -> bool {
    for (node, shown) in nodes.iter().zip(wanted) {
        if !is_shown(node, shown) {
            return false;
        }
    }
    nodes.len() == wanted.len()
}

/// Whether an answer is the wanted one.
pub fn is_answer(answer: &Answer, want: &Want) -> bool {
    match (answer, *want) {
        (Answer::Made(made), Want::Made(at)) => *made == at_handle(at),
        (Answer::Count(count), Want::Count(want)) => *count == want,
        (Answer::Nothing, Want::Nothing) => true,
        (Answer::Bytes(bytes), Want::Bytes(want)) => bytes.as_slice() == want,
        (Answer::Names(names), Want::Names(want)) => are_named(names.as_slice(), want),
        (Answer::Snapshot(snapshot), Want::Snapshot(number)) => snapshot.number() == number,
        (Answer::Tree(tree), Want::Tree(want)) => are_shown(tree.as_slice(), want),
        (
            Answer::Cleaned {
                thorough,
                entries,
                pages,
            },
            Want::Cleaned(is_thorough, lost, saved),
        ) => *thorough == is_thorough && *entries == lost && *pages == saved,
        (
            Answer::Stat {
                kind,
                mode,
                size,
                commit,
            },
            Want::Stat(wanted, bits, bytes, number),
        ) => {
            *kind == wanted && mode.bits() == bits && *size == bytes && commit.number() == number
        }
        _ => false,
    }
}

/// Whether a refusal is the wanted one.
pub fn is_fault(fault: Fault, want: &Want) -> bool {
    match *want {
        Want::Refused(wanted) => fault == wanted,
        _ => false,
    }
}

/// Whether a call was answered so, or refused so.
pub fn is_wanted(told: &Result<Answer, Fault>, want: &Want) -> bool {
    match told {
        Ok(answer) => is_answer(answer, want),
        Err(fault) => is_fault(*fault, want),
    }
}
