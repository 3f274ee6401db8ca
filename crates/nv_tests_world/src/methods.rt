//! Each method of `nv_files` once with ample memory, in three lives of a file.

use crate::compare::same;
use nv_files::{CommitNo, Epoch, Fault, Files, Kind, Mode, NameList, Stat, Tree, root};
use nv_scenes::{geometry, handle};
use std::alloc::Global;
use std::process::Abort;

const OPEN: u16 = 0o755;

const CLOSED: u16 = 0o600;

const DRAFT: &[u8] = b"Dear reader, this is a draft.";

const LETTER: &[u8] = b"Dear reader, this is the letter.";

/// Files of blocks of 16 bytes, and logs of pages of 8 entries.
fn new_files(alloc: Global) -> Result<Files, Fault> {
    Files::format(alloc, geometry([64, 1, 16, 8, 8, 4, 1])?)
}

fn mode(rt: &impl Abort, bits: u16) -> Mode {
    Mode::checked(bits).expect(rt, "a mode of 12 bits")
}

/// Asserts that a directory has this name alone, or none.
fn has_name(rt: &impl Abort, names: &NameList, name: Option<&[u8]>) {
    let found = names.as_slice();
    same(rt, found.len(), name.iter().count());
    if let (Some(found), Some(wanted)) = (found.first(), name) {
        same(rt, found.name.bytes(), wanted);
    }
}

/// Asserts that a tree has one file below the root, with these bytes.
fn has_file(rt: &impl Abort, tree: &Tree, text: &[u8]) {
    let found = tree.as_slice();
    same(rt, found.len(), 2);
    if let Some(file) = found.get(1) {
        same(rt, file.node.bytes.as_slice(), text);
    }
}

/// The methods on nodes and bytes are granted memory: a clause lets each say that it was refused.
#[test]
fn nodes_and_bytes(rt: HostRuntime) -> Result<(), Fault> {
    let mut files = new_files(rt.alloc())?;
    let dir = files.mkdir(root(), b"letters", mode(&rt, OPEN))?;
    let file = files.create(dir, b"first", mode(&rt, OPEN))?;
    same(&rt, (dir, file), (handle(1), handle(2)));
    files.write(file, 0, DRAFT)?;
    let mut place = [7; 16];
    same(&rt, files.read(file, 5, &mut place)?, 16);
    same(&rt, place.as_slice(), b"reader, this is ".as_slice());
    files.size(file, 4)?;
    same(&rt, files.read(file, 0, &mut place)?, 4);
    same(&rt, place.as_slice(), b"Dearer, this is ".as_slice());
    files.mode(file, mode(&rt, CLOSED))?;
    let want = Stat {
        kind: Kind::File,
        mode: mode(&rt, CLOSED),
        size: 4,
        commit: CommitNo::new(5),
    };
    same(&rt, files.stat(file)?, want);
    Ok(())
}

/// The methods on names are granted memory: a clause lets each say that it was refused.
#[test]
fn names(rt: HostRuntime) -> Result<(), Fault> {
    let mut files = new_files(rt.alloc())?;
    let dir = files.mkdir(root(), b"letters", mode(&rt, OPEN))?;
    let file = files.create(dir, b"first", mode(&rt, OPEN))?;
    has_name(&rt, &files.list(dir)?, Some(b"first"));
    files.rename(dir, b"first", root(), b"letter")?;
    has_name(&rt, &files.list(dir)?, None);
    same(&rt, files.lookup(root(), b"letter")?, file);
    files.rmdir(root(), b"letters")?;
    has_name(&rt, &files.list(root())?, Some(b"letter"));
    files.unlink(root(), b"letter")?;
    has_name(&rt, &files.list(root())?, None);
    Ok(())
}

/// The methods on snapshots, and cleaners, are granted memory: a clause lets each say that it was refused.
#[test]
fn snapshots_and_cleaners(rt: HostRuntime) -> Result<(), Fault> {
    let mut files = new_files(rt.alloc())?;
    let file = files.create(root(), b"letter", mode(&rt, OPEN))?;
    files.write(file, 0, DRAFT)?;
    let draft = files.snap()?;
    same(&rt, draft, Epoch::new(1));
    files.write(file, 0, LETTER)?;
    has_file(&rt, &files.show(draft)?, DRAFT);
    files.drop_snap(draft)?;
    // What the draft held alone: two pages and a size.
    same(&rt, files.drain(100)?, 3);
    let fast = files.clean_fast(file.ino)?;
    same(&rt, (fast.entries, fast.pages), (0, 0));
    // The entry of the first write goes. The log stays one page.
    let thorough = files.clean_thorough(file.ino)?;
    same(&rt, (thorough.entries, thorough.pages), (1, 0));
    let left = files.clean_auto(file.ino)?;
    same(&rt, (left.entries, left.pages), (0, 0));
    has_file(&rt, &files.into_world().tree()?, LETTER);
    Ok(())
}
