//! A caller of the library, written to be copied: it writes a file, makes a snapshot, writes the file anew, and shows
//! all files as they are and as they were.

use anyhow::{Result, bail};
use nv_core::{
    Answer, Bytes, Call, Fault, Geometry, GeometryNumbers, Handle, Mode, Path,
    SnapshotOrCleanerCall, Tree, World, root,
};
use std::alloc::Global;

/// The actor that makes all calls here.
const ACTOR: u64 = 0;

/// An empty file system in memory: 64 blocks of 16 bytes.
fn new_world(alloc: Global) -> Result<World, Fault> {
    let geometry = Geometry::checked(GeometryNumbers {
        blocks: 64,
        cpus: 1,
        block: 16,
        page: 8,
        inodes: 8,
        snaps: 4,
        actors: 1,
    })?;
    World::format(alloc, geometry)
}

/// A name or a text, as calls take it.
fn bytes(alloc: Global, text: &str) -> Result<Bytes, Fault> {
    Ok(Bytes::from_vec(text.as_bytes().to_vec(alloc)?))
}

/// Makes a call that makes a directory or a file.
fn make(world: &mut World, call: Call) -> Result<Handle> {
    match world.call(ACTOR, call)? {
        Answer::Made(handle) => Ok(handle),
        other => bail!("no handle but {other:?}"),
    }
}

/// Writes a text from the first byte of a file on.
fn write(alloc: Global, world: &mut World, file: Handle, text: &str) -> Result<()> {
    let text = bytes(alloc, text)?;
    let offset = 0;
    world.call(ACTOR, Call::Write { file, offset, text })?;
    Ok(())
}

/// A path as text: the names from the root on, each behind a `/`, and `/` for the root.
fn path_text(alloc: Global, path: &Path) -> Result<String> {
    let mut text = String::new(alloc);
    for name in path.as_slice() {
        text.push('/')?;
        text.push_str(str::from_utf8(name.bytes())?)?;
    }
    if text.is_empty() {
        text.push('/')?;
    }
    Ok(text)
}

/// Prints the path, the size and the text of each file and directory.
fn print_tree<R: AllocGlobal + Print>(rt: &R, title: &str, tree: &Tree) -> Result<()> {
    println!(rt; "{title}:")?;
    for there in tree.as_slice() {
        let path = path_text(rt.alloc(), &there.path)?;
        let text = str::from_utf8(there.node.bytes.as_slice())?;
        println!(rt; "  {path:16} {:2} bytes {text:?}", there.node.size)?;
    }
    Ok(())
}

/// Prints how many blocks hold data, wait to be drained, and are free.
fn print_space(rt: &impl Print, title: &str, world: &World) -> Result<()> {
    let space = world.space();
    println!(rt;
        "{title}: {} data, {} pending, {} free",
        space.data, space.pending, space.free
    )?;
    Ok(())
}

/// Runs this caller.
pub fn run<R: AllocGlobal + Print>(rt: &R) -> Result<()> {
    let alloc = rt.alloc();
    let mut world = new_world(alloc)?;
    let Some(mode) = Mode::checked(0o755) else {
        bail!("a mode has 12 bits");
    };
    let (dir, name) = (root(), bytes(alloc, "letters")?);
    let dir = make(&mut world, Call::Mkdir { dir, name, mode })?;
    let name = bytes(alloc, "first")?;
    let file = make(&mut world, Call::Create { dir, name, mode })?;
    write(alloc, &mut world, file, "Dear reader, this is a draft.")?;

    let snap = Call::SnapshotOrCleaner(SnapshotOrCleanerCall::Snap);
    let Answer::Snapshot(draft) = world.call(ACTOR, snap)? else {
        bail!("no snapshot");
    };
    write(alloc, &mut world, file, "Dear reader, this is the letter.")?;
    print_tree(rt, "now", &world.tree()?)?;
    print_tree(rt, "in the snapshot", &world.snap_tree(draft)?)?;
    print_space(rt, "blocks with the snapshot", &world)?;

    world.call(
        ACTOR,
        Call::SnapshotOrCleaner(SnapshotOrCleanerCall::Drop(draft)),
    )?;
    print_space(rt, "blocks after its drop", &world)?;
    world.call(
        ACTOR,
        Call::SnapshotOrCleaner(SnapshotOrCleanerCall::Drain(100)),
    )?;
    print_space(rt, "blocks after a drain", &world)?;
    world.audit()?;
    Ok(())
}
