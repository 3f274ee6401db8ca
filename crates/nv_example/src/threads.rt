//! A caller of the library from several threads, written to be copied: four writers, a maker of snapshots and a cleaner work
//! on one file system, each in a thread of its own. Then it is a world again, which is shown and audited.

use SnapshotOrCleanerCall::{Auto, Drain, Show, Snap};
use anyhow::{Result, bail};
use nv_core::{
    Answer, Bytes, Call, Fault, Geometry, GeometryNumbers, Handle, Mode, SnapshotOrCleanerCall,
    Tree, World, root,
};
use nv_service::{Acts, Calls, serve};
use std::alloc::Global;
use std::sync::Wait;
use std::sync::atomic::{AtomicU64, Ordering};
use std::thread::Threads;

/// The actor that makes the files, before any thread starts.
const ACTOR: u64 = 0;

/// The files. The writer of each sits on the seat of that number.
const NAMES: [&str; 4] = ["first", "second", "third", "fourth"];

/// The seat of the maker of snapshots.
const MAKER: u64 = 4;

/// All seats: the last one is the cleaner's.
const SEATS: u64 = 6;

/// How many snapshots are made, and how often all files are cleaned.
const ROUNDS: u64 = 10;

/// How many bytes are written at once, which take several blocks.
const BYTES: usize = 40;

/// What all threads share.
#[derive(Drop)]
struct Crew {
    alloc: Global,
    files: Vec<Handle>,
    /// How many snapshots had whole files alone.
    whole: AtomicU64,
}

impl Acts for Crew {
    fn act<S: Calls>(&self, seat: u64, calls: &mut S) -> Result<(), Fault> {
        match self.files.get(seat as usize) {
            Some(file) => self.write(calls, *file),
            None if seat == MAKER => self.make_snapshots(calls),
            None => self.clean(calls),
        }
    }
}

impl Crew {
    /// Writes all of a file anew with each letter.
    fn write<S: Calls>(&self, calls: &mut S, file: Handle) -> Result<(), Fault> {
        for letter in b'a'..=b'z' {
            let text = Bytes::from_vec(vec![in self.alloc; letter; BYTES]?);
            let offset = 0;
            calls.call(Call::Write { file, offset, text })?;
        }
        Ok(())
    }

    /// Makes snapshots, looks at each while others write, and drops it.
    fn make_snapshots<S: Calls>(&self, calls: &mut S) -> Result<(), Fault> {
        for _ in 0..ROUNDS {
            let Answer::Snapshot(snapshot) = maintain(calls, Snap)? else {
                continue;
            };
            if let Answer::Tree(tree) = maintain(calls, Show(snapshot))? {
                self.whole
                    .fetch_add(u64::from(is_whole(&tree)), Ordering::SeqCst);
            }
            maintain(calls, SnapshotOrCleanerCall::Drop(snapshot))?;
        }
        Ok(())
    }

    /// Cleans all files, and drains what waits for it.
    fn clean<S: Calls>(&self, calls: &mut S) -> Result<(), Fault> {
        for _ in 0..ROUNDS {
            for file in &self.files {
                maintain(calls, Auto(file.ino))?;
            }
            maintain(calls, Drain(100))?;
        }
        Ok(())
    }
}

/// Makes a call on snapshots, or one of a cleaner.
fn maintain<S: Calls>(calls: &mut S, call: SnapshotOrCleanerCall) -> Result<Answer, Fault> {
    let seen = calls.call(Call::SnapshotOrCleaner(call))?;
    Ok(seen.answer())
}

/// Whether each file is empty, or as one write left it.
fn is_whole(tree: &Tree) -> bool {
    tree.as_slice().iter().all(|there| {
        let bytes = there.node.bytes.as_slice();
        match bytes.first() {
            Some(letter) => bytes.len() == BYTES && bytes.iter().all(|byte| byte == letter),
            None => true,
        }
    })
}

/// An empty file system in memory: 1,024 blocks of 16 bytes.
fn new_world(alloc: Global) -> Result<World, Fault> {
    let geometry = Geometry::checked(GeometryNumbers {
        blocks: 1024,
        cpus: 4,
        block: 16,
        page: 8,
        inodes: 8,
        snaps: 4,
        actors: 1,
    })?;
    World::format(alloc, geometry)
}

/// Makes an empty file of each name in the root.
fn make_files(alloc: Global, world: &mut World) -> Result<Vec<Handle>> {
    let Some(mode) = Mode::checked(0o644) else {
        bail!("a mode has 12 bits");
    };
    let mut files = Vec::new(alloc);
    for name in NAMES {
        let (dir, name) = (root(), Bytes::from_vec(name.as_bytes().to_vec(alloc)?));
        match world.call(ACTOR, Call::Create { dir, name, mode })? {
            Answer::Made(file) => files.push(file)?,
            other => bail!("no handle but {other:?}"),
        }
    }
    Ok(files)
}

/// Prints the text of each file, and how many calls were committed.
fn print_files<R: AllocGlobal + Print>(rt: &R, world: &World) -> Result<()> {
    for there in world.tree()?.as_slice() {
        if let Some(name) = there.path.as_slice().last() {
            let name = str::from_utf8(name.bytes())?;
            let text = str::from_utf8(there.node.bytes.as_slice())?;
            println!(rt; "{name:6} {text}")?;
        }
    }
    println!(rt; "{} commits", world.snaps()?.commit.number())?;
    Ok(())
}

/// Runs this caller.
pub fn run<R: AllocGlobal + Print + Threads + Wait + Sync>(rt: &R) -> Result<()> {
    let alloc = rt.alloc();
    let mut world = new_world(alloc)?;
    let files = make_files(alloc, &mut world)?;
    let whole = AtomicU64::new(0);
    let crew = Crew {
        alloc,
        files,
        whole,
    };
    let world = match serve(rt, alloc, world, SEATS, &crew) {
        Ok(world) => world,
        Err((fault, _)) => bail!("{fault}"),
    };
    print_files(rt, &world)?;
    println!(rt;
        "{} of {ROUNDS} snapshots had whole files",
        crew.whole.into_inner()
    )?;
    world.audit()?;
    println!(rt; "audited")?;
    Ok(())
}
