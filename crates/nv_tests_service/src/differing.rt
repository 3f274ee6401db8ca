//! Services with a part that is not as in a world at rest don't close: the part is told, what lay behind each lock lies there
//! again, and once the part is set right the service goes on and closes.
//!
//! Two cells, or two lists, change places through their guards. Of no other change is a guard capable.

use crate::calls::told;
use crate::compare::{holds_for, same_for};
use crate::reports::have_same_trees;
use crate::runner::{Work, seated, serve};
use crate::words::call;
use crate::worlds::{SMALL, prepared, told_at_last};
use Words::{Create, Snap, Write};
use nv_base::{Fault, Ino, MismatchPart};
use nv_calls::{Source, SourceFault};
use nv_scenes::{handle, wants_memory};
use nv_scenes_calls::words::{At, Want, Words, is_wanted};
use nv_service::{Blocks, Commits, Service, Session};
use std::alloc::Global;
use std::mem;
use std::process::Abort;
use std::sync::Wait;
use std::thread::Threads;

const ROOT: At = (0, 1);

const ONE: At = (1, 1);

const TWO: At = (2, 1);

/// The inode slots and the CPUs of the device.
const INODES: u64 = 8;

const CPUS: u64 = 2;

/// Two files.
const FILES: &[Words] = &[
    Create(ROOT, b"a"),
    Create(ROOT, b"b"),
    Write(ONE, 0, b"aaaa"),
    Write(TWO, 0, b"bbbbbb"),
];

/// A snapshot that holds what was written over.
const HELD: &[Words] = &[
    Create(ROOT, b"a"),
    Create(ROOT, b"b"),
    Write(ONE, 0, b"aaaa"),
    Write(TWO, 0, b"bbbbbb"),
    Snap,
    Write(ONE, 0, b"AAAA"),
];

/// The same once it was dropped: its records are deferred.
const DEFERRED: &[Words] = &[
    Create(ROOT, b"a"),
    Create(ROOT, b"b"),
    Write(ONE, 0, b"aaaa"),
    Write(TWO, 0, b"bbbbbb"),
    Snap,
    Write(ONE, 0, b"AAAA"),
    Words::Drop(1),
];

/// What changes places: the cells of two inodes, or the free lists of the two CPUs.
#[derive(Clone, Copy, Debug)]
enum Swap {
    Cells(u64, u64),
    Lists,
}

/// What is made before, what then changes places, and the part that differs.
const SWAPS: [(&[Words], Swap, MismatchPart); 7] = [
    (FILES, Swap::Cells(1, 2), MismatchPart::Lists),
    (FILES, Swap::Cells(1, 7), MismatchPart::Names),
    (FILES, Swap::Cells(0, 1), MismatchPart::Names),
    (HELD, Swap::Cells(1, 2), MismatchPart::Records),
    (DEFERRED, Swap::Cells(1, 2), MismatchPart::Counts),
    (DEFERRED, Swap::Cells(1, 7), MismatchPart::Counts),
    (FILES, Swap::Lists, MismatchPart::Lists),
];

/// A write that needs a cell and a list that change places.
const WRITE: Words = Write(ONE, 2, b"zz");

impl Swap {
    /// Lets both change places, or back.
    fn make<C: Commits, B: Blocks, R: Wait + Abort>(self, rt: &R, service: &Service<C, B>) {
        match self {
            Swap::Cells(one, other) => swap_cells(rt, service, one, other),
            Swap::Lists => swap_lists(rt, service),
        }
    }

    /// The inode whose cell lies in a slot once two cells have changed places.
    fn ino_in(self, slot: u64) -> u64 {
        match self {
            Swap::Cells(one, other) if slot == one => other,
            Swap::Cells(one, other) if slot == other => one,
            _ => slot,
        }
    }

    /// The CPU whose list lies behind the lock of a CPU once the lists have changed places.
    fn cpu_at(self, cpu: u64) -> u64 {
        match self {
            Swap::Lists => 1 - cpu.min(1),
            Swap::Cells(_, _) => cpu,
        }
    }

    /// Each cell and each list lies where it should: they went back in their order.
    fn has_places<C: Commits, B: Blocks, R: Wait + Abort>(self, rt: &R, service: &Service<C, B>) {
        for slot in 0..INODES {
            let lock = service.inode_lock(Ino::new(slot)).expect(rt, "a cell");
            let found = lock.write(rt).ino();
            same_for(rt, &(self, slot), found, Ino::new(self.ino_in(slot)));
        }
        for cpu in 0..CPUS {
            let lock = service.list_lock(cpu).expect(rt, "a list");
            let home = self.cpu_at(cpu);
            let is_home = home < service.geometry().numbers.cpus
                && lock.lock(rt).part().made_for(service.geometry(), home);
            holds_for(rt, &(self, cpu), is_home);
        }
    }
}

fn swap_cells<C: Commits, B: Blocks, R: Wait + Abort>(
    rt: &R,
    service: &Service<C, B>,
    one: u64,
    other: u64,
) {
    let one = service.inode_lock(Ino::new(one)).expect(rt, "a cell");
    let other = service.inode_lock(Ino::new(other)).expect(rt, "a cell");
    mem::swap(&mut *one.write(rt), &mut *other.write(rt));
}

fn swap_lists<C: Commits, B: Blocks, R: Wait + Abort>(rt: &R, service: &Service<C, B>) {
    let one = service.list_lock(0).expect(rt, "a list");
    let other = service.list_lock(1).expect(rt, "a list");
    mem::swap(&mut *one.lock(rt), &mut *other.lock(rt));
}

/// Why a service doesn't close, with the service and its sessions.
fn refusal<C: Commits, B: Blocks, R: Wait + Abort>(
    rt: &R,
    alloc: Global,
    service: Service<C, B>,
    sessions: Vec<Session<C, B>>,
) -> (Fault, Service<C, B>, Vec<Session<C, B>>) {
    match service.close(rt, alloc, sessions) {
        Ok(_) => panic!(rt; "closed with a wrong part"),
        Err(refused) => refused,
    }
}

/// The service doesn't close: this part differs, which it tells from then on.
fn differs<C: Commits, B: Blocks, R: Wait + Abort>(
    rt: &R,
    alloc: Global,
    service: Service<C, B>,
    sessions: Vec<Session<C, B>>,
    part: MismatchPart,
) -> (Service<C, B>, Vec<Session<C, B>>) {
    let (mut fault, mut service, mut sessions) = refusal(rt, alloc, service, sessions);
    if wants_memory(fault) {
        (fault, service, sessions) = refusal(rt, alloc, service, sessions);
    }
    same_for(rt, &part, fault, Fault::Mismatch(part));
    same_for(rt, &part, service.found(), Some(part));
    same_for(rt, &part, sessions.len(), 1);
    (service, sessions)
}

/// The session's write is answered so, where a growth that is refused is asked for once more.
fn writes<C: Commits, B: Blocks, R: Wait + Abort>(
    rt: &R,
    alloc: Global,
    service: &Service<C, B>,
    sessions: &mut [Session<C, B>],
    want: &Want,
) {
    for session in sessions.iter_mut() {
        let mut found = told(rt, service, session, call(rt, alloc, &WRITE));
        if matches!(found, Err(fault) if wants_memory(fault)) {
            found = told(rt, service, session, call(rt, alloc, &WRITE));
        }
        holds_for(rt, want, is_wanted(&found, want));
    }
}

/// Tries to close while two parts are out of their places.
#[derive(Drop)]
struct Swapped(Swap, MismatchPart);

impl Work for Swapped {
    fn work<C: Commits + Send + Sync, B: Blocks + Send + Sync, R: Threads + Wait + Abort + Sync>(
        &mut self,
        rt: &R,
        alloc: Global,
        service: Service<C, B>,
    ) -> (Service<C, B>, Vec<Session<C, B>>) {
        let Swapped(swap, part) = *self;
        let mut service = service;
        let mut sessions = seated(rt, alloc, &mut service, 1);
        same_for(rt, &swap, service.found(), None);
        swap.make(rt, &service);
        let (service, mut sessions) = differs(rt, alloc, service, sessions, part);
        swap.has_places(rt, &service);
        let refused = Want::Refused(Fault::Mismatch(MismatchPart::Lists));
        writes(rt, alloc, &service, sessions.as_mut_slice(), &refused);
        swap.make(rt, &service);
        writes(
            rt,
            alloc,
            &service,
            sessions.as_mut_slice(),
            &Want::Count(2),
        );
        (service, sessions)
    }
}

/// A close tells the part that does not fit, and puts all back in its place: no clause says whose parts they are.
#[test]
fn parts_out_of_place_do_not_close(rt: HostRuntime) {
    for (before, swap, part) in SWAPS {
        let world = prepared(&rt, rt.alloc(), SMALL, before);
        let world = serve(&rt, rt.alloc(), world, &mut Swapped(swap, part));
        let mut twin = prepared(&rt, rt.alloc(), SMALL, before);
        let told = told_at_last(&rt, rt.alloc(), &mut twin, &WRITE);
        holds_for(&rt, &swap, told.is_ok());
        have_same_trees(&rt, rt.alloc(), &world, &twin);
    }
}

/// A text that never comes. While it is waited for, the lists change places.
struct Swapping<'a, C: Commits, B: Blocks> {
    service: &'a Service<C, B>,
    failures: u64,
}

impl<C: Commits, B: Blocks> Source for Swapping<'_, C, B> {
    ghost use Rattle.std.specs.Prelude.{ℕ};

    ghost byte_at = { λ source at. 0 };

    ghost failed = { λ source. source.failures };

    ghost State = { Unit {0} };

    ghost state = { λ source. tt };

    ghost asked = { λ state ask. state };

    fn fill(&mut self, _at: u64, _part: &mut [u8]) -> Result<(), SourceFault> {
        if let (Some(one), Some(other)) = (self.service.list_lock(0), self.service.list_lock(1)) {
            if let (Some(mut one), Some(mut other)) = (one.try_lock(), other.try_lock()) {
                mem::swap(&mut *one, &mut *other);
            }
        }
        self.failures += 1;
        Err(SourceFault)
    }

    fn failures(&self) -> u64 {
        self.failures
    }
}

/// Why a write is refused whose text never comes.
fn write_refusal<C: Commits, B: Blocks, R: Wait>(
    rt: &R,
    service: &Service<C, B>,
    session: &mut Session<C, B>,
) -> Option<Fault> {
    let mut source = Swapping {
        service,
        failures: 0,
    };
    let told = session.write(rt, service, handle(1), 2, 2, &mut source);
    let Swapping {
        service: _,
        failures: _,
    } = source;
    told.err()
}

/// Leaves blocks in the hand of a session: those of a refused write, which no list takes back.
fn leaves_blocks<C: Commits, B: Blocks, R: Wait + Abort>(
    rt: &R,
    service: &Service<C, B>,
    sessions: &mut [Session<C, B>],
) {
    for session in sessions.iter_mut() {
        let mut told = write_refusal(rt, service, session);
        if told.is_some_and(wants_memory) {
            told = write_refusal(rt, service, session);
        }
        same_for(rt, &"a text that never comes", told, Some(Fault::Read));
    }
}

/// Tries to close while a session has blocks in its hand.
#[derive(Drop)]
struct Handful;

impl Work for Handful {
    fn work<C: Commits + Send + Sync, B: Blocks + Send + Sync, R: Threads + Wait + Abort + Sync>(
        &mut self,
        rt: &R,
        alloc: Global,
        service: Service<C, B>,
    ) -> (Service<C, B>, Vec<Session<C, B>>) {
        let mut service = service;
        let mut sessions = seated(rt, alloc, &mut service, 1);
        leaves_blocks(rt, &service, sessions.as_mut_slice());
        let refused = Want::Refused(Fault::Mismatch(MismatchPart::Lists));
        writes(rt, alloc, &service, sessions.as_mut_slice(), &refused);
        swap_lists(rt, &service);
        let (service, mut sessions) = differs(rt, alloc, service, sessions, MismatchPart::Lists);
        writes(
            rt,
            alloc,
            &service,
            sessions.as_mut_slice(),
            &Want::Count(2),
        );
        (service, sessions)
    }
}

/// Blocks in a hand make the lists differ: no clause says that of a close.
#[test]
fn blocks_in_a_hand_do_not_close(rt: HostRuntime) {
    let world = prepared(&rt, rt.alloc(), SMALL, FILES);
    let world = serve(&rt, rt.alloc(), world, &mut Handful);
    let mut twin = prepared(&rt, rt.alloc(), SMALL, FILES);
    let told = told_at_last(&rt, rt.alloc(), &mut twin, &WRITE);
    holds_for(&rt, &"twin", told.is_ok());
    have_same_trees(&rt, rt.alloc(), &world, &twin);
}
