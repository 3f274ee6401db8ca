//! The seats of a service: those that are free, and sessions on the others.

ghost use Rattle.std.specs.Prelude.{◌≡◌, ◌⊎◌, ◌+◌, ◌<◌, ◌≤◌, ◌↔◌, [], All, IfErr, IfOk, IsTrue, OnErr, OnOk, map, vec_capacity, vec_len};
ghost use Rattle.std.specs.List.{range_with_len};
ghost use Rattle.nv_base.specs.Memory.{out_of_memory};
ghost use Rattle.nv_base.specs.Refusals.{FailsOnly, IsRefusedBy};
ghost use Rattle.nv_base.specs.declared.fault.Fault.TheVariants.{BadGeometry, SeatsOut};
ghost use Rattle.nv_base.specs.declared.fault.GeometryField.TheVariants.{Seats};
ghost use Rattle.nv_base.specs.declared.limits.TheConstants.{ACTORS};
ghost use Rattle.nv_alloc.specs.Numbers.{times};
ghost use Rattle.nv_sessions.specs.Seats.{AreSeats, new_session};
ghost use Rattle.nv_sessions.specs.Taken.{IsRoom};

use crate::asking::Asking;
use crate::cell_list::CellList;
use crate::giving_back::Giving;
use crate::locked_parts::LockedParts;
use crate::names::{Blocks, Commits, Cut, SnapLedger};
use crate::passes::{Fresh, Maker, Notes};
use crate::seat::Seat;
use crate::seen_versions::SeenVersions;
use crate::session::Session;
use nv_alloc::Hand;
use nv_base::{Fault, Geometry, GeometryField, limits};
use std::alloc::Global;
use std::sync::Mutex;
use std::sync::ledger::Share;

/// A seat that no session has: a part of each ledger, with nothing, and a pass that has seen nothing.
#[derive(Drop)]
pub(crate) struct FreeSeat<C: Commits, B: Blocks> {
    pub(crate) commits: Share<C>,
    pub(crate) snapped: Share<SnapLedger<C>>,
    pub(crate) blocks: Share<B>,
    pub(crate) notes: Notes<C>,
    ghost commit_part: { commits.parts ≡ 1 },
    ghost no_commit: { commits.amount ≡ 0 },
    ghost snap_part: { snapped.parts ≡ 1 },
    ghost none_snapped: { snapped.amount ≡ 0 },
    ghost block_part: { blocks.parts ≡ 1 },
    ghost no_block: { blocks.amount ≡ 0 },
    ghost nothing_seen: { notes ≡ [] },
}

impl<C: Commits, B: Blocks> FreeSeat<C, B> {
    /// A seat with one part of each of these shares, which have nothing.
    fn split(
        fresh: &Fresh<C>,
        maker: &mut Maker<C>,
        commits: &mut Share<C>,
        snapped: &mut Share<SnapLedger<C>>,
        blocks: &mut Share<B>,
    ) -> FreeSeat<C, B>
        requires parts { (0 < commits.old.parts) × (0 < snapped.old.parts)
            × (0 < blocks.old.parts) }
        requires nothing { (commits.old.amount ≡ 0) × (snapped.old.amount ≡ 0)
            × (blocks.old.amount ≡ 0) }
        ensures commits { (commits.new.parts + 1 ≡ commits.old.parts) × (commits.new.amount ≡ 0) }
        ensures snapped { (snapped.new.parts + 1 ≡ snapped.old.parts) × (snapped.new.amount ≡ 0) }
        ensures blocks { (blocks.new.parts + 1 ≡ blocks.old.parts) × (blocks.new.amount ≡ 0) }
        ensures maker { maker.new ≡ maker.old }
    {
        FreeSeat {
            commits: commits.split_off(1, 0),
            snapped: snapped.split_off(1, 0),
            blocks: blocks.split_off(1, 0),
            notes: maker.seen(fresh),
        }
    }

    /// A session on the seat, with an empty hand and this room for cells.
    fn session(
        self,
        alloc: Global,
        geometry: &Geometry,
        number: u64,
        list: CellList,
    ) -> Session<C, B>
        requires list { IsRoom list }
        ensures { result ≡ new_session number }
    {
        let FreeSeat {
            commits,
            snapped,
            blocks,
            notes,
        } = self;
        let seat = Seat {
            number,
            commits,
            blocks,
            notes: SeenVersions::new(notes),
            asking: Asking::new(),
            giving: Giving::new(),
        };
        Session {
            alloc,
            seat,
            snapped,
            hand: Hand::new(alloc, geometry),
            list,
        }
    }
}

/// The seats of a service: those that no session has, how many were given out, and what is left of the ledgers. Tokens
/// are no `Sync`, so each free seat and the rest lie behind locks of their own.
#[derive(Drop)]
pub(crate) struct Seating<C: Commits, B: Blocks> {
    pub(crate) free: Vec<Mutex<FreeSeat<C, B>>>,
    pub(crate) given: u64,
    pub(crate) reserve: Mutex<Reserve<C, B>>,
    // The seats that are free and those that were given out are 64.
    ghost all_seats: { vec_len free + given ≡ ACTORS },
}

/// What no seat and no lock of a part has: the rest of the ledgers, with nothing, and a pass that takes in what sessions
/// have seen.
#[derive(Drop)]
pub(crate) struct Reserve<C: Commits, B: Blocks> {
    pub(crate) cut: Cut<C>,
    pub(crate) notes: Notes<C>,
    pub(crate) commits: Share<C>,
    pub(crate) snapped: Share<SnapLedger<C>>,
    pub(crate) blocks: Share<B>,
    ghost commit_parts: { commits.parts + ACTORS ≡ C.whole },
    // What no seat and no part has of the ledgers counts nothing.
    ghost no_commit: { commits.amount ≡ 0 },
    ghost snap_parts: { snapped.parts + ACTORS ≡ C.snap_parts },
    ghost none_snapped: { snapped.amount ≡ 0 },
    ghost block_parts: { blocks.parts + ACTORS + B.placed ≡ B.whole },
    ghost no_block: { blocks.amount ≡ 0 },
}

impl<C: Commits, B: Blocks> LockedParts<C, B> {
    /// Gives out so many sessions, numbered from 0 on, that have seen and committed nothing and have empty hands: once
    /// for each service.
    ///
    /// `SeatsOut` where sessions were given out already; `BadGeometry` where there are none or more than 64 to give out;
    /// `OutOfMemory` where room was refused. Nothing has changed then.
    pub fn seats(&mut self, alloc: Global, count: u64) -> Result<Vec<Session<C, B>>, Fault>
        // As many sessions are given out, numbered from 0, which have seen and committed nothing.
        ensures sessions { IfOk result (λ sessions.
            sessions.items ≡ map new_session (range_with_len 0 count)) }
        ensures given { OnOk result (self.new.seating.given ≡ count) }
        // They are given out once, 1 to 64 of them, and else nothing changes.
        ensures out { IsRefusedBy result SeatsOut ↔ (0 < self.old.seating.given) }
        ensures bad { IsRefusedBy result (BadGeometry Seats)
            ↔ ((self.old.seating.given ≡ 0) × ((count ≡ 0) ⊎ (ACTORS < count))) }
        ensures err { IfErr result (λ fault.
            (fault ≡ SeatsOut) ⊎ (fault ≡ BadGeometry Seats) ⊎ (fault ≡ out_of_memory)) }
        ensures total { self.new.total ≡ self.old.total }
        ensures geometry { self.new.geometry ≡ self.old.geometry }
        ensures same { OnErr result (self.new.seating.given ≡ self.old.seating.given) }
    {
        if self.seating.given > 0 {
            return Err(Fault::SeatsOut);
        }
        if count == 0 || count > limits::ACTORS {
            return Err(Fault::BadGeometry(GeometryField::Seats));
        }
        let into = Vec::with_capacity(alloc, count as usize)?;
        let rooms = cell_rooms(alloc, count)?;
        Ok(self.seating.seat(alloc, &self.geometry, count, rooms, into))
    }
}

impl<C: Commits, B: Blocks> Seating<C, B> {
    /// Sessions on so many seats, none of which was given out, in room that was made before.
    fn seat(
        &mut self,
        alloc: Global,
        geometry: &Geometry,
        count: u64,
        rooms: Vec<CellList>,
        into: Vec<Session<C, B>>,
    ) -> Vec<Session<C, B>>
        requires rooms { (vec_len rooms ≡ count) × All IsRoom rooms.items }
        requires none { self.old.given ≡ 0 }
        requires few { count ≤ ACTORS }
        requires room { (into.items ≡ []) × (count ≤ vec_capacity into) }
        ensures sessions { result.items ≡ map new_session (range_with_len 0 count) }
        ensures given { self.new.given ≡ count }
    {
        let Seating { free, given, .. } = self;
        let sessions = seated(alloc, geometry, free, count, rooms, into);
        *given = count;
        sessions
    }
}

/// As many free seats as a service may give out, each behind a lock, since tokens are no `Sync`.
pub(crate) fn free_seats<C: Commits, B: Blocks>(
    fresh: &Fresh<C>,
    maker: &mut Maker<C>,
    commits: &mut Share<C>,
    snapped: &mut Share<SnapLedger<C>>,
    blocks: &mut Share<B>,
    mut into: Vec<Mutex<FreeSeat<C, B>>>,
) -> Vec<Mutex<FreeSeat<C, B>>>
    requires parts { (ACTORS ≤ commits.old.parts) × (ACTORS ≤ snapped.old.parts)
        × (ACTORS ≤ blocks.old.parts) }
    requires nothing { (commits.old.amount ≡ 0) × (snapped.old.amount ≡ 0)
        × (blocks.old.amount ≡ 0) }
    requires room { (vec_len into ≡ 0) × (ACTORS ≤ vec_capacity into) }
    ensures count { vec_len result ≡ ACTORS }
    ensures commits { (commits.new.parts + ACTORS ≡ commits.old.parts) × (commits.new.amount ≡ 0) }
    ensures snapped { (snapped.new.parts + ACTORS ≡ snapped.old.parts) × (snapped.new.amount ≡ 0) }
    ensures blocks { (blocks.new.parts + ACTORS ≡ blocks.old.parts) × (blocks.new.amount ≡ 0) }
{
    for _ in 0..limits::ACTORS {
        into.push_reserved(Mutex::new(FreeSeat::split(fresh, maker, commits, snapped, blocks)));
    }
    into
}

/// Sessions on so many of the free seats, numbered from 0 on.
pub(crate) fn seated<C: Commits, B: Blocks>(
    alloc: Global,
    geometry: &Geometry,
    free: &mut Vec<Mutex<FreeSeat<C, B>>>,
    count: u64,
    mut rooms: Vec<CellList>,
    mut into: Vec<Session<C, B>>,
) -> Vec<Session<C, B>>
    requires rooms { (vec_len rooms ≡ count) × All IsRoom rooms.items }
    requires enough { count ≤ vec_len free.old }
    requires room { (into.items ≡ []) × (count ≤ vec_capacity into) }
    ensures sessions { result.items ≡ map new_session (range_with_len 0 count) }
    ensures left { vec_len free.new + count ≡ vec_len free.old }
{
    for number in 0..count {
        let Some(seat) = free.pop() else {
            unreachable!()
        };
        let room = next_room(&mut rooms);
        into.push_reserved(seat.into_inner().session(alloc, geometry, number, room));
    }
    into
}

/// Room for the cells of a call, for each of so many sessions. The only error is `OutOfMemory`.
fn cell_rooms(alloc: Global, count: u64) -> Result<Vec<CellList>, Fault>
    ensures count { IfOk result (λ rooms. vec_len rooms ≡ count) }
    ensures each { IfOk result (λ rooms. All IsRoom rooms.items) }
    ensures err { FailsOnly out_of_memory result }
{
    let mut rooms = Vec::with_capacity(alloc, count as usize)?;
    for _ in 0..count {
        let room = CellList::new(alloc)?;
        rooms.push_reserved(room);
    }
    Ok(rooms)
}

/// Takes the room for the cells of one session out.
fn next_room(rooms: &mut Vec<CellList>) -> CellList
    requires some { 0 < vec_len rooms.old }
    requires each { All IsRoom rooms.old.items }
    ensures room { IsRoom result }
    ensures each { All IsRoom rooms.new.items }
    ensures count { vec_len rooms.new + 1 ≡ vec_len rooms.old }
{
    let Some(room) = rooms.pop() else {
        unreachable!()
    };
    room
}

/// Whether the sessions are those of so many seats: as many, and each seat's number once.
pub(crate) fn are_seats<C: Commits, B: Blocks>(sessions: &[Session<C, B>], seats: u64) -> bool
    ensures { IsTrue result ↔ AreSeats seats (map (λ s. s.number) sessions.now) }
{
    if sessions.len() as u64 != seats {
        return false;
    }
    for number in 0..seats {
        if count_of(sessions, number) != 1 {
            return false;
        }
    }
    true
}

/// How many of the sessions have this seat.
fn count_of<C: Commits, B: Blocks>(sessions: &[Session<C, B>], number: u64) -> usize
    ensures { result ≡ times number (map (λ s. s.number) sessions.now) }
{
    sessions
        .iter()
        .filter(|session| session.seat.number == number)
        .count()
}
