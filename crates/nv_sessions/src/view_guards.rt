//! The places of inodes whose cells a call only reads: beside other readers, or alone.

ghost use Rattle.std.specs.Prelude.{◌≡◌, ◌<◌, ◌≤◌, IfErr, IfOk, IfSome, OnErr, OnOk};
ghost use Rattle.std.specs.Sync.RwLock.{read_guard_value};
ghost use Rattle.nv_base.specs.Refusals.{FailsEither, FailsOnly};
ghost use Rattle.nv_base.specs.declared.fault.Fault.TheVariants as fault;
ghost use Rattle.nv_base.specs.declared.fault.MismatchPart.TheVariants as part;
ghost use Rattle.nv_sessions.specs.Locked.{IsThere, LockedValue, cell_of};
ghost use Rattle.nv_sessions.specs.Misfits.{IsMisplaced};
ghost use Rattle.nv_sessions.specs.ViewGuards.{IsNotedBy, place_of};

use crate::cell::LockedCell;
use crate::guards::hold_at;
use crate::locked_parts::LockedParts;
use crate::names::{Blocks, Commits};
use crate::seen_versions::SeenVersions;
use nv_base::{Fault, Ino, MismatchPart};
use nv_cell::InodeCell;
use std::sync::{RwLock, RwLockReadGuard, RwLockWriteGuard, Wait};

/// The guard of a place whose cell a call only reads.
#[derive(Drop)]
pub(crate) enum ViewGuard<'a, C: Commits, B: Blocks> {
    /// The place is at the version that the session has noted, and others may read it too.
    Shared(RwLockReadGuard<'a, LockedCell<C, B>>),
    /// Nobody else gets the lock meanwhile.
    Alone(RwLockWriteGuard<'a, LockedCell<C, B>>),
}

impl<'a, C: Commits, B: Blocks> ViewGuard<'a, C, B> {
    /// The cell of a place that has it.
    pub(crate) fn part(&self) -> &InodeCell
        requires there { IsThere (place_of self.now) }
        ensures cell { result.now ≡ cell_of (place_of self.now) }
        ensures version { result.now.state.version ≡ (place_of self.now).version }
    {
        match self {
            ViewGuard::Shared(place) => place.part(),
            ViewGuard::Alone(place) => place.part(),
        }
    }
}

/// Locks the cell of an inode for a call that only reads it: beside other readers where its place is at the version that the
/// session has noted, and alone elsewhere. `Stale` where the device has no such slot, and `Mismatch` of `Lists` where another
/// inode's place lies there, or an empty one.
pub(crate) fn hold_view<'a, C: Commits, B: Blocks, R: Wait>(
    rt: &R,
    service: &'a LockedParts<C, B>,
    seen: &SeenVersions<C>,
    ino: Ino,
) -> Result<ViewGuard<'a, C, B>, Fault>
    ensures ok { IfOk result (λ guard. (place_of guard).ino ≡ ino) }
    ensures there { IfOk result (λ guard. IsThere (place_of guard)) }
    // A place that others read too is at the version that was seen of its inode.
    ensures noted { IfOk result (IsNotedBy C.opened seen.now) }
    ensures slot { OnOk result (ino < service.now.geometry.numbers.inodes) }
    ensures stale { IfErr result (λ why.
        why ≡ fault.Stale → service.now.geometry.numbers.inodes ≤ ino) }
    ensures misplaced { IfErr result (λ why. why ≡ fault.Mismatch part.Lists
        → (place : LockedValue) × IsMisplaced ino place) }
    ensures err { FailsEither fault.Stale (fault.Mismatch part.Lists) result }
{
    let Some(lock) = service.inode_lock(ino) else {
        return Err(Fault::Stale);
    };
    if let Some(version) = seen.version_of(ino) {
        if let Some(place) = share_noted(rt, lock, ino, version) {
            return Ok(ViewGuard::Shared(place));
        }
    }
    match hold_at(rt, lock, ino) {
        Ok(place) => Ok(ViewGuard::Alone(place)),
        Err(fault) => Err(fault),
    }
}

/// The place of an inode with its cell, beside other readers, where it is at this version.
fn share_noted<'a, C: Commits, B: Blocks, R: Wait>(
    rt: &R,
    lock: &'a RwLock<LockedCell<C, B>>,
    ino: Ino,
    version: u64,
) -> Option<RwLockReadGuard<'a, LockedCell<C, B>>>
    ensures ino { IfSome result (λ guard. (read_guard_value guard).ino ≡ ino) }
    ensures there { IfSome result (λ guard. IsThere (read_guard_value guard)) }
    // A shared place is at the version that its reader asked for.
    ensures version { IfSome result (λ guard. (read_guard_value guard).version ≡ version) }
{
    let place = lock.read(rt);
    if place.has_cell_of(ino) && place.version() == version {
        Some(place)
    } else {
        None
    }
}

/// The place of an inode with its cell, beside other readers, for who notes nothing. `Mismatch` of `Lists` where the place is
/// another's, or empty.
pub(crate) fn share_at<'a, C: Commits, B: Blocks, R: Wait>(
    rt: &R,
    lock: &'a RwLock<LockedCell<C, B>>,
    ino: Ino,
) -> Result<RwLockReadGuard<'a, LockedCell<C, B>>, Fault>
    ensures ok { IfOk result (λ guard. (read_guard_value guard).ino ≡ ino) }
    ensures there { IfOk result (λ guard. IsThere (read_guard_value guard)) }
    ensures misplaced { OnErr result ((place : LockedValue) × IsMisplaced ino place) }
    ensures err { FailsOnly (fault.Mismatch part.Lists) result }
{
    let place = lock.read(rt);
    if !place.has_cell_of(ino) {
        return Err(Fault::Mismatch(MismatchPart::Lists));
    }
    Ok(place)
}
