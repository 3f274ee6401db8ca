//! Which slots a call locks.

ghost use Rattle.std.specs.Prelude.{◌≡◌, ◌++◌, ◌∷◌, List, ℕ, None, [], false, map};
ghost use Rattle.std.specs.Option.{option_map};
ghost use Rattle.nv_calls.specs.Locked.{handles, if_number, slots_among};
ghost use Rattle.nv_calls.specs.Prepared.{makes};
ghost use Rattle.nv_calls.specs.SlotList.{all_some, slots_in};
ghost use Rattle.nv_calls.specs.Updates.{call_of};

use crate::{LockedSlots, LookupResult, Update};
use nv_base::{Handle, Ino};

/// The slots that a call locks, of so many: those of the number that it has for a new inode, of its handles, and of what
/// its looks found. A number out of range has no slot.
#[inline(always)]
pub fn slots_of(
    inodes: u64,
    number: Option<Ino>,
    update: &Update,
    looked: &LookupResult,
) -> LockedSlots
    requires { makes update.now ≡ false → number ≡ None }
    // A call locks the slots of its handles, of what its looks found, and of the number for a new inode.
    ensures { (text : List ℕ) → slots_in result
        ≡ slots_among inodes number looked.now (call_of update.now text) }
{
    let (first, second, third, fourth) = locked(number, update, looked);
    LockedSlots::none()
        .with(inodes, fourth)
        .with(inodes, third)
        .with(inodes, second)
        .with(inodes, first)
}

/// The numbers of the inodes that a call locks: that of a new inode, those of its handles, and of what its looks found.
fn locked(
    number: Option<Ino>,
    update: &Update,
    looked: &LookupResult,
) -> (Option<Ino>, Option<Ino>, Option<Ino>, Option<Ino>)
    requires { makes update.now ≡ false → number ≡ None }
    ensures { (text : List ℕ) → all_some (result.0 ∷ result.1 ∷ result.2 ∷ result.3 ∷ [])
        ≡ if_number number ++ map (λ h. h.ino) (handles looked.now (call_of update.now text)) }
{
    let first = ino_of(looked.first);
    match update {
        Update::Create { dir, .. } | Update::Mkdir { dir, .. } => {
            (number, Some(dir.ino), None, None)
        }
        Update::Write { file, .. } | Update::Size { file, .. } => {
            (Some(file.ino), None, None, None)
        }
        Update::Mode { handle, .. } => (Some(handle.ino), None, None, None),
        Update::Unlink { dir, .. } | Update::Rmdir { dir, .. } => {
            (Some(dir.ino), first, None, None)
        }
        Update::Rename { from, to, .. } => {
            (Some(from.ino), Some(to.ino), first, ino_of(looked.second))
        }
    }
}

fn ino_of(handle: Option<Handle>) -> Option<Ino>
    ensures { result ≡ option_map (λ h. h.ino) handle }
{
    match handle {
        Some(handle) => Some(handle.ino),
        None => None,
    }
}
