//! What a new node has of its directory.

ghost use Rattle.std.specs.Prelude.{◌≡◌};
ghost use Rattle.nv_mount_beside.specs.Inherited.{mode_in, owner_in, passes_group};

use nv_base::{Kind, Mode};

/// The bit of a mode by which a directory passes its group on: set-group-id.
const SET_GROUP: u32 = 0o2_000;

/// Whom a node belongs to.
#[derive(Clone, Copy, Debug, PartialEq, Eq, Drop)]
pub struct Owner {
    pub user: u32,
    pub group: u32,
}

/// Whether a directory of this mode passes its group on.
fn passes_group(mode: Mode) -> bool
    // The set-group-id bit tells it.
    ensures { result ≡ passes_group mode }
{
    u32::from(mode.bits()) & SET_GROUP != 0
}

/// Whom a node belongs to that a user makes in a directory.
pub fn owner_in(dir_mode: Mode, dir_group: u32, user: u32, group: u32) -> Owner
    // The group is the directory's where that is passed on, or else the caller's.
    ensures { result ≡ owner_in dir_mode dir_group user group }
{
    if passes_group(dir_mode) {
        return Owner {
            user,
            group: dir_group,
        };
    }
    Owner { user, group }
}

/// The mode of a node that is made in a directory with this mode.
pub fn mode_in(dir_mode: Mode, kind: Kind, mode: u32) -> u32
    // A directory gets the bit by which its group is passed on.
    ensures { result ≡ mode_in dir_mode kind mode }
{
    match kind {
        Kind::File => mode,
        Kind::Dir => {
            if passes_group(dir_mode) {
                return mode | SET_GROUP;
            }
            mode
        }
    }
}
