//! The names of a directory as they stood when it was read from its beginning.

ghost use Rattle.std.specs.Prelude.{◌≡◌, ◌≤◌, ◌+◌, ◌++◌, if◌then◌else◌, Ok, IfErr, IfOk, length, nat_le, vec_len};
ghost use Rattle.nv_mount_beside.specs.Memory.{IsOrNoMemory, no_memory};
ghost use Rattle.nv_mounted.specs.Listings.{bytes_of_name, listed_from};

use nv_base::{Bytes, Items};
use nv_fuse::{Listed, ListedKind};
use nv_mount_beside::{NAME, Refusal};
use std::alloc::Global;

/// A name of a directory.
#[derive(Debug, Drop)]
pub struct Named {
    /// The number of its node.
    pub node: u64,
    pub kind: ListedKind,
    pub name: Bytes,
}

/// Names of a directory in order.
pub type Listing = Items<Named>;

/// The bytes that list names from an offset on, as many of them as there is room for.
pub(crate) fn listed(alloc: Global, names: &[Named], from: u64, room: u32) -> Result<Bytes, Refusal>
    // The names behind the offset are listed in order, until there is no more room.
    ensures { IsOrNoMemory result (Ok (listed_from from room names.now)) }
{
    let mut out = Vec::new(alloc);
    if from < names.len() as u64 {
        for at in from as usize..names.len() {
            if !put(&names[at], at as u64 + 1, room as usize, &mut out)? {
                return Ok(Bytes::from_vec(out));
            }
        }
    }
    Ok(Bytes::from_vec(out))
}

/// Appends a name where there is room. Tells whether there was.
fn put(named: &Named, offset: u64, room: usize, out: &mut Vec<u8>) -> Result<bool, Refusal>
    requires { vec_len out.old ≤ room }
    // There is room exactly where the bytes with this name are not more.
    ensures fits { IfOk result (λ fits. fits
        ≡ nat_le (vec_len out.old + length (bytes_of_name offset named.now)) room) }
    // Where there is room the name is listed, else nothing is.
    ensures ok { IfOk result (λ fits. out.new.items
        ≡ (if fits then out.old.items ++ bytes_of_name offset named.now else out.old.items)) }
    // It is refused for want of memory alone.
    ensures err { IfErr result (λ refusal. refusal ≡ no_memory) }
{
    let name = named.name.as_slice();
    if name.len() > NAME {
        return Ok(true);
    }
    let listed = Listed {
        inode: named.node,
        offset,
        kind: named.kind,
        name,
    };
    Ok(listed.append_to(room, out)?)
}
