//! The names of a directory are listed, and told one by one.

ghost use Rattle.std.specs.Prelude.{◌≡◌, ◌<◌, None};
ghost use Rattle.nv_c.specs.Numbers.{handle_in};
ghost use Rattle.nv_c.specs.Worlds.{Lists, OnWorld};
ghost use Rattle.nv_c.specs.Bytes.{TellsName};

use crate::bytes::put_bytes;
use crate::held::Held;
use crate::numbers::NovaHandle;
use crate::slot::Nova;
use crate::status::{DONE, NO_PLACE, NO_WORLD, number_of};
use std::alloc::Global;

impl Held {
    fn list(&mut self, dir: NovaHandle, count: &mut usize) -> u32
        ensures told { Lists (handle_in dir) result count.new self.old self.new }
        ensures kept { 0 < result → count.new ≡ count.old }
    {
        match self.files.list(dir.handle()) {
            Ok(names) => {
                *count = names.len();
                self.listed = names;
                DONE
            }
            Err(fault) => number_of(&fault),
        }
    }

    fn tell_listed(&self, place: usize, into: &mut [u8], len: &mut usize) -> u32
        ensures { TellsName self.now.listed place result into.old into.new len.old len.new }
    {
        match self.listed.as_slice().get(place) {
            Some(bound) => put_bytes(bound.name.bytes(), into, len),
            None => NO_PLACE,
        }
    }
}

/// Lists the names of a directory in the order in which they were bound. They stay until the next list.
#[unsafe(no_mangle)]
pub extern "C" fn nova_list(
    alloc: Global,
    nova: &mut Nova,
    dir: NovaHandle,
    count: &mut usize,
) -> u32
    // The status tells what the world with numbers tells of a `list`, and how many names it has.
    ensures told { OnWorld nova.old.world.held nova.new.world.held result
        (Lists (handle_in dir) result count.new) }
    // A call that is refused leaves the count as it was.
    ensures kept { 0 < result → count.new ≡ count.old }
{
    let Some(mut held) = nova.take(alloc) else {
        return NO_WORLD;
    };
    let status = held.list(dir, count);
    nova.fill(held);
    status
}

/// Tells a name of those that were listed last, by its place from 0, and its length. Takes no memory.
#[unsafe(no_mangle)]
pub extern "C" fn nova_listed(
    alloc: Global,
    nova: &mut Nova,
    place: usize,
    into: &mut [u8],
    len: &mut usize,
) -> u32
    // The name stands in front, or the buffer is too short, or fewer names were listed.
    ensures told { OnWorld nova.old.world.held nova.new.world.held result (λ old new. (new ≡ old)
        × TellsName old.listed place result into.old into.new len.old len.new) }
    // Where there is no world, both places stay.
    ensures none { nova.old.world.held ≡ None → (into.new ≡ into.old) × (len.new ≡ len.old) }
{
    let Some(held) = nova.take(alloc) else {
        return NO_WORLD;
    };
    let status = held.tell_listed(place, into, len);
    nova.fill(held);
    status
}
