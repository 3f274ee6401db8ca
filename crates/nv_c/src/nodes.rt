//! Calls on nodes and their names.

ghost use Rattle.std.specs.Prelude.{◌≡◌, ◌<◌, ◌≤◌};
ghost use Rattle.nv_calls.specs.declared.answer.Answer.TheVariants as answers;
ghost use Rattle.nv_c.specs.Numbers.{handle_in, stat_in};
ghost use Rattle.nv_c.specs.Worlds.{Calls, CallsSurely, OnWorld, WithMode};

use crate::held::Held;
use crate::numbers::{NovaHandle, NovaNode, mode_of};
use crate::slot::Nova;
use crate::status::{BAD_MODE, NO_WORLD};
use crate::told::{tell_done, tell_handle, tell_node};
use nv_calls::{Answer, Call};
use std::alloc::Global;

impl Held {
    fn create(&mut self, dir: NovaHandle, name: &[u8], mode: u32, made: &mut NovaHandle) -> u32
        ensures told { WithMode mode result
            (Calls (Call.Create (handle_in dir) name.now mode) result
            (answers.Made (handle_in made.new)))
            self.old self.new }
        ensures kept { 0 < result → made.new ≡ made.old }
    {
        let Some(mode) = mode_of(mode) else {
            return BAD_MODE;
        };
        tell_handle(self.files.create(dir.handle(), name, mode), made)
    }

    fn mkdir(&mut self, dir: NovaHandle, name: &[u8], mode: u32, made: &mut NovaHandle) -> u32
        ensures told { WithMode mode result
            (Calls (Call.Mkdir (handle_in dir) name.now mode) result
            (answers.Made (handle_in made.new)))
            self.old self.new }
        ensures kept { 0 < result → made.new ≡ made.old }
    {
        let Some(mode) = mode_of(mode) else {
            return BAD_MODE;
        };
        tell_handle(self.files.mkdir(dir.handle(), name, mode), made)
    }

    fn lookup(&mut self, dir: NovaHandle, name: &[u8], found: &mut NovaHandle) -> u32
        ensures told { Calls (Call.Lookup (handle_in dir) name.now) result
            (answers.Made (handle_in found.new)) self.old self.new }
        ensures kept { 0 < result → found.new ≡ found.old }
    {
        tell_handle(self.files.lookup(dir.handle(), name), found)
    }

    fn mode(&mut self, node: NovaHandle, mode: u32) -> u32
        ensures told { WithMode mode result
            (Calls (Call.Mode (handle_in node) mode) result
            (answers.Nothing))
            self.old self.new }
    {
        let Some(mode) = mode_of(mode) else {
            return BAD_MODE;
        };
        tell_done(self.files.mode(node.handle(), mode))
    }

    fn stat(&mut self, node: NovaHandle, out: &mut NovaNode) -> u32
        ensures told { CallsSurely (Call.Stat (handle_in node)) result
            (stat_in out.new) self.old self.new }
        ensures kind { result ≡ 0 → (1 ≤ out.new.kind) × (out.new.kind ≤ 2) }
        ensures kept { 0 < result → out.new ≡ out.old }
    {
        tell_node(self.files.stat(node.handle()), out)
    }

    fn unlink(&mut self, dir: NovaHandle, name: &[u8]) -> u32
        ensures told { Calls (Call.Unlink (handle_in dir) name.now) result
            (answers.Nothing) self.old self.new }
    {
        tell_done(self.files.unlink(dir.handle(), name))
    }

    fn rmdir(&mut self, dir: NovaHandle, name: &[u8]) -> u32
        ensures told { Calls (Call.Rmdir (handle_in dir) name.now) result
            (answers.Nothing) self.old self.new }
    {
        tell_done(self.files.rmdir(dir.handle(), name))
    }

    fn rename(&mut self, from: NovaHandle, name: &[u8], to: NovaHandle, new_name: &[u8]) -> u32
        ensures told { Calls
            (Call.Rename (handle_in from) name.now (handle_in to) new_name.now) result
            (answers.Nothing) self.old self.new }
    {
        tell_done(
            self.files
                .rename(from.handle(), name, to.handle(), new_name),
        )
    }
}

/// Makes an empty file in a directory.
#[unsafe(no_mangle)]
pub extern "C" fn nova_create(
    alloc: Global,
    nova: &mut Nova,
    dir: NovaHandle,
    name: &[u8],
    mode: u32,
    made: &mut NovaHandle,
) -> u32
    // A mode of more than 12 bits is refused. Else the status tells what the world with numbers tells of a `create`, and the handle.
    ensures told { OnWorld nova.old.world.held nova.new.world.held result
        (WithMode mode result
        (Calls (Call.Create (handle_in dir) name.now mode) result
        (answers.Made (handle_in made.new)))) }
    // A call that is refused leaves the other places as they were.
    ensures kept { 0 < result → made.new ≡ made.old }
{
    let Some(mut held) = nova.take(alloc) else {
        return NO_WORLD;
    };
    let status = held.create(dir, name, mode, made);
    nova.fill(held);
    status
}

/// Makes an empty directory in a directory.
#[unsafe(no_mangle)]
pub extern "C" fn nova_mkdir(
    alloc: Global,
    nova: &mut Nova,
    dir: NovaHandle,
    name: &[u8],
    mode: u32,
    made: &mut NovaHandle,
) -> u32
    // The same of a `mkdir`.
    ensures told { OnWorld nova.old.world.held nova.new.world.held result
        (WithMode mode result
        (Calls (Call.Mkdir (handle_in dir) name.now mode) result
        (answers.Made (handle_in made.new)))) }
    // A call that is refused leaves the other places as they were.
    ensures kept { 0 < result → made.new ≡ made.old }
{
    let Some(mut held) = nova.take(alloc) else {
        return NO_WORLD;
    };
    let status = held.mkdir(dir, name, mode, made);
    nova.fill(held);
    status
}

/// Finds what a directory binds a name to.
#[unsafe(no_mangle)]
pub extern "C" fn nova_lookup(
    alloc: Global,
    nova: &mut Nova,
    dir: NovaHandle,
    name: &[u8],
    found: &mut NovaHandle,
) -> u32
    // The status tells what the world with numbers tells of a `lookup`, and the handle.
    ensures told { OnWorld nova.old.world.held nova.new.world.held result
        (Calls (Call.Lookup (handle_in dir) name.now) result (answers.Made (handle_in found.new))) }
    // A call that is refused leaves the other places as they were.
    ensures kept { 0 < result → found.new ≡ found.old }
{
    let Some(mut held) = nova.take(alloc) else {
        return NO_WORLD;
    };
    let status = held.lookup(dir, name, found);
    nova.fill(held);
    status
}

/// Sets the mode of a node.
#[unsafe(no_mangle)]
pub extern "C" fn nova_mode(alloc: Global, nova: &mut Nova, node: NovaHandle, mode: u32) -> u32
    // A mode of more than 12 bits is refused. Else the status tells what the world with numbers tells of a `mode`.
    ensures told { OnWorld nova.old.world.held nova.new.world.held result
        (WithMode mode result (Calls (Call.Mode (handle_in node) mode) result (answers.Nothing))) }
{
    let Some(mut held) = nova.take(alloc) else {
        return NO_WORLD;
    };
    let status = held.mode(node, mode);
    nova.fill(held);
    status
}

/// Tells a node's kind, mode, size and last commit. Takes no memory.
#[unsafe(no_mangle)]
pub extern "C" fn nova_stat(
    alloc: Global,
    nova: &mut Nova,
    node: NovaHandle,
    out: &mut NovaNode,
) -> u32
    // The status tells what the world with numbers tells of a `stat`, and what the node is.
    ensures told { OnWorld nova.old.world.held nova.new.world.held result
        (CallsSurely (Call.Stat (handle_in node)) result (stat_in out.new)) }
    // The kind is 1 for a file and 2 for a directory.
    ensures kind { result ≡ 0 → (1 ≤ out.new.kind) × (out.new.kind ≤ 2) }
    // A call that is refused leaves the other places as they were.
    ensures kept { 0 < result → out.new ≡ out.old }
{
    let Some(mut held) = nova.take(alloc) else {
        return NO_WORLD;
    };
    let status = held.stat(node, out);
    nova.fill(held);
    status
}

/// Takes a file's name out of a directory; the file goes.
#[unsafe(no_mangle)]
pub extern "C" fn nova_unlink(alloc: Global, nova: &mut Nova, dir: NovaHandle, name: &[u8]) -> u32
    // The status tells what the world with numbers tells of an `unlink`.
    ensures told { OnWorld nova.old.world.held nova.new.world.held result
        (Calls (Call.Unlink (handle_in dir) name.now) result (answers.Nothing)) }
{
    let Some(mut held) = nova.take(alloc) else {
        return NO_WORLD;
    };
    let status = held.unlink(dir, name);
    nova.fill(held);
    status
}

/// Takes the name of an empty directory out of a directory; the empty directory goes.
#[unsafe(no_mangle)]
pub extern "C" fn nova_rmdir(alloc: Global, nova: &mut Nova, dir: NovaHandle, name: &[u8]) -> u32
    // The same of an `rmdir`.
    ensures told { OnWorld nova.old.world.held nova.new.world.held result
        (Calls (Call.Rmdir (handle_in dir) name.now) result (answers.Nothing)) }
{
    let Some(mut held) = nova.take(alloc) else {
        return NO_WORLD;
    };
    let status = held.rmdir(dir, name);
    nova.fill(held);
    status
}

/// Gives a node another name, in the same directory or in another. A file at the new name goes.
#[unsafe(no_mangle)]
pub extern "C" fn nova_rename(
    alloc: Global,
    nova: &mut Nova,
    from: NovaHandle,
    name: &[u8],
    to: NovaHandle,
    new_name: &[u8],
) -> u32
    // The same of a `rename`.
    ensures told { OnWorld nova.old.world.held nova.new.world.held result
        (Calls (Call.Rename (handle_in from) name.now (handle_in to) new_name.now) result
        (answers.Nothing)) }
{
    let Some(mut held) = nova.take(alloc) else {
        return NO_WORLD;
    };
    let status = held.rename(from, name, to, new_name);
    nova.fill(held);
    status
}
