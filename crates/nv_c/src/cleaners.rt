//! Cleaners of the log of one inode.

ghost use Rattle.std.specs.Prelude.{◌≡◌, ◌<◌, ◌≤◌};
ghost use Rattle.nv_calls.specs.declared.snapshot_or_cleaner_call.SnapshotOrCleanerCall.TheVariants as on;
ghost use Rattle.nv_c.specs.Numbers.{cleaned_in};
ghost use Rattle.nv_c.specs.Worlds.{Calls, OnWorld};

use crate::held::Held;
use crate::numbers::NovaCleaned;
use crate::slot::Nova;
use crate::status::NO_WORLD;
use crate::told::tell_cleaned;
use nv_base::Ino;
use nv_calls::Call;
use std::alloc::Global;

impl Held {
    fn clean_fast(&mut self, ino: u64, out: &mut NovaCleaned) -> u32
        ensures told { Calls (Call.SnapshotOrCleaner (on.Fast ino)) result
            (cleaned_in out.new) self.old self.new }
        ensures flag { result ≡ 0 → out.new.thorough ≤ 1 }
        ensures kept { 0 < result → out.new ≡ out.old }
    {
        tell_cleaned(self.files.clean_fast(Ino::new(ino)), out)
    }

    fn clean_thorough(&mut self, ino: u64, out: &mut NovaCleaned) -> u32
        ensures told { Calls (Call.SnapshotOrCleaner (on.Thorough ino)) result
            (cleaned_in out.new) self.old self.new }
        ensures flag { result ≡ 0 → out.new.thorough ≤ 1 }
        ensures kept { 0 < result → out.new ≡ out.old }
    {
        tell_cleaned(self.files.clean_thorough(Ino::new(ino)), out)
    }

    fn clean_auto(&mut self, ino: u64, out: &mut NovaCleaned) -> u32
        ensures told { Calls (Call.SnapshotOrCleaner (on.Auto ino)) result
            (cleaned_in out.new) self.old self.new }
        ensures flag { result ≡ 0 → out.new.thorough ≤ 1 }
        ensures kept { 0 < result → out.new ≡ out.old }
    {
        tell_cleaned(self.files.clean_auto(Ino::new(ino)), out)
    }
}

/// Unlinks the log pages of which nothing is needed.
#[unsafe(no_mangle)]
pub extern "C" fn nova_clean_fast(
    alloc: Global,
    nova: &mut Nova,
    ino: u64,
    out: &mut NovaCleaned,
) -> u32
    // The status tells what the world with numbers tells of a `clean_fast`, and what it did.
    ensures told { OnWorld nova.old.world.held nova.new.world.held result
        (Calls (Call.SnapshotOrCleaner (on.Fast ino)) result (cleaned_in out.new)) }
    // It says 1 for the thorough cleaning and 0 for the fast one.
    ensures flag { result ≡ 0 → out.new.thorough ≤ 1 }
    // A call that is refused leaves the other places as they were.
    ensures kept { 0 < result → out.new ≡ out.old }
{
    let Some(mut held) = nova.take(alloc) else {
        return NO_WORLD;
    };
    let status = held.clean_fast(ino, out);
    nova.fill(held);
    status
}

/// Moves the entries that are needed to as few log pages as they fill, which it takes first.
#[unsafe(no_mangle)]
pub extern "C" fn nova_clean_thorough(
    alloc: Global,
    nova: &mut Nova,
    ino: u64,
    out: &mut NovaCleaned,
) -> u32
    // The status tells what the world with numbers tells of a `clean_thorough`, and what it did.
    ensures told { OnWorld nova.old.world.held nova.new.world.held result
        (Calls (Call.SnapshotOrCleaner (on.Thorough ino)) result (cleaned_in out.new)) }
    // It says 1 for the thorough cleaning and 0 for the fast one.
    ensures flag { result ≡ 0 → out.new.thorough ≤ 1 }
    // A call that is refused leaves the other places as they were.
    ensures kept { 0 < result → out.new ≡ out.old }
{
    let Some(mut held) = nova.take(alloc) else {
        return NO_WORLD;
    };
    let status = held.clean_thorough(ino, out);
    nova.fill(held);
    status
}

/// Cleans thoroughly where less than half of the entries are needed, and else fast.
#[unsafe(no_mangle)]
pub extern "C" fn nova_clean_auto(
    alloc: Global,
    nova: &mut Nova,
    ino: u64,
    out: &mut NovaCleaned,
) -> u32
    // The status tells what the world with numbers tells of a `clean_auto`, and what it did.
    ensures told { OnWorld nova.old.world.held nova.new.world.held result
        (Calls (Call.SnapshotOrCleaner (on.Auto ino)) result (cleaned_in out.new)) }
    // It says 1 for the thorough cleaning and 0 for the fast one.
    ensures flag { result ≡ 0 → out.new.thorough ≤ 1 }
    // A call that is refused leaves the other places as they were.
    ensures kept { 0 < result → out.new ≡ out.old }
{
    let Some(mut held) = nova.take(alloc) else {
        return NO_WORLD;
    };
    let status = held.clean_auto(ino, out);
    nova.fill(held);
    status
}
