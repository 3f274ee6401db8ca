//! What a world reports of itself.

ghost use Rattle.std.specs.Prelude.{◌≡◌, None};
ghost use Rattle.nv_c.specs.Worlds.{Audits, OnWorld, ReportsSpace};

use crate::held::Held;
use crate::numbers::NovaBlocks;
use crate::slot::Nova;
use crate::status::{DONE, NO_WORLD, number_of};
use std::alloc::Global;

impl Held {
    fn space(&self, out: &mut NovaBlocks)
        ensures { ReportsSpace self.now out.new }
    {
        *out = NovaBlocks::of(self.files.world().space());
    }

    fn audit(&self) -> u32
        ensures { Audits result self.now }
    {
        match self.files.world().audit() {
            Ok(_) => DONE,
            Err(fault) => number_of(&fault),
        }
    }
}

/// Tells where the blocks are. Takes no memory.
#[unsafe(no_mangle)]
pub extern "C" fn nova_space(alloc: Global, nova: &mut Nova, out: &mut NovaBlocks) -> u32
    // The five numbers are those that one scan counts.
    ensures told { OnWorld nova.old.world.held nova.new.world.held result
        (λ old new. (new ≡ old) × (result ≡ 0) × ReportsSpace old out.new) }
    // Where there is no world, the place stays.
    ensures none { nova.old.world.held ≡ None → out.new ≡ out.old }
{
    let Some(held) = nova.take(alloc) else {
        return NO_WORLD;
    };
    held.space(out);
    nova.fill(held);
    DONE
}

/// Judges the world as it stands against one scan of all logs.
#[unsafe(no_mangle)]
pub extern "C" fn nova_audit(alloc: Global, nova: &mut Nova) -> u32
    // The world is consistent, and memory alone is refused.
    ensures { OnWorld nova.old.world.held nova.new.world.held result
        (λ old new. (new ≡ old) × Audits result old) }
{
    let Some(held) = nova.take(alloc) else {
        return NO_WORLD;
    };
    let status = held.audit();
    nova.fill(held);
    status
}
