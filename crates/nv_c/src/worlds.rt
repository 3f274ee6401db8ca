//! Worlds are made and ended.

ghost use Rattle.std.specs.Prelude.{◌≡◌, None};
ghost use Rattle.nv_c.specs.Numbers.{geometry_in};
ghost use Rattle.nv_c.specs.Worlds.{IsNew};

use crate::held::Held;
use crate::numbers::NovaGeometry;
use crate::slot::Nova;
use crate::status::{DONE, number_of};
use std::alloc::Global;

/// Makes a world with the root alone. It ends the world that was there before, once the new one is made.
#[unsafe(no_mangle)]
pub extern "C" fn nova_new(alloc: Global, geometry: &NovaGeometry, out: &mut Nova) -> u32
    // A new world has the root alone. Numbers out of their limits are refused, and else memory may be; then what was there stays.
    ensures { IsNew (geometry_in geometry.now) result out.old.world.held out.new.world.held }
{
    match Held::new(alloc, geometry) {
        Ok(held) => {
            let _ended = out.take(alloc);
            out.fill(held);
            DONE
        }
        Err(fault) => number_of(&fault),
    }
}

/// Ends a world, if there is one.
#[unsafe(no_mangle)]
pub extern "C" fn nova_end(alloc: Global, nova: &mut Nova)
    // There is none then.
    ensures { nova.new.world.held ≡ None }
{
    let _ended = nova.take(alloc);
}
