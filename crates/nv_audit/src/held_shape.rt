//! Whether a log of which a snapshot holds something is lawful from nothing on.

ghost use Rattle.std.specs.Prelude.{◌≡◌, ◌↔◌, IfOk, IsTrue};
ghost use Rattle.std.specs.List.{list_any};
ghost use Rattle.nv_base.specs.Refusals.{FailsOnly};
ghost use Rattle.nv_base.specs.Memory.{out_of_memory};
ghost use Rattle.nv_entry.specs.Held.{is_held};
ghost use Rattle.nv_entry.specs.Log.{pairs};
ghost use Rattle.nv_audit.specs.LogShape.{IsHeldLawful};

use crate::are_lawful_from;
use crate::deaths::deaths_in;
use crate::logged::Logged;
use crate::mounted::hold_any;
use nv_base::{Epoch, Fault};
use std::alloc::Global;

/// Whether a log is lawful from nothing on, where one of these snapshots holds a part of it: a cleaner takes the first
/// entry of a gone inode out only where none does. Costs one pass over the log, and where it is not lawful so what it
/// costs to tell when its parts died.
pub(crate) fn is_held_lawful(
    alloc: Global,
    snapshots: &[Epoch],
    logged: &Logged<'_>,
) -> Result<bool, Fault>
    ensures ok { IfOk result (λ is. IsTrue is
        ↔ IsHeldLawful logged.now.block snapshots.now logged.now.log) }
    ensures err { FailsOnly out_of_memory result }
{
    if are_lawful_from(logged.block_bytes(), logged.log(), None) {
        return Ok(true);
    }
    let held = is_held(alloc, snapshots, logged)?;
    Ok(!held)
}

/// Whether one of these snapshots holds a part of a log.
fn is_held(alloc: Global, snapshots: &[Epoch], logged: &Logged<'_>) -> Result<bool, Fault>
    ensures ok { IfOk result (λ is. is
        ≡ list_any (is_held snapshots.now) (pairs logged.now.block logged.now.log)) }
    ensures err { FailsOnly out_of_memory result }
{
    let deaths = deaths_in(alloc, logged)?;
    Ok(hold_any(snapshots, logged, &deaths))
}
