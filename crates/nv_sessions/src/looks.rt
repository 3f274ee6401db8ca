//! The looks of a call, before it locks.

ghost use Rattle.std.specs.Prelude.{◌<◌, IfErr, IfOk, length};
ghost use Rattle.nv_calls.specs.Looks.{directories};
ghost use Rattle.nv_calls.specs.Updates.{blank_call};
ghost use Rattle.nv_sessions.specs.Refusing.{LooksFor, MayRefuseCheck};

use crate::locked_parts::LockedParts;
use crate::names::{Blocks, Commits};
use crate::view_guards::share_at;
use nv_base::Fault;
use nv_calls::{LookupResult, Update, directory, look_at, look_count};
use std::sync::Wait;

/// What the names of a call lead to, each looked up in its directory under that inode's lock, which is held for the one
/// look alone.
///
/// The first name may be refused: `Stale`, `NotDirectory`, `BadName`, `Missing`. What is wrong with the second is told at
/// the check.
pub(crate) fn look_names<C: Commits, B: Blocks, R: Wait>(
    rt: &R,
    service: &LockedParts<C, B>,
    update: &Update,
) -> Result<LookupResult, Fault>
    ensures found { IfOk result (LooksFor update.now) }
    ensures err { IfErr result (MayRefuseCheck update.now) }
{
    let mut looked = LookupResult {
        first: None,
        second: None,
    };
    for place in 0..look_count(update) {
        looked = look_name(rt, service, update, place, &looked)?;
    }
    Ok(looked)
}

/// A look at the names of one directory, beside what was found before.
fn look_name<C: Commits, B: Blocks, R: Wait>(
    rt: &R,
    service: &LockedParts<C, B>,
    update: &Update,
    place: usize,
    before: &LookupResult,
) -> Result<LookupResult, Fault>
    requires { place < length (directories (blank_call update.now)) }
    ensures { IfErr result (MayRefuseCheck update.now) }
{
    let ino = directory(update, place).ino;
    let Some(lock) = service.inode_lock(ino) else {
        return look_at(ino, None, update, place, before);
    };
    let cell = share_at(rt, lock, ino)?;
    look_at(ino, Some(cell.part()), update, place, before)
}
