//! What the world and what stands beside it tell of a node.

ghost use Rattle.nv_mounted.specs.Dialogues.{IsHad};
ghost use Rattle.nv_mounted.specs.Talks.{ask_attributes};

use crate::asks::ask_shape;
use crate::side::Side;
use crate::world::Core;
use nv_base::Handle;
use nv_fuse::Attributes;
use nv_mount_beside::{Refusal, attributes, number};

/// The attributes of a node.
pub(crate) fn ask_attributes<C: Core>(
    core: &mut C,
    side: &Side,
    handle: &Handle,
) -> Result<Attributes, Refusal>
    // The world tells kind, mode and size. Times, owners and whether it has a name stand beside it.
    ensures { IsHad C.Tells (ask_attributes side.now handle.now) core.old result core.new }
{
    let node = number(handle)?;
    let shape = ask_shape(core, handle)?;
    let beside = side.at(handle);
    attributes(node, shape, beside.kept, beside.nameless)
}
