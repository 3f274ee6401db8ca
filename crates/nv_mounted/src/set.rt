//! Attributes that are set.

ghost use Rattle.std.specs.Prelude.{◌≡◌};
ghost use Rattle.nv_mounted.specs.Dialogues.{IsHad};
ghost use Rattle.nv_mounted.specs.Sets.{beside_set, beside_sized, mode_set_back, set_attributes, set_mode, set_size, sets_mode, sets_node, sets_size, touched_set};
ghost use Rattle.nv_mounted.specs.Side.{Does};

use crate::asks::{ask_done, ask_shape};
use crate::make::permissions;
use crate::mount::Mount;
use crate::side::Side;
use crate::world::Core;
use nv_base::{Fault, Handle, Mode};
use nv_calls::Call;
use nv_fuse::SetAttributes;
use nv_mount_answers::Time;
use nv_mount_beside::{Beside, Outcome, Refusal, attributes, node};

/// The bits of what is set in the world: mode and size.
const MODE: u32 = 1;

const SIZE: u32 = 8;

/// Whether the mode is to be set.
fn sets_mode(set: &SetAttributes) -> bool
    ensures { result ≡ sets_mode set.now }
{
    set.valid & MODE != 0
}

/// Whether the size is to be set.
fn sets_size(set: &SetAttributes) -> bool
    ensures { result ≡ sets_size set.now }
{
    set.valid & SIZE != 0
}

/// Whether mode or size is to be set, which is a change of the node in the world.
fn sets_node(set: &SetAttributes) -> bool
    ensures { result ≡ sets_node set.now }
{
    sets_mode(set) || sets_size(set)
}

/// Sets the mode of a node, if it is to be set.
fn set_mode<C: Core>(core: &mut C, handle: &Handle, set: &SetAttributes) -> Result<(), Refusal>
    // One call sets it.
    ensures { IsHad C.Tells (set_mode handle.now set.now) core.old result core.new }
{
    if sets_mode(set) {
        let handle = *handle;
        let mode = permissions(set.mode)?;
        return ask_done(core, Call::Mode { handle, mode });
    }
    Ok(())
}

/// Sets a mode that was set back to what it was, since the size was refused.
fn set_mode_back<C: Core>(
    core: &mut C,
    handle: &Handle,
    set: &SetAttributes,
    mode: Mode,
    fault: Fault,
) -> Result<(), Refusal>
    // Whatever that is answered, the refusal is that of the size.
    ensures { IsHad C.Tells (mode_set_back handle.now set.now mode fault)
        core.old result core.new }
{
    if sets_mode(set) {
        let handle = *handle;
        let _back = core.call(Call::Mode { handle, mode });
        return Err(Refusal::Fault(fault));
    }
    Err(Refusal::Fault(fault))
}

/// Sets the size of a file, if it is to be set. Where that is refused, the mode is set back.
fn set_size<C: Core>(
    core: &mut C,
    file: &Handle,
    set: &SetAttributes,
    mode: Mode,
) -> Result<(), Refusal>
    // One call sets it, and its refusal is handed on once the mode is as it was.
    ensures { IsHad C.Tells (set_size file.now set.now mode) core.old result core.new }
{
    if sets_size(set) {
        let size = set.size;
        return match core.call(Call::Size { file: *file, size }) {
            Ok(_) => Ok(()),
            Err(fault) => set_mode_back(core, file, set, mode, fault),
        };
    }
    Ok(())
}

/// What stands beside a node once its size was set, if it was to be set.
fn beside_sized(now: Time, set: &SetAttributes, beside: Beside) -> Beside
    // Another size is a change.
    ensures { result ≡ beside_sized now set.now beside }
{
    if sets_size(set) {
        return beside.changed(now);
    }
    beside
}

/// What stands beside a node once attributes were set.
fn beside_set(now: Time, set: &SetAttributes, beside: Beside) -> Beside
    // Another mode or size is counted. Times and owners are those that were set.
    ensures { result ≡ beside_set now set.now beside }
{
    let kept = beside_sized(now, set, beside).kept.after(now, set);
    if sets_node(set) {
        return beside.changed(now).with_kept(kept);
    }
    beside.with_kept(kept)
}

/// A node whose mode or size was set has changed.
fn touch_set(side: &mut Side, now: Time, handle: &Handle, set: &SetAttributes)
    // Without another mode or size nothing changes.
    ensures { side.new ≡ touched_set now handle.now set.now side.old }
{
    if sets_node(set) {
        side.touch(now, handle);
    }
}

impl<C: Core> Mount<C> {
    /// Sets the attributes of a node. The size comes behind the mode, so that nothing is cut where one of them is
    /// refused; a mode that was set is set back then, which the world may refuse too.
    pub(crate) fn set_attributes(
        &mut self,
        now: Time,
        number: u64,
        set: &SetAttributes,
    ) -> Result<Outcome, Refusal>
        // Mode and size are set in the world, times and owners beside it.
        ensures { Does C.Tells (set_attributes self.old.side now number set.now)
            self.old.core self.old.side result self.new.core self.new.side }
    {
        let handle = node(number)?;
        let before = ask_shape(&mut self.core, &handle)?;
        set_mode(&mut self.core, &handle, set)?;
        set_size(&mut self.core, &handle, set, before.mode)?;
        let shape = ask_shape(&mut self.core, &handle)?;
        let beside = beside_set(now, set, self.side.at(&handle));
        let attributes = attributes(number, shape, beside.kept, beside.nameless)?;
        touch_set(&mut self.side, now, &handle, set);
        self.side.put(&handle, beside);
        Ok(Outcome::Node(attributes))
    }
}
