//! The words of an event's line.

ghost use Rattle.std.specs.Prelude.{◌≡◌, ◌++◌, OnOk};
ghost use Rattle.nv_core.specs.NextSteps.{name_in};
ghost use Rattle.nv_core.specs.Worlds.{reply_of};
ghost use Rattle.nv_script.specs.Trace.{labelled, reply_text, reply_word, step_place, step_word};

use nv_core::{Reply, StepName};
use nv_script::text::push_labelled;
use std::alloc::AllocError;

/// The word of a step.
pub(crate) fn step_word(name: StepName) -> &'static [u8]
    ensures { result.now ≡ step_word (name_in name) }
{
    match name {
        StepName::Number => b"number",
        StepName::Look(_) => b"look",
        StepName::Lock(_) => b"lock",
        StepName::Check => b"check",
        StepName::TakeBlocks(_) => b"take_blocks",
        StepName::TakeLogPages(_) => b"take_log_pages",
        StepName::Ready => b"ready",
        StepName::Enter => b"enter",
        StepName::Append(_) => b"append",
        StepName::Open(_) => b"open",
        StepName::Publish(_) => b"publish",
        StepName::Close(_) => b"close",
        StepName::Retire(_) => b"retire",
        StepName::Leave => b"leave",
        StepName::Unlock(_) => b"unlock",
        StepName::Give(_) => b"give",
        StepName::ReturnNumber => b"return_number",
        StepName::Visit(_) => b"visit",
        StepName::Make => b"make",
        StepName::Drop => b"drop",
        StepName::Pin => b"pin",
        StepName::Show(_) => b"show",
        StepName::Unpin => b"unpin",
        StepName::Pick => b"pick",
        StepName::LockPicked(_) => b"lock_picked",
        StepName::Release(_) => b"release",
        StepName::LockCleaned(_) => b"lock_cleaned",
        StepName::PlanCleaning => b"plan_cleaning",
        StepName::Fresh(_) => b"fresh",
        StepName::Unlink(_) => b"unlink",
        StepName::Compact(_) => b"compact",
    }
}

/// The inode slot, the CPU or the directory of a step.
pub(crate) fn step_place(name: StepName) -> Option<u64>
    ensures { result ≡ step_place (name_in name) }
{
    match name {
        StepName::Look(ino)
        | StepName::Lock(ino)
        | StepName::Append(ino)
        | StepName::Publish(ino)
        | StepName::Retire(ino)
        | StepName::Unlock(ino)
        | StepName::Visit(ino)
        | StepName::Show(ino)
        | StepName::LockPicked(ino)
        | StepName::Release(ino)
        | StepName::LockCleaned(ino)
        | StepName::Unlink(ino)
        | StepName::Compact(ino) => Some(ino.number()),
        StepName::TakeBlocks(cpu)
        | StepName::TakeLogPages(cpu)
        | StepName::Open(cpu)
        | StepName::Close(cpu)
        | StepName::Give(cpu)
        | StepName::Fresh(cpu) => Some(cpu),
        StepName::Number
        | StepName::Check
        | StepName::Ready
        | StepName::Enter
        | StepName::Leave
        | StepName::ReturnNumber
        | StepName::Make
        | StepName::Drop
        | StepName::Pin
        | StepName::Unpin
        | StepName::Pick
        | StepName::PlanCleaning => None,
    }
}

/// Adds a number behind a label, where there is one.
pub(crate) fn push_optional(
    out: &mut Vec<u8>,
    label: &[u8],
    number: Option<u64>,
) -> Result<(), AllocError>
    ensures { OnOk result (out.new.items ≡ out.old.items ++ labelled label.now number) }
{
    match number {
        Some(number) => push_labelled(out, label, number),
        None => Ok(()),
    }
}

/// The word of a reply to a step.
pub(crate) fn reply_word(reply: &Reply) -> &'static [u8]
    ensures { result.now ≡ reply_word (reply_of reply.now) }
{
    match reply {
        Reply::Started => b"started",
        Reply::Moved => b"moved",
        Reply::Waits | Reply::Stopped => b"waits",
        Reply::Done(_) => b"done",
        Reply::Refused(_) => b"refused",
    }
}

/// Adds the reply to a step, and the actor that a waiting one waits for.
pub(crate) fn push_replied(
    out: &mut Vec<u8>,
    reply: &Reply,
    holder: Option<u64>,
) -> Result<(), AllocError>
    ensures { OnOk result (out.new.items
        ≡ out.old.items ++ reply_text (reply_of reply.now) holder) }
{
    match reply {
        Reply::Started => out.extend_from_slice(b"start"),
        Reply::Moved => out.extend_from_slice(b"moved"),
        Reply::Waits | Reply::Stopped => {
            out.extend_from_slice(b"waits")?;
            push_optional(out, b" ", holder)
        }
        Reply::Done(_) => out.extend_from_slice(b"done"),
        Reply::Refused(_) => out.extend_from_slice(b"refused"),
    }
}
