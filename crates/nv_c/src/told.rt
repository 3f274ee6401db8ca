//! What C is told of an outcome: a status, and what stands in its places then.

ghost use Rattle.std.specs.Prelude.{◌≡◌, ◌<◌, ◌≤◌};
ghost use Rattle.nv_calls.specs.declared.answer.Answer.TheVariants as answers;
ghost use Rattle.nv_core.specs.Worlds.{WorldState};
ghost use Rattle.nv_files.specs.Stands.{Leads};
ghost use Rattle.nv_files.specs.Told.{IsTold, IsToldOrStarved};
ghost use Rattle.nv_c.specs.Numbers.{cleaned_in, handle_in, stat_in};
ghost use Rattle.nv_c.specs.Status.{Tells, TellsOrStarved};

use crate::numbers::{NovaCleaned, NovaHandle, NovaNode};
use crate::status::{DONE, number_of};
use nv_base::{Epoch, Fault, Handle};
use nv_calls::{Answer, Call};
use nv_clean::Cleaned;
use nv_files::Stat;

/// Tells that a call is done.
pub(crate) fn tell_done(outcome: Result<(), Fault>) -> u32
    ensures told { (c : Call) (answer : Answer) (old new : WorldState)
        → Leads (IsTold c outcome (λ _. answer)) old new → Leads (Tells c result answer) old new }
    ensures starved { (c : Call) (answer : Answer) (old new : WorldState)
        → Leads (IsToldOrStarved c outcome (λ _. answer)) old new
        → Leads (TellsOrStarved c result answer) old new }
{
    match outcome {
        Ok(()) => DONE,
        Err(fault) => number_of(&fault),
    }
}

/// Tells a handle.
pub(crate) fn tell_handle(outcome: Result<Handle, Fault>, out: &mut NovaHandle) -> u32
    ensures told { (c : Call) (old new : WorldState)
        → Leads (IsToldOrStarved c outcome (λ handle. answers.Made handle)) old new
        → Leads (TellsOrStarved c result (answers.Made (handle_in out.new))) old new }
    ensures kept { 0 < result → out.new ≡ out.old }
{
    match outcome {
        Ok(handle) => {
            *out = NovaHandle::of(handle);
            DONE
        }
        Err(fault) => number_of(&fault),
    }
}

/// Tells a count of records.
pub(crate) fn tell_count(outcome: Result<u64, Fault>, out: &mut u64) -> u32
    ensures told { (c : Call) (old new : WorldState)
        → Leads (IsToldOrStarved c outcome (λ count. answers.Count count)) old new
        → Leads (TellsOrStarved c result (answers.Count out.new)) old new }
    ensures kept { 0 < result → out.new ≡ out.old }
{
    match outcome {
        Ok(count) => {
            *out = count;
            DONE
        }
        Err(fault) => number_of(&fault),
    }
}

/// Tells the number of a snapshot.
pub(crate) fn tell_snapshot(outcome: Result<Epoch, Fault>, out: &mut u64) -> u32
    ensures told { (c : Call) (old new : WorldState)
        → Leads (IsTold c outcome (λ snapshot. answers.Snapshot snapshot)) old new
        → Leads (Tells c result (answers.Snapshot out.new)) old new }
    ensures kept { 0 < result → out.new ≡ out.old }
{
    match outcome {
        Ok(snapshot) => {
            *out = snapshot.number();
            DONE
        }
        Err(fault) => number_of(&fault),
    }
}

/// Tells what a node is.
pub(crate) fn tell_node(outcome: Result<Stat, Fault>, out: &mut NovaNode) -> u32
    ensures told { (c : Call) (old new : WorldState)
        → Leads (IsTold c outcome
        (λ stat. answers.Stat stat.kind stat.mode stat.size stat.commit)) old new
        → Leads (Tells c result (stat_in out.new)) old new }
    ensures kind { result ≡ 0 → (1 ≤ out.new.kind) × (out.new.kind ≤ 2) }
    ensures kept { 0 < result → out.new ≡ out.old }
{
    match outcome {
        Ok(stat) => {
            *out = NovaNode::of_stat(stat);
            DONE
        }
        Err(fault) => number_of(&fault),
    }
}

/// Tells what a cleaner did.
pub(crate) fn tell_cleaned(outcome: Result<Cleaned, Fault>, out: &mut NovaCleaned) -> u32
    ensures told { (c : Call) (old new : WorldState)
        → Leads (IsToldOrStarved c outcome
        (λ done. answers.Cleaned done.thorough done.entries done.pages)) old new
        → Leads (TellsOrStarved c result (cleaned_in out.new)) old new }
    ensures flag { result ≡ 0 → out.new.thorough ≤ 1 }
    ensures kept { 0 < result → out.new ≡ out.old }
{
    match outcome {
        Ok(cleaned) => {
            *out = NovaCleaned::of(cleaned);
            DONE
        }
        Err(fault) => number_of(&fault),
    }
}
