//! Calls by name, and the one that an actor runs.

ghost use Rattle.std.specs.Prelude.{◌≡◌, None, Some, option_map};
ghost use Rattle.nv_calls.specs.declared.call.Call.{Call};
ghost use Rattle.nv_machine.specs.World as machine;
ghost use Rattle.nv_machine.specs.World.{actor_at};
ghost use Rattle.nv_core.specs.CallNames.{call_name, name_on};
ghost use Rattle.nv_core.specs.GhostCalls.{IsRequestOf};
ghost use Rattle.nv_core.specs.Worlds.{Shows, ShowsCall};

use crate::request::{PendingAnswer, Request};
use crate::running::Running;
use crate::world::{Actor, World};
use nv_calls::{Call, SnapshotOrCleanerCall};

/// A call by its name.
#[derive(Clone, Copy, Debug, PartialEq, Eq)]
pub enum CallName {
    Create,
    Mkdir,
    Write,
    Read,
    Size,
    Mode,
    Stat,
    List,
    Lookup,
    Unlink,
    Rmdir,
    Rename,
    Snap,
    Drop,
    Show,
    Drain,
    Fast,
    Thorough,
    Auto,
}

impl CallName {
    /// The name of a call.
    pub fn of(call: &Call) -> CallName
        // Each call has its own name.
        ensures { result ≡ call_name call.now }
    {
        match call {
            Call::Create { .. } => CallName::Create,
            Call::Mkdir { .. } => CallName::Mkdir,
            Call::Write { .. } => CallName::Write,
            Call::Read { .. } => CallName::Read,
            Call::Size { .. } => CallName::Size,
            Call::Mode { .. } => CallName::Mode,
            Call::Stat { .. } => CallName::Stat,
            Call::List { .. } => CallName::List,
            Call::Lookup { .. } => CallName::Lookup,
            Call::Unlink { .. } => CallName::Unlink,
            Call::Rmdir { .. } => CallName::Rmdir,
            Call::Rename { .. } => CallName::Rename,
            Call::SnapshotOrCleaner(call) => CallName::on(call),
        }
    }

    /// The name of a call on snapshots, or of a cleaner.
    pub(crate) fn on(call: &SnapshotOrCleanerCall) -> CallName
        ensures { result ≡ name_on call.now }
    {
        match call {
            SnapshotOrCleanerCall::Snap => CallName::Snap,
            SnapshotOrCleanerCall::Drop(_) => CallName::Drop,
            SnapshotOrCleanerCall::Show(_) => CallName::Show,
            SnapshotOrCleanerCall::Drain(_) => CallName::Drain,
            SnapshotOrCleanerCall::Fast(_) => CallName::Fast,
            SnapshotOrCleanerCall::Thorough(_) => CallName::Thorough,
            SnapshotOrCleanerCall::Auto(_) => CallName::Auto,
        }
    }
}

impl World {
    /// The name of the call that an actor runs. `None` where there is no such actor, or where it runs no call.
    ///
    /// Takes no memory.
    pub fn running_call(&self, actor: u64) -> Option<CallName>
        // The name is that of the machine's running call, from its start to its last step.
        ensures { (m : machine.World) → Shows self.now m
            → result ≡ option_map (λ r. call_name r.call) (actor_at m actor).running }
    {
        match self.actors.get(actor as usize) {
            Some(state) => call_of(state),
            None => None,
        }
    }
}

/// The name of the call that an actor runs, if it runs one.
fn call_of(state: &Actor) -> Option<CallName>
    ensures none { state.now.running ≡ None → result ≡ None }
    ensures some { (running : Running) (r : machine.Running) → state.now.running ≡ Some running
        → ShowsCall state.now.reserved running r → result ≡ Some (call_name r.call) }
{
    match &state.running {
        Some(running) => Some(name_of(&running.request, running.owed)),
        None => None,
    }
}

/// The name of a call, by what is left of it.
fn name_of(request: &Request, owed: PendingAnswer) -> CallName
    ensures { (c : Call) → IsRequestOf request.now owed c → result ≡ call_name c }
{
    match request {
        Request::Visit(call) => CallName::of(call),
        Request::Change(..) | Request::SnapshotOrCleaner(_) | Request::Taken => owed.call(),
    }
}
