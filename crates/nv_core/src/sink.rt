//! Where the nodes of a tree go, one by one.

use nv_base::Name;
use nv_entry::NodeCopy;

/// A sink could not take a node.
#[derive(Clone, Copy, Debug, PartialEq, Eq)]
pub struct SinkFault;

/// Takes nodes one by one. Contracts see how many calls failed, and two relations of the sink's own choice: what
/// becomes of it where it takes a node, and where it fails at one. So a sink that writes to a device can say what it
/// wrote, also where the bytes of the device are not known.
/// A sink says by two relations what becomes of it where it takes a node, and where it fails.
/// A failed call counts as one failure, and any other as none.
pub trait Sink {
    ghost use Rattle.std.specs.Prelude.{◌≡◌, ℕ, ◌+◌, ◌-◌, ◌<◌, ◌^◌, OnErr, OnOk};
    ghost use Rattle.nv_entry.specs.declared.tree.TreeNode.{TreeNode};

    ghost failed: { Self → ℕ };

    ghost Takes: { Self → TreeNode → Self → Type 0 };

    ghost Fails: { Self → TreeNode → Self → Type 0 };

    /// Takes the next node, which stands at a path.
    fn node(&mut self, path: &[Name], node: &NodeCopy) -> Result<(), SinkFault>
        requires { failed self.old < 2 ^ 64 - 1 }
        ensures takes { OnOk result
            (Takes self.old (record { path = path.now; node = node.now }) self.new) }
        ensures fails { OnErr result
            (Fails self.old (record { path = path.now; node = node.now }) self.new) }
        ensures ok { OnOk result (failed self.new ≡ failed self.old) }
        ensures err { OnErr result (failed self.new ≡ failed self.old + 1) };

    /// How many calls failed.
    fn failures(&self) -> u64
        ensures { result ≡ failed self.now };
}
