//! The numbers by which a kernel names nodes.

ghost use Rattle.std.specs.Prelude.{◌≡◌};
ghost use Rattle.nv_mount_answers.specs.Nodes.{AreOneToOne, handle_of, node_of};

use nv_base::{Gen, Handle, Ino};

/// The number of the root.
const ROOT: u64 = 1;

/// How many slots have a number: each that a world may have.
const SLOTS: u64 = 65_536;

/// How many generations have a number.
const GENERATIONS: u64 = 281_474_976_710_656;

/// The number by which the kernel names a node. A slot that was erased 2^48 times has none.
pub fn node_of(handle: Handle) -> Option<u64>
    // The number of a node is told of its slot and its generation.
    ensures { result ≡ node_of handle }
{
    let slot = handle.ino.number();
    let generation = handle.generation.number();
    if slot == 0 && generation == 1 {
        return Some(ROOT);
    }
    if slot < SLOTS && 1 <= generation && generation < GENERATIONS {
        return Some(generation * SLOTS + slot);
    }
    None
}

/// The node that the kernel names by this number.
pub fn handle_of(node: u64) -> Option<Handle>
    // The slot and the generation of a node are told of its number.
    ensures { result ≡ handle_of node }
{
    if node == ROOT {
        return Some(Handle {
            ino: Ino::new(0),
            generation: Gen::new(1),
        });
    }
    if node <= SLOTS {
        return None;
    }
    Some(Handle {
        ino: Ino::new(node % SLOTS),
        generation: Gen::new(node / SLOTS),
    })
}

/// A law: a number names one node, and a node has one number.
pub fn nodes_and_handles_are_one_to_one()
    // The number of a handle leads back to it.
    // A number that leads to a handle is that handle's.
    // Each number has 64 bits.
    ensures { AreOneToOne }
{}
