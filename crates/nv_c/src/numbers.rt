//! What crosses to C: structs of numbers.

ghost use Rattle.std.specs.Prelude.{◌≡◌, ◌≤◌};
ghost use Rattle.nv_calls.specs.declared.answer.Answer.TheVariants as answers;
ghost use Rattle.std.specs.Option.{SomeIff};
ghost use Rattle.nv_base.specs.declared.limits.TheConstants.{MODE};
ghost use Rattle.nv_c.specs.Numbers.{blocks_of, cleaned_in, geometry_in, handle_in, kind_in, kind_number, node_in_copy, stat_in, truth_in};

use nv_base::{Gen, GeometryNumbers, Handle, Ino, Kind, Mode};
use nv_clean::Cleaned;
use nv_core::Space;
use nv_entry::NodeCopy;
use nv_files::Stat;

/// What names a node.
#[repr(C)]
#[derive(Clone, Copy)]
pub struct NovaHandle {
    pub ino: u64,
    pub generation: u64,
}

/// The numbers of a device.
#[repr(C)]
#[derive(Clone, Copy)]
pub struct NovaGeometry {
    pub blocks: u64,
    pub cpus: u64,
    pub block: u64,
    pub page: u64,
    pub inodes: u64,
    pub snaps: u64,
}

/// What a node is: its kind (1 a file, 2 a directory), its mode, its size in bytes (0 for a directory), and the commit that
/// changed it last (0 in a tree, which has none).
#[repr(C)]
#[derive(Clone, Copy)]
pub struct NovaNode {
    pub kind: u32,
    pub mode: u32,
    pub size: u64,
    pub commit: u64,
}

/// Where the blocks of a device are.
#[repr(C)]
#[derive(Clone, Copy)]
pub struct NovaBlocks {
    pub free: u64,
    pub chain: u64,
    pub data: u64,
    pub pending: u64,
    pub hand: u64,
}

/// Which cleaning was made (1 the thorough one), and how many entries and pages the log lost.
#[repr(C)]
#[derive(Clone, Copy)]
pub struct NovaCleaned {
    pub thorough: u64,
    pub entries: u64,
    pub pages: u64,
}

impl NovaHandle {
    /// The handle of a node, as C has it.
    pub(crate) fn of(handle: Handle) -> NovaHandle
        ensures { handle_in result ≡ handle }
    {
        NovaHandle {
            ino: handle.ino.number(),
            generation: handle.generation.number(),
        }
    }

    /// The handle that C has.
    pub(crate) fn handle(self) -> Handle
        ensures { result ≡ handle_in self }
    {
        Handle {
            ino: Ino::new(self.ino),
            generation: Gen::new(self.generation),
        }
    }
}

impl NovaGeometry {
    /// The numbers of a world for one actor.
    pub(crate) fn numbers(&self) -> GeometryNumbers
        ensures { result ≡ geometry_in self.now }
    {
        GeometryNumbers {
            blocks: self.blocks,
            cpus: self.cpus,
            block: self.block,
            page: self.page,
            inodes: self.inodes,
            snaps: self.snaps,
            actors: 1,
        }
    }
}

impl NovaNode {
    /// What a `stat` tells.
    pub(crate) fn of_stat(stat: Stat) -> NovaNode
        ensures told { stat_in result ≡ answers.Stat stat.kind stat.mode stat.size stat.commit }
        ensures kind { result.kind ≤ 2 }
        ensures some_kind { 1 ≤ result.kind }
    {
        NovaNode {
            kind: number_of_kind(stat.kind),
            mode: u32::from(stat.mode.bits()),
            size: stat.size,
            commit: stat.commit.number(),
        }
    }

    /// What a node of a tree is.
    pub(crate) fn of_copy(node: &NodeCopy) -> NovaNode
        ensures { result ≡ node_in_copy node.now }
    {
        NovaNode {
            kind: number_of_kind(node.kind),
            mode: u32::from(node.mode.bits()),
            size: node.size,
            commit: 0,
        }
    }
}

impl NovaBlocks {
    /// What `space` tells.
    pub(crate) fn of(space: Space) -> NovaBlocks
        ensures { result ≡ blocks_of space }
    {
        NovaBlocks {
            free: space.free,
            chain: space.chain,
            data: space.data,
            pending: space.pending,
            hand: space.hand,
        }
    }
}

impl NovaCleaned {
    /// What a cleaner tells.
    pub(crate) fn of(cleaned: Cleaned) -> NovaCleaned
        ensures told { cleaned_in result
            ≡ answers.Cleaned cleaned.thorough cleaned.entries cleaned.pages }
        ensures flag { result.thorough ≤ 1 }
    {
        NovaCleaned {
            thorough: number_of_truth(cleaned.thorough),
            entries: cleaned.entries as u64,
            pages: cleaned.pages as u64,
        }
    }
}

fn number_of_truth(is: bool) -> u64
    ensures back { truth_in result ≡ is }
    ensures most { result ≤ 1 }
{
    if is { 1 } else { 0 }
}

fn number_of_kind(kind: Kind) -> u32
    ensures number { result ≡ kind_number kind }
    ensures back { kind_in result ≡ kind }
    ensures some { 1 ≤ result }
    ensures most { result ≤ 2 }
{
    match kind {
        Kind::File => 1,
        Kind::Dir => 2,
    }
}

/// The mode of these bits, or none above 4,095.
pub(crate) fn mode_of(bits: u32) -> Option<Mode>
    ensures { SomeIff result (bits ≤ MODE) bits }
{
    if bits > u32::from(nv_base::limits::MODE) {
        return None;
    }
    Mode::checked(bits as u16)
}
