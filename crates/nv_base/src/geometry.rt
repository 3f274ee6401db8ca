//! The numbers that a device and its world are made with.

ghost use Rattle.std.specs.Prelude.{◌≡◌, ℕ, ◌+◌, ◌<◌, ◌≤◌, ◌↔◌, IsTrue, IsOk, IfOk, IfErr};
ghost use Rattle.nv_base.specs.Homes.{home_start, IsHome, CutsBlocks};
ghost use Rattle.nv_base.specs.Limits.{IsFirstBad, IsWithinLimits, first_bad_field, is_between};
ghost use Rattle.nv_base.specs.Refusals.{FailsOnly};

use crate::{BlockNo, Fault, GeometryField, limits};

/// The numbers that a device and its world are to be made with, which may be out of their limits.
#[derive(Clone, Copy, Debug, PartialEq, Eq)]
pub struct GeometryNumbers {
    /// Blocks of the device.
    pub blocks: u64,
    /// CPUs, each with a free list of its own.
    pub cpus: u64,
    /// Bytes of a block.
    pub block: u64,
    /// Entries of a log page.
    pub page: u64,
    /// Slots for inodes.
    pub inodes: u64,
    /// The most living snapshots.
    pub snaps: u64,
    /// Actors, each of which runs one call at a time.
    pub actors: u64,
}

/// The numbers of a device and its world, all within their limits.
#[derive(Clone, Copy, Debug, PartialEq, Eq)]
pub struct Geometry {
    pub numbers: GeometryNumbers,
    // Its seven numbers are within their limits.
    pub ghost limits: { IsWithinLimits numbers },
}

impl Geometry {
    /// The geometry with these numbers, or `BadGeometry` with the first that is out of its limits, in their
    /// order: `blocks` 2 to 1,048,576, `cpus` 1 to 64 and at most `blocks`, `block` 1 to 4,096, `page` 2 to 63,
    /// `inodes` 1 to 65,536, `snaps` 1 to 1,024, `actors` 1 to 64.
    pub fn checked(numbers: GeometryNumbers) -> Result<Geometry, Fault>
        // The geometry has the numbers that it was made of.
        ensures ok { IfOk result (λ geometry. geometry.numbers ≡ numbers) }
        // Exactly numbers within their limits make a geometry.
        ensures within { IsOk result ↔ IsWithinLimits numbers }
        // Of other numbers, the first field outside its limits is named, in their order.
        ensures err { IfErr result (λ fault. IsFirstBad fault (first_bad_field numbers)) }
    {
        let GeometryNumbers {
            blocks,
            cpus,
            block,
            page,
            inodes,
            snaps,
            actors,
        } = numbers;
        require(
            is_between(limits::LEAST_BLOCKS, limits::BLOCKS, blocks),
            GeometryField::Blocks,
        )?;
        require(
            is_between(1, blocks.min(limits::CPUS), cpus),
            GeometryField::Cpus,
        )?;
        require(
            is_between(1, limits::BLOCK_BYTES, block),
            GeometryField::Block,
        )?;
        require(
            is_between(limits::LEAST_PAGE_ENTRIES, limits::PAGE_ENTRIES, page),
            GeometryField::Page,
        )?;
        require(is_between(1, limits::INODES, inodes), GeometryField::Inodes)?;
        require(is_between(1, limits::SNAPS, snaps), GeometryField::Snaps)?;
        require(is_between(1, limits::ACTORS, actors), GeometryField::Actors)?;
        Ok(Geometry { numbers })
    }

    /// The first block number whose home is this CPU or a later one. A CPU's home range ends where the
    /// next one's starts.
    pub fn home_start(&self, cpu: u64) -> u64
        requires { cpu ≤ self.now.numbers.cpus }
        // Where a CPU's home range starts is told.
        ensures value { result ≡ home_start self.now.numbers.blocks self.now.numbers.cpus cpu }
        ensures within { result ≤ self.now.numbers.blocks }
    {
        cpu * self.numbers.blocks / self.numbers.cpus
    }

    /// What holds of each home range: it ends within the device. Costs nothing.
    pub fn home_ends_within(&self, cpu: u64)
        requires { cpu < self.now.numbers.cpus }
        // A CPU's home range ends within the device.
        ensures { home_start self.now.numbers.blocks self.now.numbers.cpus (cpu + 1)
            ≤ self.now.numbers.blocks }
    {
        let _end = self.home_start(cpu + 1);
    }

    /// The CPU whose home range has this block: the list that the block always goes back to.
    pub fn home_of(&self, block: BlockNo) -> u64
        requires { block < self.now.numbers.blocks }
        // The CPU in whose home range a block lies is told.
        ensures cpu { result < self.now.numbers.cpus }
        ensures home { IsHome self.now.numbers.blocks self.now.numbers.cpus result block }
    {
        ((block.number() + 1) * self.numbers.cpus - 1) / self.numbers.blocks
    }
}

fn is_between(least: u64, most: u64, number: u64) -> bool
    ensures { result ≡ is_between least most number }
{
    least <= number && number <= most
}

/// `BadGeometry` with this field where the field's test fails.
fn require(holds: bool, field: GeometryField) -> Result<(), Fault>
    ensures ok { IsOk result ↔ IsTrue holds }
    ensures err { FailsOnly (Fault.BadGeometry field) result }
{
    if holds {
        return Ok(());
    }
    Err(Fault::BadGeometry(field))
}

/// A law: the home ranges cut the block numbers of a device into one range for each CPU, in order, and each
/// number has one home.
pub fn home_ranges_cut_the_blocks()
    // Where there is a CPU, home ranges cut the block numbers in order.
    // Where there is a CPU, each block number has exactly one home.
    ensures { (blocks cpus : ℕ) → 0 < cpus → CutsBlocks blocks cpus }
{}
