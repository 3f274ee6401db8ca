//! The free inode numbers.

ghost use Rattle.std.specs.Prelude.{◌≡◌, ℕ, ◌<◌, ◌==◌, ◌↔◌, [], IfOk, IsTrue, length, false, nat_lt, drop, slice_get};
ghost use Rattle.std.specs.List.{range_with_len};
ghost use Rattle.nv_base.specs.Refusals.{FailsOnly};
ghost use Rattle.nv_alloc.specs.InodePool.{IsPool};
ghost use Rattle.nv_alloc.specs.Numbers.{has, put_by};
ghost use Rattle.nv_base.specs.Memory.{out_of_memory};

use crate::places::PlaceSet;
use nv_base::{Fault, Geometry, Ino};
use std::alloc::Global;
use std::marker::Model;

/// The free inode numbers. Contracts see how many inodes there are, and the free numbers in rising order.
/// Its memory is all taken when it is made.
/// Only tested: a pool is `Send` and `Sync`.
#[derive(Drop)]
pub struct InodePool {
    free: PlaceSet,
    count: u64,
    inodes: u64,
}

impl Model for InodePool {
    ghost use Rattle.nv_alloc.specs.InodePool.{FreeInodes, IsCounted};
    ghost use Rattle.nv_alloc.specs.Places.{places};

    ghost Value = { FreeInodes };

    ghost view = { λ p. record { inodes = p.inodes; numbers = places 0 p.free } };

    // Its numbers rise below the number of inodes; the set of places has one for each inode, and counts the free
    // ones.
    ghost invariant = { λ p. IsCounted p.inodes p.count p.free };
}

impl InodePool {
    /// The pool with all numbers of a geometry's inodes: `OutOfMemory` where there is no room for them.
    pub fn new(alloc: Global, geometry: &Geometry) -> Result<InodePool, Fault>
        // A new pool has all numbers of inodes; the only error is `OutOfMemory`.
        ensures inodes { IfOk result (λ pool. pool.inodes ≡ geometry.now.numbers.inodes) }
        ensures numbers { IfOk result (λ pool. pool.numbers ≡ range_with_len 0 geometry.now.numbers.inodes) }
        ensures err { FailsOnly out_of_memory result }
    {
        let inodes = geometry.numbers.inodes;
        let free = PlaceSet::full(alloc, inodes as u32)?;
        Ok(InodePool {
            free,
            count: inodes,
            inodes,
        })
    }

    /// The pool of a geometry's inodes in which these numbers are free: `OutOfMemory` where there is no room for all
    /// inodes. The time is that of the inodes and of the free numbers.
    pub fn rebuild(alloc: Global, geometry: &Geometry, numbers: &[Ino]) -> Result<InodePool, Fault>
        // Callers give rising numbers of inodes that there are.
        requires { IsPool
            (record { inodes = geometry.now.numbers.inodes; numbers = numbers.now }) }
        // A pool anew has exactly the numbers that it is given; the only error is `OutOfMemory`.
        ensures ok { IfOk result (λ pool. pool
            ≡ record { inodes = geometry.now.numbers.inodes; numbers = numbers.now }) }
        ensures err { FailsOnly out_of_memory result }
    {
        let mut pool = InodePool::empty(alloc, geometry)?;
        for ino in numbers {
            pool.give(*ino);
        }
        Ok(pool)
    }

    /// The pool of a geometry's inodes in which none is free.
    fn empty(alloc: Global, geometry: &Geometry) -> Result<InodePool, Fault>
        ensures ok { IfOk result
            (λ pool. pool ≡ record { inodes = geometry.now.numbers.inodes; numbers = [] }) }
        ensures err { FailsOnly out_of_memory result }
    {
        let inodes = geometry.numbers.inodes;
        let free = PlaceSet::empty(alloc, inodes as u32)?;
        Ok(InodePool {
            free,
            count: 0,
            inodes,
        })
    }

    /// How many numbers are free.
    pub fn len(&self) -> u64
        ensures count { result ≡ length self.now.numbers }
        ensures lawful { IsPool self.now }
    {
        self.count
    }

    /// What holds of each pool: its free numbers rise. Costs nothing.
    pub fn rises(&self)
        // What holds of each pool is told.
        ensures { IsPool self.now }
    {
        let _free = self.len();
    }

    /// Whether no inode number is free.
    pub fn is_empty(&self) -> bool
        // Whether a pool is empty, knows a number, or has it free, is told.
        ensures { result ≡ (length self.now.numbers == 0) }
    {
        self.count == 0
    }

    /// Whether the pool is of as many inodes as the geometry has.
    pub fn made_for(&self, geometry: &Geometry) -> bool
        // Whether a pool is of as many inodes as a device has is told.
        ensures { IsTrue result ↔ (self.now.inodes ≡ geometry.now.numbers.inodes) }
    {
        self.inodes == geometry.numbers.inodes
    }

    /// Whether the number is one of the pool's inodes, free or not.
    pub fn is_inode(&self, ino: Ino) -> bool
        ensures { result ≡ nat_lt ino self.now.inodes }
    {
        ino.number() < self.inodes
    }

    /// Whether the number is free.
    pub fn has(&self, ino: Ino) -> bool
        ensures { result ≡ has self.now.numbers ino }
    {
        let free = &self.free;
        self.is_inode(ino) && free.has(ino.number() as u32)
    }

    /// Takes the lowest free number out, where there is one.
    pub fn take(&mut self) -> Option<Ino>
        // The lowest free inode number is taken.
        ensures lowest { result ≡ slice_get self.old.numbers 0 }
        ensures rest { self.new ≡ record self.old { numbers = drop 1 self.old.numbers } }
    {
        let place = self.free.lowest()?;
        self.free.remove(place);
        self.count -= 1;
        Some(Ino::new(u64::from(place)))
    }

    /// Takes a number back.
    pub fn give(&mut self, ino: Ino)
        requires inode { ino < self.old.inodes }
        requires absent { has self.old.numbers ino ≡ false }
        // A number that is given back is free again.
        ensures { self.new ≡ record self.old { numbers = put_by (λ n. n) ino self.old.numbers } }
    {
        self.free.insert(ino.number() as u32);
        self.count += 1;
    }
}
