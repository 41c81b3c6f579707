//! The bytes of all chunks, one after another.

ghost use Rattle.std.specs.Prelude.{◌≡◌, ℕ, ◌+◌, ◌<◌, ◌≤◌, ◌^◌, IfOk, List, None, Some, drop, length, map, replicate, take};
ghost use Rattle.chgarena.specs.Places.{with_bytes};

use crate::memory::{Memory, ReleaseRight};
use std::alloc::{AllocError, Global};
use std::marker::Model;

/// A region of memory, which is given back when it is dropped. Contracts see its bytes, of which each is written or not.
pub(crate) struct Region {
    alloc: Global,
    memory: Memory,
    lease: ReleaseRight<Global>,
    size: usize,
}

impl Model for Region {
    ghost use Rattle.std.specs.Prelude.{◌≡◌, ℕ, List, Option, length};

    ghost Value = { List (Option ℕ) };

    ghost view = { λ r. r.memory.places };

    ghost invariant = { λ r. (r.lease.alloc ≡ r.alloc)
        × (r.lease.ptr ≡ r.memory.ptr)
        × (r.lease.size ≡ r.size)
        × (length r.memory.places ≡ r.size) };
}

impl Region {
    /// A region of this many bytes, none of them written.
    pub(crate) fn new(alloc: Global, size: usize) -> Result<Self, AllocError>
        requires { size < 2 ^ 60 }
        ensures { IfOk result (λ r. r ≡ replicate size None) }
    {
        match Memory::make(&alloc, size) {
            Some((memory, lease)) => Ok(Region {
                alloc,
                memory,
                lease,
                size,
            }),
            None => Err(AllocError),
        }
    }

    /// Writes these bytes from a place on.
    pub(crate) fn write(&mut self, at: usize, bytes: &[u8])
        requires { at + length bytes.now ≤ length self.old }
        ensures { self.new ≡ with_bytes self.old at bytes.now }
    {
        self.memory.copy_in(at, bytes)
    }

    /// Lends bytes that are written.
    pub(crate) fn lend(&self, from: usize, len: usize) -> &[u8]
        requires within { from + len ≤ length self.now }
        requires written { (bytes : List ℕ) × (take len (drop from self.now) ≡ map Some bytes) }
        ensures { take len (drop from self.now) ≡ map Some result.now }
    {
        self.memory.lend(from, len)
    }
}

impl Drop for Region {
    fn drop(self) {
        let Region {
            alloc,
            memory,
            lease,
            size,
        } = self;
        memory.give_back(lease, &alloc, size)
    }
}
