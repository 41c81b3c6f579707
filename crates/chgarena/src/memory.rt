//! One region of raw memory. The functions of this file alone hold a pointer into it.

ghost use Rattle.std.specs.Prelude.{◌≡◌, ℕ, ◌+◌, ◌<◌, ◌≤◌, ◌^◌, IfSome, List, None, Option, Some, drop, length, map, replicate, take};
ghost use Rattle.chgarena.specs.Places.{bytes, places_lent, places_own, with_bytes};
ghost use denote.RawPtr.{Ptr};

use std::alloc::Allocator;
use std::marker::{Model, PhantomData};

/// The bytes of a region, of which each is written or not.
pub(crate) struct Memory {
    ptr: *mut u8,
    ghost places: { List (Option ℕ) },
    ghost small: { length places < 2 ^ 60 },
}

impl Model for Memory {
    ghost also_owns = { λ m. places_own m.ptr m.places };

    ghost also_shares = { λ m _ κ. places_lent m.ptr m.places κ };
}

// Its bytes are its own, whichever thread has it.
unsafe impl Send for Memory {}

/// The right to give a region back to where it came from.
pub(crate) struct ReleaseRight<A: Allocator> {
    of: PhantomData<A>,
    ghost alloc: { A },
    ghost ptr: { Ptr },
    ghost size: { ℕ },
}

impl<A: Allocator> Model for ReleaseRight<A> {
    ghost also_owns = { λ l. A.dealloc_token l.alloc (bytes l.size) l.ptr };
}

unsafe impl<A: Allocator + Send> Send for ReleaseRight<A> {}

impl Memory {
    /// Asks for a region of this many bytes, none of them written.
    pub(crate) fn make<A: Allocator>(alloc: &A, size: usize) -> Option<(Memory, ReleaseRight<A>)>
        requires { size < 2 ^ 60 }
        ensures { IfSome result
            (λ m. (m.0.places ≡ replicate size None) × (m.1.alloc ≡ alloc.now) × (m.1.ptr ≡ m.0.ptr)
            × (m.1.size ≡ size)) }
    {
        match alloc.allocate(size, 1) {
            Ok(ptr) => {
                let of = PhantomData;
                Some((Memory { ptr }, ReleaseRight { of }))
            }
            Err(_) => None,
        }
    }

    /// Writes these bytes from a place on. The pointer stays where it is for the whole loop, so that many bytes are copied at a step.
    #[inline(always)]
    pub(crate) fn copy_in(&mut self, at: usize, bytes: &[u8])
        requires { at + length bytes.now ≤ length self.old.places }
        ensures { (self.new.places ≡ with_bytes self.old.places at bytes.now)
            × (self.new.ptr ≡ self.old.ptr) }
    {
        let to = unsafe { self.ptr.add(at) };
        let mut i = 0;
        while i < bytes.len() {
            unsafe { *to.add(i) = bytes[i] };
            i += 1;
        }
    }

    /// Lends bytes that are written.
    pub(crate) fn lend(&self, from: usize, len: usize) -> &[u8]
        requires within { from + len ≤ length self.now.places }
        requires written { (bytes : List ℕ)
            × (take len (drop from self.now.places) ≡ map Some bytes) }
        ensures { take len (drop from self.now.places) ≡ map Some result.now }
    {
        unsafe { std::slice::from_raw_parts(self.ptr.add(from), len) }
    }

    /// Gives the region back.
    pub(crate) fn give_back<A: Allocator>(self, lease: ReleaseRight<A>, alloc: &A, size: usize)
        requires { (lease.alloc ≡ alloc.now) × (lease.ptr ≡ self.ptr) × (lease.size ≡ size)
            × (length self.places ≡ size) }
    {
        let Memory { ptr } = self;
        let ReleaseRight { of: _ } = lease;
        unsafe { alloc.deallocate(ptr, size, 1) }
    }
}
