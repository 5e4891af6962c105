//! An allocator that passes each call on, and refuses one of them.

use std::alloc::{AllocError, Allocator};
use std::cell::Cell;

/// An allocator that passes each call on to another one, but refuses one growth if it is told to.
///
/// Hand `&Refusing` to the calls under test: it is an allocator, and `Copy`. Each request for
/// memory counts, also one that makes a collection larger; giving memory back does not.
///
/// What a cell holds can't be told in a contract, so which growth is refused is shown by tests.
pub struct Refusing<B: Allocator> {
    inner: B,
    left: Cell<u64>,
}

impl<B: Allocator> Refusing<B> {
    /// Refuses the request `nth`, counted from 1; 0 means that none is refused.
    pub fn new(inner: B, nth: u64) -> Refusing<B> {
        Refusing {
            inner,
            left: Cell::new(nth),
        }
    }

    /// From now on the request `nth` is refused, counted from 1; 0 means that none is.
    pub fn refuse(&self, nth: u64) {
        self.left.set(nth);
    }

    /// Whether the request that was to be refused has come. It is true of `nth` 0 too.
    pub fn was_met(&self) -> bool {
        self.left.get() == 0
    }
}

impl<B: Allocator> Drop for Refusing<B> {
    fn drop(self) {
        let Self { inner: _, left: _ } = self;
    }
}

// Counts a request, and tells whether it is the one to be refused.
fn refuses(left: &Cell<u64>) -> bool {
    let n = left.get();
    left.set(n.saturating_sub(1));
    n == 1
}

unsafe impl<B: Allocator> Allocator for Refusing<B> {
    ghost dealloc_token = { λ heap ty ptr. B.dealloc_token heap.inner ty ptr };

    fn allocate(&self, size: usize, align: usize) -> Result<*mut u8, AllocError> {
        if refuses(&self.left) {
            return Err(AllocError);
        }
        self.inner.allocate(size, align)
    }

    unsafe fn deallocate(&self, ptr: *mut u8, size: usize, align: usize) {
        self.inner.deallocate(ptr, size, align);
    }
}
