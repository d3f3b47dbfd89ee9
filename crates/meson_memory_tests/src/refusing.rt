//! Orders to the heap. Each is an allocation of a size that no heap has; a heap that takes orders answers it.

use std::alloc::Global;

/// What orders are counted from.
const ORDER: usize = 1 << 60;

/// After `ORDER`: whether the allocation that was to fail was requested.
const WAS_REFUSED: usize = 1 << 40;

/// Whether the heap answers an order by a block.
fn is_answered(alloc: Global, order: usize) -> bool {
    let block: Result<Vec<u8>, _> = Vec::with_capacity(alloc, order);
    block.is_ok()
}

/// Which allocations of a call fail. They are numbered from 1.
#[derive(Clone, Copy, Debug)]
pub struct Refusal {
    pub first: u32,
    /// All allocations after it fail too.
    pub is_lasting: bool,
}

impl Refusal {
    /// No allocation fails.
    pub const NONE: Refusal = Refusal {
        first: 0,
        is_lasting: false,
    };
}

/// Makes the heap refuse allocations from here on.
pub fn refuse(alloc: Global, refusal: Refusal) {
    let first = ORDER + 2 * refusal.first as usize;
    let _ = is_answered(alloc, first + usize::from(refusal.is_lasting));
}

/// Whether an allocation failed. None fails from here on.
pub fn was_refused(alloc: Global) -> bool {
    is_answered(alloc, ORDER + WAS_REFUSED)
}
