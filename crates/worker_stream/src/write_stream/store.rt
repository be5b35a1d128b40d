// The unfinished writes, oldest first: their bytes lie one after another, and their lengths beside them. Relies on the limits.
use arrayvec::ArrayVec;
use std::marker::Model;
use stream::limits::MAX_BUDGET;

// The most unfinished writes at a time. Their bytes are never more than a budget.
pub const MAX_WRITES: usize = 256;

// Two vectors, since the rest of the oldest write has to be one part, and nothing here may allocate. A length is at most a
// budget, so two bytes hold it.
#[derive(Drop)]
pub struct Store {
    bytes: ArrayVec<u8, MAX_BUDGET>,
    lengths: ArrayVec<u16, MAX_WRITES>,
    progress: usize,
}

impl Model for Store {
    ghost use Rattle.worker_stream.specs.StoreView.{Queue, cuts, IsStored};

    ghost Value = { Queue };

    ghost view = { λ s. record { unfinished = cuts s.lengths.items s.bytes.items; progress = s.progress } };

    ghost invariant = { λ s. IsStored s.lengths.items s.bytes.items s.progress };
}

pub mod changes;
