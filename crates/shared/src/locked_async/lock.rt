// A fair lock and its queue: the first in the queue holds the lock, the others stand in line. It knows nothing of what it guards.
ghost use Rattle.std.specs.Prelude.{◌≤◌, length};

use arrayvec::ArrayVec;
use stream::limits::MAX_HANDLES;

// No `impl Model` gives the line as its value: it would hide the bound of 16, which each caller's proof would need to be told.
#[derive(Drop)]
pub struct Lock {
    queue: ArrayVec<usize, MAX_HANDLES>,
    ghost within: { length queue.items ≤ 16 },
}

// What a poll owns while it acts: it has to be given back, as kept or as handed on.
pub struct Grant {
    handle: usize,
}

pub mod moves;
