// The handles of a shared stream, up to 16. It knows nothing of what they share.
ghost use Rattle.std.specs.Prelude.{◌≤◌, length};

use arrayvec::ArrayVec;
use handles::StdoutHandle;
use stream::limits::MAX_HANDLES;

// No `impl Model` gives the handles as its value: it would hide the bound of 16, which each caller's proof would need to be told.
#[derive(Drop)]
pub struct Table {
    handles: ArrayVec<StdoutHandle, MAX_HANDLES>,
    ghost few: { length handles.items ≤ 16 },
}

pub mod changes;
