// The limits of a shared stream, which are made first. Relies on nothing.
ghost use Rattle.std.specs.Prelude.{◌≤◌};

// The largest starting budget, in bytes, and the most handles.
pub const MAX_BUDGET: usize = 4096;

pub const MAX_HANDLES: usize = 16;

// A starting budget of 0 to 4,096 bytes and 1 to 16 handles.
#[derive(Clone, Copy, PartialEq, Eq, Debug)]
pub struct Limits {
    budget: usize,
    handles: usize,
    ghost budgeted: { budget ≤ 4096 },
    ghost some: { 1 ≤ handles },
    ghost few: { handles ≤ 16 },
}

pub mod makes;
pub mod refusal;
