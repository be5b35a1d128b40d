// A writer over another, whose first answers are planned. Relies on the entries of `plan`.
ghost use Rattle.std.specs.Prelude.{◌≤◌};
ghost use Rattle.arrayvec.specs.ArrayVec.{array_vec_len};

use crate::plan::PlanEntry;
use arrayvec::ArrayVec;

// The refusal of one more entry.
#[derive(Clone, Copy, PartialEq, Eq, Debug)]
pub struct PlanFull;

// How many entries one plan has at most.
const MAX_ENTRIES: usize = 32;

// The first `spent` of the entries are spent, and keep their places, since they count against the 32. There is no
// `impl Model`: what a refused entry leaves would then say less, since the view forgets the spent entries.
#[derive(Drop)]
pub struct PlannedWriter<W> {
    inner: W,
    entries: ArrayVec<PlanEntry, MAX_ENTRIES>,
    spent: usize,
    ghost few: { array_vec_len entries ≤ 32 },
    ghost within: { spent ≤ array_vec_len entries },
}

pub mod calls;
