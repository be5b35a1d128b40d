// The worker stream. Relies on `store`.
ghost use Rattle.std.specs.Prelude.{◌+◌, ◌-◌, ◌≤◌, length};
ghost use Rattle.worker_stream.specs.StoreView.{oldest, used};

use super::store::Store;
use writer::Fault;

// Whether the stream still takes calls.
#[derive(Clone, Copy, PartialEq, Eq, Debug)]
pub enum Status {
    Alive,
    // The writer failed, and no call has been told yet.
    Faulted(Fault),
    Closed,
}

// An output stream over a writer: what it accepts waits in its store until host turns hand it on. Its clauses say
// `worker_view W.view`, and it has no `impl Model`, whose value cannot name the bound's view.
#[derive(Drop)]
pub struct AsyncWriteStream<W> {
    writer: W,
    store: Store,
    write_budget: usize,
    flush_pending: bool,
    status: Status,
    cancelled: bool,
    ghost fits: { used store + write_budget ≤ 4096 },
    ghost few: { length store.unfinished ≤ 256 },
    ghost along: { store.progress ≤ length (oldest store.unfinished) - 1 },
}

pub mod calls;
pub mod turns;
