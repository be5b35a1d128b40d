// What a handle is and what its polls answer. Relies on nothing.

// The state of a handle.
#[derive(Clone, Copy, PartialEq, Eq, Debug, Default)]
pub enum HandleState {
    #[default]
    Ready,
    // In line for the lock, or granted it and not polled since.
    Locking,
    // Holding the lock, after the stream said not yet.
    Locked,
    // The stream closed or failed: no call reaches it any more.
    Closed,
    Dropped,
}

// A handle, just made Ready with a clear mark: its state, and its flushing mark, set while it waits for a flush that it began.
#[derive(Clone, Copy, PartialEq, Eq, Debug, Default)]
pub struct StdoutHandle {
    pub state: HandleState,
    pub mark: bool,
}

// What a poll answers: a value, or not yet. The standard library has no `Poll`, and that of the kit's `futures` is
// not `Copy` and brings tasks and wakers; the `None` of an `Option` would not say "not yet".
#[derive(Clone, Copy, PartialEq, Eq, Debug)]
pub enum Poll<T> {
    Ready(T),
    Pending,
}
