// What a turn has to do, and what it did. Relies on nothing.

// The next call of the writer: a flush, or a write of these bytes of the store.
#[derive(Clone, Copy)]
pub enum Job<'a> {
    Flush,
    Write(&'a [u8]),
}

// The answer of a host turn.
#[derive(Clone, Copy, PartialEq, Eq, Debug)]
pub enum Turn {
    // Cancelled, or not alive.
    Stopped,
    // The oldest unfinished write, of this whole length, is finished.
    Finished(usize),
    // The writer took so many bytes of the oldest unfinished write, and some are left.
    Moved(usize),
    // The writer's flush succeeded.
    Flushed,
    // There was nothing to do.
    Idle,
    // The writer says not yet.
    NotYet,
    // The writer failed. The next call of the stream tells why.
    Failed,
}
