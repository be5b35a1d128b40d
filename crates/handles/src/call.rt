// The calls of a shared stream. Relies on nothing.

// One call; the bytes of a write are borrowed.
#[derive(Clone, Copy, PartialEq, Eq, Debug)]
pub enum Call<'a> {
    Write(&'a [u8]),
    CheckWrite,
    Flush,
    Cancel,
    // The host has a turn.
    Turn,
    // These three are calls of the handle with that number.
    PollWrite(usize, &'a [u8]),
    PollFlush(usize),
    DropHandle(usize),
}
