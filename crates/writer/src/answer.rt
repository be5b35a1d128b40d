// What a writer answers. Relies on nothing.

// Why a writer failed.
#[derive(Clone, Copy, PartialEq, Eq, Debug)]
pub enum Fault {
    // The writer took nothing of a part that was not empty.
    WriteZero,
    // The device failed, with its code.
    Device(u8),
}

// The answer to a write of a part. The rules, the trait's laws and every match name its three answers one by one;
// in a `Result<Poll<usize>, Fault>` they would lie two deep.
#[derive(Clone, Copy, PartialEq, Eq, Debug)]
pub enum WriteAnswer {
    // The first so many bytes of the part were taken.
    Took(usize),
    NotYet,
    Failed(Fault),
}

// The answer to a flush: three again, one by one, since in a `Result<Poll<()>, Fault>` they would lie two deep. One type
// for both answers would lose the rules' words `Took` and `Done`.
#[derive(Clone, Copy, PartialEq, Eq, Debug)]
pub enum FlushAnswer {
    // All bytes taken are covered.
    Done,
    NotYet,
    Failed(Fault),
}
