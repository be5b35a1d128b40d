// What the calls of a shared stream answer. Relies on `handles` for the refusals and on `worker_stream` for a turn.
use handles::{DirectError, HandleError, Poll};
use worker_stream::write_stream::Turn;

// The answer to the call of the same name.
#[derive(Clone, Copy)]
pub enum Answer {
    Write(Result<(), DirectError>),
    CheckWrite(Result<usize, DirectError>),
    Flush(Result<(), DirectError>),
    Cancel,
    Turn(Turn),
    PollWrite(Result<Poll<usize>, HandleError>),
    PollFlush(Result<Poll<()>, HandleError>),
    DropHandle(Result<(), HandleError>),
}
