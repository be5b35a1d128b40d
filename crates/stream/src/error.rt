// What an output stream answers in place of a value, and the number of each refusal. Relies on `writer` for the fault.
ghost use Rattle.std.specs.Prelude.{◌≡◌};
ghost use Rattle.stream.specs.Refusals.{number};
ghost use Rattle.stream.specs.declared.error.StreamError.TheVariants.{LastOperationFailed};

use writer::Fault;

// A use that the caller's own permit rules out.
#[derive(Clone, Copy, PartialEq, Eq, Debug)]
pub enum Trap {
    // A write while a flush is pending.
    FlushPending,
    // A write longer than the free budget.
    OverBudget,
    // A write while 256 writes are unfinished.
    TooManyWrites,
    // A pipe write longer than the room left.
    NoRoom,
}

#[derive(Clone, Copy, PartialEq, Eq, Debug)]
pub enum StreamError {
    // The writer failed since the last call. It is told once.
    LastOperationFailed(Fault),
    // Nothing is accepted any more.
    Closed,
    Trap(Trap),
}

impl StreamError {
    // The refusal's number, by which the rules name it: `u8::from` would not say what number it is.
    pub fn code(&self) -> u8
        ensures { result ≡ number self.now }
    {
        match *self {
            StreamError::LastOperationFailed(_) => 20,
            StreamError::Closed => 21,
            StreamError::Trap(Trap::FlushPending) => 11,
            StreamError::Trap(Trap::OverBudget) => 12,
            StreamError::Trap(Trap::TooManyWrites) => 13,
            StreamError::Trap(Trap::NoRoom) => 14,
        }
    }
}

impl From<Fault> for StreamError {
    ghost from_gives = { λ f r. r ≡ LastOperationFailed f };

    fn from(f: Fault) -> StreamError {
        StreamError::LastOperationFailed(f)
    }
}
