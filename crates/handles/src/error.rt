// Why a call of a shared stream is refused. Relies on `stream` for the error that it passes on.
ghost use Rattle.std.specs.Prelude.{◌≡◌, ℕ};
ghost use Rattle.handles.specs.Refusals.{lock_held_number, no_such_handle_number, call_number};
ghost use Rattle.handles.specs.declared.error.CallError.TheVariants.{Refused, Stream};

use stream::StreamError;

// Why a call is refused before it reaches the stream.
pub trait Refusal {
    ghost number: { Self → ℕ };

    // The refusal's number, by which the rules name it: `u8::from` would not say what number it is.
    fn code(&self) -> u8
        ensures { result ≡ number self.now };
}

// The lock has a holder.
#[derive(Clone, Copy, PartialEq, Eq, Debug)]
pub struct LockHeld;

impl Refusal for LockHeld {
    ghost number = { lock_held_number };

    fn code(&self) -> u8 {
        10
    }
}

// The number is not below the count of handles, or that handle was dropped.
#[derive(Clone, Copy, PartialEq, Eq, Debug)]
pub struct NoSuchHandle;

impl Refusal for NoSuchHandle {
    ghost number = { no_such_handle_number };

    fn code(&self) -> u8 {
        15
    }
}

// A call is refused by the question before it, or by the stream.
#[derive(Clone, Copy, PartialEq, Eq, Debug)]
pub enum CallError<R> {
    Refused(R),
    Stream(StreamError),
}

pub type DirectError = CallError<LockHeld>;

pub type HandleError = CallError<NoSuchHandle>;

impl From<LockHeld> for DirectError {
    ghost from_gives = { λ held r. r ≡ Refused held };

    fn from(held: LockHeld) -> Self {
        Self::Refused(held)
    }
}

impl From<NoSuchHandle> for HandleError {
    ghost from_gives = { λ none r. r ≡ Refused none };

    fn from(none: NoSuchHandle) -> Self {
        Self::Refused(none)
    }
}

impl<R> From<StreamError> for CallError<R> {
    ghost from_gives = { λ e r. r ≡ Stream e };

    fn from(e: StreamError) -> Self {
        Self::Stream(e)
    }
}

impl<R: Refusal> CallError<R> {
    // The refusal's number, as a method for the same reason.
    pub fn code(&self) -> u8
        ensures { result ≡ call_number R.number self.now }
    {
        match self {
            CallError::Refused(q) => q.code(),
            CallError::Stream(e) => e.code(),
        }
    }
}
