// The words of a shared stream: its calls, what a handle is, what a poll answers, and why a handle call or a direct call is refused.
#![tactic(auto)]

pub mod call;
pub mod error;
pub mod handle;

pub use call::Call;
pub use error::{CallError, DirectError, HandleError, LockHeld, NoSuchHandle, Refusal};
pub use handle::{HandleState, Poll, StdoutHandle};
