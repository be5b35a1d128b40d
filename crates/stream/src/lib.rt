// What every output stream is bound to: limits, the rules of the public text as laws, and a write under a permit over any stream.
#![tactic(auto)]

pub mod error;
pub mod limits;
pub mod output;
pub mod permitted;

pub use error::{StreamError, Trap};
pub use limits::Limits;
pub use output::{OutputStream, Pollable};
pub use permitted::write_permitted;
