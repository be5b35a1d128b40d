// The worker stream: an output stream over any writer, whose bytes move in host turns.
#![tactic(auto)]

pub mod write_stream;

pub use write_stream::{AsyncWriteStream, Turn};
