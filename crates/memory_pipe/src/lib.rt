// A pipe into an owned buffer: an output stream with no host turns.
#![tactic(auto)]

pub mod pipe;

pub use pipe::MemoryOutputPipe;
