// The writers over an owned buffer: a memory writer over all of it, and an image writer from a start position on.
// They share the buffer. One generic writer over both is no plainer: its trait, with the answer of a full buffer,
// what lies before the start and the laws of both, is longer than the calls that it saves.
#![tactic(auto)]

mod buffer;
pub mod image;
pub mod memory;

pub use image::ImageWriter;
pub use memory::MemoryWriter;
