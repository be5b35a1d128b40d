// A writer over a part of an existing image. Relies on the buffer of `buffer`.
ghost use Rattle.std.specs.Prelude.{◌≡◌, ◌++◌};
ghost use Rattle.memory_writers.specs.Area.{Area, fresh_area};
ghost use Rattle.memory_writers.specs.Stores.{ImageWrites, AreaFlushes};
ghost use Rattle.std.proofs.Common.{rules};

use crate::buffer::Buffer;
use std::marker::Model;
use writer::{Fault, FlushAnswer, WriteAnswer, Writer};

const NO_SPACE: u8 = 28;

// Writes from a start on, to the image's end; the bytes before the start stay.
#[derive(Drop)]
pub struct ImageWriter {
    buffer: Buffer,
}

impl Model for ImageWriter {
    ghost use Rattle.memory_writers.specs.Area.{Area};

    ghost Value = { Area };

    ghost view = { λ m. m.buffer };
}

impl ImageWriter {
    // A start past the image's end means the end.
    pub fn new(image: Vec<u8>, start: usize) -> Self
        ensures made { result ≡ fresh_area start image.items }
    {
        ImageWriter {
            buffer: Buffer::new(image, start),
        }
    }

    // The bytes taken.
    pub fn contents(&self) -> &[u8]
        ensures value { result.now ≡ self.now.taken }
    {
        self.buffer.taken()
    }

    // How many bytes the last flush covered.
    pub fn covered(&self) -> usize
        ensures value { result ≡ self.now.covered }
    {
        self.buffer.covered()
    }

    // The whole image.
    pub fn into_image(self) -> Vec<u8>
        ensures value { result.items ≡ self.before ++ (self.taken ++ self.room) }
    {
        self.buffer.into_bytes()
    }
}

impl Writer for ImageWriter {
    ghost View = { Area };

    ghost view = { λ m. m };

    ghost taken = { λ a. a.taken };

    ghost covered = { λ a. a.covered };

    ghost writes = { ImageWrites };

    ghost flushes = { AreaFlushes };

    ghost wrote = { Prim.search rules };

    ghost flushed = { Prim.search rules };

    fn write(&mut self, part: &[u8]) -> WriteAnswer {
        let fitting = self.buffer.put(part);
        if fitting == 0 && !part.is_empty() {
            return WriteAnswer::Failed(Fault::Device(NO_SPACE));
        }
        WriteAnswer::Took(fitting)
    }

    fn flush(&mut self) -> FlushAnswer {
        self.buffer.cover();
        FlushAnswer::Done
    }
}
