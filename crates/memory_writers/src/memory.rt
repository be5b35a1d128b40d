// A writer over an owned buffer, whose length is its capacity. Relies on the buffer of `buffer`.
ghost use Rattle.std.specs.Prelude.{◌≡◌, [], ◌++◌};
ghost use Rattle.memory_writers.specs.Area.{Area, fresh_area};
ghost use Rattle.memory_writers.specs.Stores.{MemoryWrites, AreaFlushes};
ghost use Rattle.std.proofs.Common.{rules};

use crate::buffer::Buffer;
use std::marker::Model;
use writer::{FlushAnswer, WriteAnswer, Writer};

// Takes what fits, and none when it is full.
#[derive(Drop)]
pub struct MemoryWriter {
    buffer: Buffer,
}

impl Model for MemoryWriter {
    ghost use Rattle.std.specs.Prelude.{◌≡◌, []};
    ghost use Rattle.memory_writers.specs.Area.{Area};

    ghost Value = { Area };

    ghost view = { λ m. m.buffer };

    ghost invariant = { λ m. m.buffer.before ≡ [] };
}

impl MemoryWriter {
    pub fn new(buffer: Vec<u8>) -> Self
        ensures made { result ≡ fresh_area 0 buffer.items }
    {
        MemoryWriter {
            buffer: Buffer::new(buffer, 0),
        }
    }

    // The bytes taken. None lies before them.
    pub fn contents(&self) -> &[u8]
        ensures value { result.now ≡ self.now.taken }
        ensures whole { self.now.before ≡ [] }
    {
        self.buffer.taken()
    }

    // How many bytes the last flush covered.
    pub fn covered(&self) -> usize
        ensures value { result ≡ self.now.covered }
        ensures whole { self.now.before ≡ [] }
    {
        self.buffer.covered()
    }

    // The whole buffer: the bytes taken, then those past them.
    pub fn into_buffer(self) -> Vec<u8>
        ensures value { result.items ≡ self.taken ++ self.room }
    {
        self.buffer.into_bytes()
    }
}

impl Writer for MemoryWriter {
    ghost View = { Area };

    ghost view = { λ m. m };

    ghost taken = { λ a. a.taken };

    ghost covered = { λ a. a.covered };

    ghost writes = { MemoryWrites };

    ghost flushes = { AreaFlushes };

    ghost wrote = { Prim.search rules };

    ghost flushed = { Prim.search rules };

    fn write(&mut self, part: &[u8]) -> WriteAnswer {
        WriteAnswer::Took(self.buffer.put(part))
    }

    fn flush(&mut self) -> FlushAnswer {
        self.buffer.cover();
        FlushAnswer::Done
    }
}
