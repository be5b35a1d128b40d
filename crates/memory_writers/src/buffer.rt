// A buffer that takes bytes from a start on: what the memory writer and the image writer share. Relies on nothing.
ghost use Rattle.std.specs.Prelude.{◌≡◌, ◌++◌};
ghost use Rattle.memory_writers.specs.Area.{fresh_area, fitting, extended, all_covered};

use std::marker::Model;

// The bytes taken are `bytes[start..at]`. The vector is the caller's: its length is the capacity,
// and it is handed back whole, so where the taken bytes end stands beside it.
#[derive(Drop)]
pub struct Buffer {
    bytes: Vec<u8>,
    start: usize,
    at: usize,
    covered: usize,
}

impl Model for Buffer {
    ghost use Rattle.std.specs.Prelude.{◌≤◌, vec_len};
    ghost use Rattle.memory_writers.specs.Area.{Area, divided};

    ghost Value = { Area };

    ghost view = { λ b. divided b.start b.at b.covered b.bytes.items };

    ghost invariant = { λ b. (b.start ≤ b.at) × (b.at ≤ vec_len b.bytes) };
}

impl Buffer {
    pub fn new(bytes: Vec<u8>, start: usize) -> Self
        ensures made { result ≡ fresh_area start bytes.items }
    {
        let start = start.min(bytes.len());
        Buffer {
            bytes,
            start,
            at: start,
            covered: 0,
        }
    }

    // Takes what fits, and answers how many bytes that was.
    pub fn put(&mut self, part: &[u8]) -> usize
        ensures told { result ≡ fitting self.old part.now }
        ensures left { self.new ≡ extended result part.now self.old }
    {
        let n = part.len().min(self.bytes.len() - self.at);
        self.bytes[self.at..self.at + n].copy_from_slice(&part[..n]);
        self.at += n;
        n
    }

    pub fn cover(&mut self)
        ensures left { self.new ≡ all_covered self.old }
    {
        self.covered = self.at - self.start;
    }

    pub fn taken(&self) -> &[u8]
        ensures value { result.now ≡ self.now.taken }
    {
        &self.bytes[self.start..self.at]
    }

    pub fn covered(&self) -> usize
        ensures value { result ≡ self.now.covered }
    {
        self.covered
    }

    #[tactic(auto, using(std::proofs::lemmas::List::Edits::split_between))]
    pub fn into_bytes(self) -> Vec<u8>
        ensures value { result.items ≡ self.before ++ (self.taken ++ self.room) }
    {
        self.bytes
    }
}
