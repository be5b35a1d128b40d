// A pipe into an owned buffer, whose length is its capacity. Relies on nothing.
ghost use Rattle.std.specs.Prelude.{◌≤◌, vec_len};

// The bytes held are `buffer[..held]`. The vector is the caller's: its length is the capacity, and it is handed back whole,
// so how many bytes are held stands beside it. There is no `impl Model`: what a refusal leaves would then say less, since the
// view forgets the vector's capacity, and no caller's proof would be told that what is held lies within the vector.
#[derive(Drop)]
pub struct MemoryOutputPipe {
    buffer: Vec<u8>,
    held: usize,
    ghost within: { held ≤ vec_len buffer },
}

pub mod calls;
