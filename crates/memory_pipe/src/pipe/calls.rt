// Making a memory pipe, and its calls. Relies on the rules in specs/PipeView.
ghost use Rattle.std.specs.Prelude.{◌≡◌, ◌≤◌, true, false, ◌++◌, length};
ghost use Rattle.memory_pipe.specs.PipeView.{PipeView, pipe_view, fresh, refusal, meaning, checked, accept, accepts, wrote, flushed};
ghost use Rattle.stream.specs.Questions.{answered};
ghost use Rattle.memory_pipe.specs.Permits.{permit_holds};
ghost use Rattle.std.proofs.Common.{rules};

use super::MemoryOutputPipe;
use stream::error::{StreamError, Trap};
use stream::output::{OutputStream, Pollable};

impl MemoryOutputPipe {
    pub fn new(buffer: Vec<u8>) -> Self
        ensures made { pipe_view result ≡ fresh buffer.items }
    {
        MemoryOutputPipe { buffer, held: 0 }
    }

    // The bytes held.
    pub fn contents(&self) -> &[u8]
        ensures value { result.now ≡ (pipe_view self.now).held }
    {
        &self.buffer[..self.held]
    }

    // The whole buffer: the bytes held, then those past them.
    pub fn into_inner(self) -> Vec<u8>
        ensures value { result.items ≡ (pipe_view self).held ++ (pipe_view self).room }
    {
        let MemoryOutputPipe { buffer, .. } = self;
        buffer
    }

    // How many bytes fit still.
    fn room(&self) -> usize
        ensures value { result ≡ length (pipe_view self.now).room }
    {
        self.buffer.len() - self.held
    }

    // The question before every call; a yes tells how many bytes fit still.
    fn check_room(&self) -> Result<usize, StreamError>
        ensures told { result ≡ answered (refusal (pipe_view self.now)) (length (pipe_view self.now).room) }
    {
        let room = self.room();
        if room == 0 {
            return Err(StreamError::Closed);
        }
        Ok(room)
    }

    // These bytes are held too, right behind the others.
    fn append(&mut self, bytes: &[u8])
        requires room { length bytes.now ≤ length (pipe_view self.old).room }
        ensures left { pipe_view self.new ≡ accept bytes.now (pipe_view self.old) }
    {
        let end = self.held + bytes.len();
        self.buffer[self.held..end].copy_from_slice(bytes);
        self.held = end;
    }
}

impl Pollable for MemoryOutputPipe {
    ghost pollable = { λ _. true };

    fn ready(&self) -> bool {
        true
    }
}

impl OutputStream for MemoryOutputPipe {
    ghost View = { PipeView };

    ghost view = { pipe_view };

    ghost meaning = { meaning };

    ghost checked = { checked };

    ghost accepts = { accepts };

    ghost wrote = { wrote };

    ghost flushed = { flushed };

    // A flush has nothing to do.
    ghost flushing = { λ _. false };

    // No host turn ever touches a pipe.
    ghost turned = { λ _ _. ⊥ };

    ghost readiness = { Prim.search rules };

    ghost permits = { permit_holds };

    ghost flushes = { Prim.search rules };

    ghost closing = { Prim.search rules };

    ghost keeping = { Prim.search rules };

    fn check_write(&mut self) -> Result<usize, StreamError> {
        self.check_room()
    }

    fn write(&mut self, bytes: &[u8]) -> Result<(), StreamError> {
        if bytes.len() > self.check_room()? {
            return Err(StreamError::Trap(Trap::NoRoom));
        }
        self.append(bytes);
        Ok(())
    }

    fn flush(&mut self) -> Result<(), StreamError> {
        self.check_room()?;
        Ok(())
    }
}
