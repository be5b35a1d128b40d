// The calls of a shared stream: direct ones, and those of its handles. Each is one step of the rules.
ghost use Rattle.std.specs.Prelude.{◌≡◌};
ghost use Rattle.promises.specs.Polls.{poll_write, poll_flush, drop_handle};
ghost use Rattle.promises.specs.SharedView.{fresh};
ghost use Rattle.promises.specs.Steps.{Gives, direct_write, direct_check, direct_flush};
ghost use Rattle.shared.specs.SharedOf.{shared_view, state_answer};

use super::AsyncStdoutStream;
use crate::locked_async::lock::Lock;
use crate::locked_async::parts::Parts;
use crate::locked_async::table::Table;
use handles::{DirectError, HandleError, HandleState, NoSuchHandle, Poll};
use stream::{Limits, OutputStream};

impl<S: OutputStream> AsyncStdoutStream<S> {
    // A shared stream just made: every handle Ready, the lock free.
    pub fn over(limits: Limits, stream: S) -> Self
        ensures { shared_view S.view result ≡ fresh (S.view stream) limits.handles }
    {
        AsyncStdoutStream {
            parts: Parts {
                stream,
                lock: Lock::new(),
                table: Table::new(limits),
            },
        }
    }

    // The stream that is shared.
    pub fn stream(&self) -> &S
        ensures { result.now ≡ self.now.parts.stream }
    {
        &self.parts.stream
    }

    pub fn write(&mut self, bytes: &[u8]) -> Result<(), DirectError>
        ensures { Gives (direct_write S.accepts S.wrote bytes.now (shared_view S.view self.old)) result (shared_view S.view self.new) }
    {
        self.parts.lock.check_free()?;
        Ok(self.parts.stream.write(bytes)?)
    }

    pub fn check_write(&mut self) -> Result<usize, DirectError>
        ensures { Gives (direct_check S.meaning S.checked (shared_view S.view self.old)) result (shared_view S.view self.new) }
    {
        self.parts.lock.check_free()?;
        Ok(self.parts.stream.check_write()?)
    }

    pub fn flush(&mut self) -> Result<(), DirectError>
        ensures { Gives (direct_flush S.meaning S.flushed (shared_view S.view self.old)) result (shared_view S.view self.new) }
    {
        self.parts.lock.check_free()?;
        Ok(self.parts.stream.flush()?)
    }

    // Polls a handle's write.
    pub fn poll_write(&mut self, handle: usize, bytes: &[u8]) -> Result<Poll<usize>, HandleError>
        ensures { Gives (poll_write S.meaning S.checked S.wrote handle bytes.now (shared_view S.view self.old)) result (shared_view S.view self.new) }
    {
        self.parts.poll_write(handle, bytes)
    }

    // Polls a handle's flush.
    pub fn poll_flush(&mut self, handle: usize) -> Result<Poll<()>, HandleError>
        ensures { Gives (poll_flush S.meaning S.checked S.flushed handle (shared_view S.view self.old)) result (shared_view S.view self.new) }
    {
        self.parts.poll_flush(handle)
    }

    // Drops a handle, for good.
    pub fn drop_handle(&mut self, handle: usize) -> Result<(), HandleError>
        ensures { Gives (drop_handle handle (shared_view S.view self.old)) result (shared_view S.view self.new) }
    {
        self.parts.drop_handle(handle)
    }

    // The state of a handle, of a dropped one too.
    pub fn handle_state(&self, handle: usize) -> Result<HandleState, HandleError>
        ensures { result ≡ state_answer handle (shared_view S.view self.now) }
    {
        if handle < self.parts.table.len() {
            return Ok(self.parts.table.get(handle).state);
        }
        Err(NoSuchHandle.into())
    }
}
