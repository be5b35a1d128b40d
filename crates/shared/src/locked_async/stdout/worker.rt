// The shared worker stream: made from limits and a writer, with host turns and cancel. Relies on the calls of any shared stream.
ghost use Rattle.std.specs.Prelude.{◌≡◌};
ghost use Rattle.promises.specs.SharedView.{fresh, with_stream};
ghost use Rattle.promises.specs.Steps.{Turns, free_budget, unfinished_count};
ghost use Rattle.shared.specs.SharedOf.{shared_view};
ghost use Rattle.worker_stream.specs.WorkerCalls.{cancel};
ghost use Rattle.worker_stream.specs.WorkerOf.{worker_view};
ghost use Rattle.worker_stream.specs.WorkerView.{fresh as fresh_stream};

use super::AsyncStdoutStream;
use stream::Limits;
use worker_stream::write_stream::{AsyncWriteStream, Turn};
use writer::Writer;

impl<W: Writer> AsyncStdoutStream<AsyncWriteStream<W>> {
    // A shared stream over a writer, never refused.
    pub fn new(limits: Limits, writer: W) -> Self
        ensures { shared_view (worker_view W.view) result ≡ fresh (fresh_stream limits.budget (W.view writer)) limits.handles }
    {
        Self::over(limits, AsyncWriteStream::new(limits, writer))
    }

    // Stops turns, whoever holds the lock.
    pub fn cancel(&mut self)
        ensures { shared_view (worker_view W.view) self.new ≡ with_stream (cancel (shared_view (worker_view W.view) self.old).stream) (shared_view (worker_view W.view) self.old) }
    {
        self.parts.stream.cancel();
    }

    // One host turn.
    pub fn turn(&mut self) -> Turn
        ensures { Turns W.writes W.flushes (shared_view (worker_view W.view) self.old) result (shared_view (worker_view W.view) self.new) }
    {
        self.parts.stream.turn()
    }

    // The budget that is free.
    pub fn free_budget(&self) -> usize
        ensures { result ≡ free_budget (shared_view (worker_view W.view) self.now) }
    {
        self.parts.stream.free_budget()
    }

    // How many writes are unfinished.
    pub fn unfinished(&self) -> usize
        ensures { result ≡ unfinished_count (shared_view (worker_view W.view) self.now) }
    {
        self.parts.stream.unfinished()
    }
}
