// Making a worker stream, and its calls. Relies on the rules in specs/WorkerCalls.
ghost use Rattle.std.specs.Prelude.{◌≡◌, length, None, Ok, Err, MatchResult, OnOk};
ghost use Rattle.stream.specs.Meaning.{Untouched, ready};
ghost use Rattle.stream.specs.Questions.{answered};
ghost use Rattle.worker_stream.specs.WorkerCalls.{is_alive, permitted, refusal, no_fault, meaning, checked, accepts, wrote, flushed, flushing, cancel};
ghost use Rattle.worker_stream.specs.WorkerOf.{worker_view};
ghost use Rattle.worker_stream.specs.WorkerTurn.{TurnedOnce};
ghost use Rattle.worker_stream.specs.WorkerView.{WorkerView, fresh, with_status};
ghost use Rattle.worker_stream.specs.declared.write_stream.worker.Status.TheVariants.{Alive, Faulted, Closed as ClosedStatus};
ghost use Rattle.worker_stream.specs.Permits.{permit_holds};
ghost use Rattle.std.proofs.Common.{rules};

use super::{AsyncWriteStream, Status};
use crate::write_stream::store::Store;
use stream::error::{StreamError, Trap};
use stream::limits::Limits;
use stream::output::{OutputStream, Pollable};
use writer::{Fault, Writer};

impl<W: Writer> AsyncWriteStream<W> {
    pub fn new(limits: Limits, writer: W) -> Self
        ensures { worker_view W.view result ≡ fresh limits.budget (W.view writer) }
    {
        AsyncWriteStream {
            writer,
            store: Store::new(),
            write_budget: limits.budget(),
            flush_pending: false,
            status: Status::Alive,
            cancelled: false,
        }
    }

    // The budget that is free.
    pub fn free_budget(&self) -> usize
        ensures { result ≡ (worker_view W.view self.now).free }
    {
        self.write_budget
    }

    // How many writes are unfinished.
    pub fn unfinished(&self) -> usize
        ensures { result ≡ length (worker_view W.view self.now).unfinished }
    {
        self.store.len()
    }

    // The writer.
    pub fn writer(&self) -> &W
        ensures { result.now ≡ self.now.writer }
    {
        &self.writer
    }

    // Stops turns, and nothing else.
    pub fn cancel(&mut self)
        ensures { worker_view W.view self.new ≡ cancel (worker_view W.view self.old) }
    {
        self.cancelled = true;
    }

    // Whether no fault has ended the stream.
    pub(crate) fn is_alive(&self) -> bool
        ensures { result ≡ is_alive self.now.status }
    {
        self.status == Status::Alive
    }

    // What check_write answers on a stream that is alive.
    fn permitted(&self) -> usize
        ensures { result ≡ permitted (worker_view W.view self.now) }
    {
        if self.flush_pending || self.store.is_full() {
            0
        } else {
            self.write_budget
        }
    }

    // A stored fault is taken away, and `?` carries it into the stream's error.
    fn take_fault(&mut self) -> Result<(), Fault>
        ensures { MatchResult result (λ _. (no_fault self.old.status ≡ None) × (self.new ≡ self.old)) (λ f. (self.old.status ≡ Faulted f) × (worker_view W.view self.new ≡ with_status ClosedStatus (worker_view W.view self.old))) }
    {
        if let Status::Faulted(f) = self.status {
            self.status = Status::Closed;
            return Err(f);
        }
        Ok(())
    }

    // The questions before every call.
    fn check_error(&mut self) -> Result<(), StreamError>
        ensures told { result ≡ answered (refusal (worker_view W.view self.old)) tt }
        ensures left { worker_view W.view self.new ≡ checked (worker_view W.view self.old) }
        ensures same { Untouched result self.old self.new }
        ensures passed { OnOk result ((self.old.status ≡ Alive) × (self.new ≡ self.old)) }
    {
        self.take_fault()?;
        if self.status == Status::Closed {
            return Err(StreamError::Closed);
        }
        Ok(())
    }
}

impl<W: Writer> Pollable for AsyncWriteStream<W> {
    ghost pollable = { λ s. ready (meaning (worker_view W.Writer.view s)) };

    fn ready(&self) -> bool {
        !self.is_alive() || self.permitted() > 0
    }
}

impl<W: Writer> OutputStream for AsyncWriteStream<W> {
    ghost View = { WorkerView W.Writer.View };

    ghost view = { worker_view W.Writer.view };

    ghost meaning = { meaning };

    ghost checked = { checked };

    ghost accepts = { accepts };

    ghost wrote = { wrote };

    ghost flushed = { flushed };

    ghost flushing = { flushing };

    ghost turned = { TurnedOnce W.Writer.writes W.Writer.flushes };

    ghost readiness = { Prim.search rules };

    ghost permits = { permit_holds W.Writer.writes W.Writer.flushes };

    ghost flushes = { Prim.search rules };

    ghost closing = { Prim.search rules };

    ghost keeping = { Prim.search rules };

    fn check_write(&mut self) -> Result<usize, StreamError> {
        self.check_error()?;
        Ok(self.permitted())
    }

    fn write(&mut self, bytes: &[u8]) -> Result<(), StreamError> {
        self.check_error()?;
        if self.flush_pending {
            return Err(StreamError::Trap(Trap::FlushPending));
        }
        if bytes.len() > self.write_budget {
            return Err(StreamError::Trap(Trap::OverBudget));
        }
        if self.store.is_full() {
            return Err(StreamError::Trap(Trap::TooManyWrites));
        }
        self.store.push(bytes);
        self.write_budget -= bytes.len();
        Ok(())
    }

    fn flush(&mut self) -> Result<(), StreamError> {
        self.check_error()?;
        self.flush_pending = true;
        Ok(())
    }
}
