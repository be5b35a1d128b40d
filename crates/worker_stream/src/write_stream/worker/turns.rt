// A host turn: at most one call of the writer. Relies on `store` and on the writer's laws.
ghost use Rattle.std.specs.Prelude.{◌≡◌, ◌<◌, length};
ghost use Rattle.worker_stream.specs.StoreView.{rest};
ghost use Rattle.worker_stream.specs.WorkerOf.{worker_view};
ghost use Rattle.worker_stream.specs.WorkerTurn.{Turned, Gives, finishes, fails, after_write, after_flush};
ghost use Rattle.worker_stream.specs.WriterCall.{Called, Within};
ghost use Rattle.worker_stream.specs.declared.write_stream.job.Turn.TheVariants.{Finished};

use super::{AsyncWriteStream, Status};
use crate::write_stream::job::{Job, Turn};
use writer::{Fault, FlushAnswer, WriteAnswer, Writer};

// What the one call of the writer answered. A turn matches it at once; but what follows takes the whole stream, so it has to
// wait until the part of the store that was lent to that call is given back.
#[derive(Clone, Copy)]
pub enum WriterCall {
    // The oldest write is empty, and needs no call.
    Empty,
    Write(WriteAnswer),
    Flush(FlushAnswer),
}

impl<W: Writer> AsyncWriteStream<W> {
    // Lends the store and the writer to one call: the oldest write's whole rest is offered as one part of the store.
    fn call_writer(&mut self) -> Option<WriterCall>
        ensures called { Called W.writes W.flushes result (worker_view W.view self.old) (worker_view W.view self.new) }
        ensures store { self.new.store ≡ self.old.store }
    {
        Some(match self.store.next_job(self.flush_pending)? {
            Job::Flush => WriterCall::Flush(self.writer.flush()),
            Job::Write(part) if part.is_empty() => WriterCall::Empty,
            Job::Write(part) => WriterCall::Write(self.writer.write(part)),
        })
    }

    // The oldest write is finished, and its whole length returns to the budget.
    fn finish(&mut self) -> Turn
        requires { 0 < length self.old.store.unfinished }
        ensures { Gives (finishes (worker_view W.view self.old)) result (worker_view W.view self.new) }
    {
        let n = self.store.pop();
        self.write_budget += n;
        Turn::Finished(n)
    }

    // A fault ends the stream: the next call tells it.
    fn fail(&mut self, fault: Fault) -> Turn
        ensures { Gives (fails fault (worker_view W.view self.old)) result (worker_view W.view self.new) }
    {
        self.status = Status::Faulted(fault);
        self.flush_pending = false;
        Turn::Failed
    }

    fn after_write(&mut self, answer: WriteAnswer) -> Turn
        requires some { 0 < length self.old.store.unfinished }
        requires within { Within answer (length (rest self.old.store)) }
        ensures { Gives (after_write answer (length (rest self.old.store)) (worker_view W.view self.old)) result (worker_view W.view self.new) }
    {
        match answer {
            WriteAnswer::NotYet => Turn::NotYet,
            WriteAnswer::Failed(fault) => self.fail(fault),
            WriteAnswer::Took(0) => self.fail(Fault::WriteZero),
            WriteAnswer::Took(n) if n == self.store.rest_len() => self.finish(),
            WriteAnswer::Took(n) => {
                self.store.advance(n);
                Turn::Moved(n)
            }
        }
    }

    fn after_flush(&mut self, answer: FlushAnswer) -> Turn
        ensures { Gives (after_flush answer (worker_view W.view self.old)) result (worker_view W.view self.new) }
    {
        match answer {
            FlushAnswer::Done => {
                self.flush_pending = false;
                Turn::Flushed
            }
            FlushAnswer::NotYet => Turn::NotYet,
            FlushAnswer::Failed(fault) => self.fail(fault),
        }
    }

    // One host turn.
    pub fn turn(&mut self) -> Turn
        ensures { Turned W.writes W.flushes (worker_view W.view self.old) result (worker_view W.view self.new) }
    {
        if self.cancelled || !self.is_alive() {
            return Turn::Stopped;
        }
        match self.call_writer() {
            None => Turn::Idle,
            Some(WriterCall::Empty) => self.finish(),
            Some(WriterCall::Write(answer)) => self.after_write(answer),
            Some(WriterCall::Flush(answer)) => self.after_flush(answer),
        }
    }
}
