// One call of a shared stream, given as data. Relies on the calls of the shared stream, each of which is one step of the rules.
ghost use Rattle.handles.specs.Calls.{call_view};
ghost use Rattle.calls.specs.Calls.{Pairs};
ghost use Rattle.promises.specs.Events.{Event};
ghost use Rattle.promises.specs.Steps.{Step};
ghost use Rattle.shared.specs.SharedOf.{shared_view};
ghost use Rattle.worker_stream.specs.WorkerOf.{worker_view};

use crate::answer::Answer;
use handles::Call;
use shared::AsyncStdoutStream;
use worker_stream::AsyncWriteStream;
use writer::Writer;

// Makes the call.
pub fn perform<W: Writer>(stream: &mut AsyncStdoutStream<AsyncWriteStream<W>>, call: Call) -> Answer
    ensures { (e : Event) × Pairs (call_view call.entry) result e × Step W.writes W.flushes (shared_view (worker_view W.view) stream.old) e (shared_view (worker_view W.view) stream.new) }
{
    match call {
        Call::Write(bytes) => Answer::Write(stream.write(bytes)),
        Call::CheckWrite => Answer::CheckWrite(stream.check_write()),
        Call::Flush => Answer::Flush(stream.flush()),
        Call::Cancel => {
            stream.cancel();
            Answer::Cancel
        }
        Call::Turn => Answer::Turn(stream.turn()),
        Call::PollWrite(handle, bytes) => Answer::PollWrite(stream.poll_write(handle, bytes)),
        Call::PollFlush(handle) => Answer::PollFlush(stream.poll_flush(handle)),
        Call::DropHandle(handle) => Answer::DropHandle(stream.drop_handle(handle)),
    }
}
