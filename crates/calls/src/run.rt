// A whole list of calls, from a shared stream just made. Its contract carries the promises. Relies on the calls of the shared stream.
ghost use Rattle.std.specs.Prelude.{◌≡◌, ◌<◌, ◌≤◌, map, length, vec_capacity, MatchResult};
ghost use Rattle.handles.specs.Calls.{call_view};
ghost use Rattle.calls.specs.Running.{Ran};
ghost use Rattle.shared.specs.SharedOf.{shared_view};
ghost use Rattle.worker_stream.specs.WorkerOf.{worker_view};

use crate::answer::Answer;
use crate::perform::perform;
use handles::Call;
use shared::locked_async::stdout::AsyncStdoutStream;
use stream::Limits;
use worker_stream::write_stream::AsyncWriteStream;
use writer::Writer;

// What a run leaves: the shared stream, and the answer to each call.
#[derive(Drop)]
pub struct RunOutcome<W> {
    pub stream: AsyncStdoutStream<AsyncWriteStream<W>>,
    pub answers: Vec<Answer>,
}

// Makes a shared stream from limits and a writer, performs the calls, and keeps their answers in `room`.
// Where `room` has not the capacity for all answers, no call is made, and writer and room come back as they were.
pub fn run<W: Writer>(
    limits: Limits,
    writer: W,
    calls: &[Call],
    room: Vec<Answer>,
) -> Result<RunOutcome<W>, (W, Vec<Answer>)>
    ensures { MatchResult result (λ o. (length calls.now ≤ vec_capacity room) × Ran W.taken W.covered W.writes W.flushes limits.budget limits.handles (W.view writer) (map call_view calls.now) o.answers.items (shared_view (worker_view W.view) o.stream)) (λ back. (vec_capacity room < length calls.now) × (back.0 ≡ writer) × (back.1 ≡ room)) }
{
    if room.capacity() < calls.len() {
        return Err((writer, room));
    }
    let mut answers = room;
    answers.clear();
    let mut stream = AsyncStdoutStream::new(limits, writer);
    for call in calls {
        let answer = perform(&mut stream, *call);
        answers.push_reserved(answer);
    }
    Ok(RunOutcome { stream, answers })
}
