// What is printed of the replies of a shared stream. Relies on `calls` for the replies and on `worker_stream` for a turn.
ghost use Rattle.std.specs.Prelude.{◌≡◌};
ghost use Rattle.answers.specs.Printing.{turn_printed, printed};

use crate::answer::Answer;
use worker_stream::Turn;

impl From<Turn> for Answer {
    ghost from_gives = { λ turn answer. answer ≡ turn_printed turn };

    fn from(turn: Turn) -> Answer {
        match turn {
            Turn::Stopped => Answer::Stopped,
            Turn::Finished(n) => Answer::Finished(n),
            Turn::Moved(n) => Answer::Moved(n),
            Turn::Flushed => Answer::Flushed,
            Turn::Idle => Answer::Idle,
            Turn::NotYet => Answer::Wait,
            Turn::Failed => Answer::Failed,
        }
    }
}

impl From<calls::Answer> for Answer {
    ghost from_gives = { λ reply answer. answer ≡ printed reply };

    fn from(reply: calls::Answer) -> Answer {
        match reply {
            calls::Answer::Write(outcome) => outcome.into(),
            calls::Answer::CheckWrite(outcome) => outcome.into(),
            calls::Answer::Flush(outcome) => outcome.into(),
            calls::Answer::Cancel => Answer::Accepted,
            calls::Answer::Turn(turn) => turn.into(),
            calls::Answer::PollWrite(outcome) => outcome.into(),
            calls::Answer::PollFlush(outcome) => outcome.into(),
            calls::Answer::DropHandle(outcome) => outcome.into(),
        }
    }
}
