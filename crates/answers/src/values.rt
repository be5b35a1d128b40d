// What is printed of a call's value, and of a result. Relies on `handles` for the answer of a poll.
ghost use Rattle.std.specs.Prelude.{◌≡◌, MatchResult};
ghost use Rattle.answers.specs.Printing.{write_printed, flush_printed};
ghost use Rattle.answers.specs.declared.answer.Answer.TheVariants.{Accepted, Count};

use crate::answer::Answer;
use handles::Poll;

// The call was accepted, and there is nothing more to say.
impl From<()> for Answer {
    ghost from_gives = { λ _ answer. answer ≡ Accepted };

    fn from(_value: ()) -> Answer {
        Answer::Accepted
    }
}

impl From<usize> for Answer {
    ghost from_gives = { λ count answer. answer ≡ Count count };

    fn from(count: usize) -> Answer {
        Answer::Count(count)
    }
}

impl From<Poll<usize>> for Answer {
    ghost from_gives = { λ poll answer. answer ≡ write_printed poll };

    fn from(poll: Poll<usize>) -> Answer {
        match poll {
            Poll::Ready(count) => Answer::Count(count),
            Poll::Pending => Answer::Wait,
        }
    }
}

impl From<Poll<()>> for Answer {
    ghost from_gives = { λ poll answer. answer ≡ flush_printed poll };

    fn from(poll: Poll<()>) -> Answer {
        match poll {
            Poll::Ready(()) => Answer::Done,
            Poll::Pending => Answer::Wait,
        }
    }
}

// A result prints what it holds.
impl<T: Into<Answer>, E: Into<Answer>> From<Result<T, E>> for Answer {
    ghost from_gives = { λ outcome answer. MatchResult outcome (λ value. T.converts value answer) (λ e. E.converts e answer) };

    fn from(outcome: Result<T, E>) -> Answer {
        match outcome {
            Ok(value) => value.into(),
            Err(e) => e.into(),
        }
    }
}
