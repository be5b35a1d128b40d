// What is printed of a refusal: a fault with what it is, any other by its number. Relies on `handles`, `stream` and `planned_writer` for the refusals.
ghost use Rattle.std.specs.Prelude.{◌≡◌};
ghost use Rattle.stream.specs.LimitsRules.{number as limits_number};
ghost use Rattle.planned_writer.specs.Planned.{refusal_number};
ghost use Rattle.handles.specs.Refusals.{call_number};
ghost use Rattle.answers.specs.declared.answer.Answer.TheVariants.{Refused};
ghost use Rattle.answers.specs.Printing.{refused, call_refused, RefusalsTellTheirNumber};

use crate::answer::Answer;
use handles::{CallError, Refusal};
use planned_writer::PlanFull;
use stream::StreamError;
use stream::limits::refusal::LimitsError;

impl From<LimitsError> for Answer {
    ghost from_gives = { λ e answer. answer ≡ Refused (limits_number e) };

    fn from(e: LimitsError) -> Answer {
        Answer::Refused(e.code())
    }
}

impl From<PlanFull> for Answer {
    ghost from_gives = { λ full answer. answer ≡ Refused (refusal_number full) };

    fn from(full: PlanFull) -> Answer {
        Answer::Refused(full.code())
    }
}

impl From<StreamError> for Answer {
    ghost from_gives = { λ e answer. answer ≡ refused e };

    fn from(e: StreamError) -> Answer {
        match e {
            StreamError::LastOperationFailed(fault) => Answer::Fault(fault),
            StreamError::Closed | StreamError::Trap(_) => Answer::Refused(e.code()),
        }
    }
}

impl<R: Refusal + Copy> From<CallError<R>> for Answer {
    ghost from_gives = { λ e answer. answer ≡ call_refused (call_number R.number) e };

    fn from(e: CallError<R>) -> Answer {
        match e {
            CallError::Refused(question) => Answer::Refused(question.code()),
            CallError::Stream(inner) => inner.into(),
        }
    }
}

// What is printed of a stream's refusal begins with its number.
pub fn refusals_tell_their_number()
    ensures { RefusalsTellTheirNumber }
{}
