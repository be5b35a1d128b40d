// What a run of a script answers, and how it is printed. Relies on a writer's fault.
ghost use Rattle.answers.specs.Answers.{answer_text, AnswersAreLines, AnswersAreTheLines};
ghost use Rattle.std.specs.Prelude.{Some};

use std::fmt;
use writer::Fault;

// The answer to one line of a script.
#[derive(Clone, Copy, PartialEq, Eq, Debug)]
pub enum Answer {
    // The call was accepted.
    Accepted,
    // A permit, or how many bytes a handle wrote.
    Count(usize),
    // A handle's flush is done; a handle's call or a turn has to wait.
    Done,
    Wait,
    // A turn finished a write of this length.
    Finished(usize),
    // A turn handed down so many bytes of a write that has more.
    Moved(usize),
    // What else a turn did.
    Flushed,
    Idle,
    Stopped,
    Failed,
    // The call was refused, with the number of the reason: the rules print just that. Refusals come from five types, and
    // an enum over them would serve only to be numbered.
    Refused(u8),
    // The last operation of the writer failed.
    Fault(Fault),
    // The line is not a command.
    Misfit,
}

impl fmt::Display for Answer {
    ghost output = { λ answer. Some (answer_text answer) };

    fn fmt<W: fmt::Write>(&self, f: &mut fmt::Formatter<W>) -> fmt::Result {
        match *self {
            Answer::Accepted => write!(f, "ok"),
            Answer::Count(count) => write!(f, "{count}"),
            Answer::Done => write!(f, "done"),
            Answer::Wait => write!(f, "wait"),
            Answer::Finished(count) => write!(f, "finished {count}"),
            Answer::Moved(count) => write!(f, "moved {count}"),
            Answer::Flushed => write!(f, "flushed"),
            Answer::Idle => write!(f, "idle"),
            Answer::Stopped => write!(f, "stopped"),
            Answer::Failed => write!(f, "failed"),
            Answer::Refused(reason) => write!(f, "e {reason}"),
            Answer::Fault(Fault::WriteZero) => write!(f, "e 20 zero"),
            Answer::Fault(Fault::Device(code)) => write!(f, "e 20 d {code}"),
            Answer::Misfit => write!(f, "?"),
        }
    }
}

// Each answer, printed with a newline after it, is one line, and so the lines of what is printed are the answers' texts.
pub fn answers_are_lines()
    ensures lines { AnswersAreLines }
    ensures whole { AnswersAreTheLines }
{}
