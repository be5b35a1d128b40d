// Answers as they are printed: one a line. Relies on an answer's text.
ghost use Rattle.answers.specs.Answers.{answer_lines};
ghost use Rattle.std.specs.Prelude.{Some};

use crate::answer::Answer;
use std::fmt;

// Some answers, to be printed with a newline after each.
#[derive(Clone, Copy)]
pub struct AnswerLines<'a>(pub &'a [Answer]);

impl fmt::Display for AnswerLines<'_> {
    ghost output = { λ printed. Some (answer_lines printed.0.now) };

    fn fmt<W: fmt::Write>(&self, f: &mut fmt::Formatter<W>) -> fmt::Result {
        for answer in self.0 {
            writeln!(f, "{answer}")?;
        }
        Ok(())
    }
}
