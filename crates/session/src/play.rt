// A whole script: its first line, the calls of the others, and one answer for each line. Relies on `run`, which keeps the promises.
ghost use Rattle.std.specs.Prelude.{◌≡◌, List, [], ◌∷◌, Option, IfOk};
ghost use Rattle.std.specs.Slice.Iter.{iter_rest};
ghost use Rattle.script.specs.Lines.{lines};
ghost use Rattle.answers.specs.Answers.{answer_lines};
ghost use Rattle.answers.specs.declared.answer.Answer.{Answer};
ghost use Rattle.script_reading.specs.Reading.{lines_read, unread};
ghost use Rattle.script_reading.specs.ReadingOf.{read_of};
ghost use Rattle.session.specs.Merging.{merged};
ghost use Rattle.session.specs.Scripts.{Played, ScriptAnswers, OneEach, ScriptPrints};
ghost use Rattle.std.specs.String.{string_bytes};

use crate::first_line::read_limits;
use answers::{Answer, AnswerLines};
use calls::run::run;
use printing::print;
use script::{Lines, next_line};
use script_reading::reading::Reading;
use std::alloc::{AllocError, Global};
use std::slice::Iter;
use stream::Limits;

// Reads the lines after the first.
fn read_lines<'a>(heap: Global, text: &'a [u8]) -> Result<Reading<'a>, AllocError>
    ensures { IfOk result (λ x. read_of x ≡ lines_read unread (lines text.now)) }
{
    let mut reading = Reading::new(heap)?;
    for line in Lines::new(text) {
        reading.read(line)?;
    }
    Ok(reading)
}

// What a line prints: what was said when it was read, or else the next reply.
fn answer_of(slot: Option<Answer>, replies: &mut Iter<'_, calls::Answer>) -> Answer
    ensures { (more : List (Option Answer)) → merged (slot ∷ more) (iter_rest replies.old) ≡ result ∷ merged more (iter_rest replies.new) }
{
    match slot {
        Some(answer) => answer,
        None => replies.next().map_or(Answer::Misfit, |reply| print(*reply)),
    }
}

// What is printed: what was said, and the replies in their order.
fn merge(
    heap: Global,
    slots: &[Option<Answer>],
    replies: &[calls::Answer],
) -> Result<Vec<Answer>, AllocError>
    ensures { IfOk result (λ v. v.items ≡ merged slots.now replies.now) }
{
    let mut unprinted = replies.iter();
    let mut answers = Vec::new(heap);
    for slot in slots {
        answers.push(answer_of(*slot, &mut unprinted))?;
    }
    Ok(answers)
}

// Reads the lines after the first, runs their calls, and prints.
fn play(heap: Global, limits: Limits, text: &[u8]) -> Result<Vec<Answer>, AllocError>
    ensures { IfOk result (λ v. Played limits.budget limits.handles (lines_read unread (lines text.now)) v.items) }
{
    let Reading {
        writer,
        slots,
        calls,
    } = read_lines(heap, text)?;
    let room = Vec::with_capacity(heap, calls.len())?;
    let outcome = run(limits, writer, &calls, room).unwrap();
    merge(heap, &slots, &outcome.answers)
}

// What a script prints, one answer a line: their texts, each with a newline, are the whole text that it prints.
#[tactic(auto, using(crate::proofs::Playing::one_each))]
pub fn run_script(heap: Global, text: &[u8]) -> Result<Vec<Answer>, AllocError>
    ensures answers { IfOk result (λ v. ScriptAnswers (lines text.now) v.items) }
    ensures each { IfOk result (λ v. OneEach (lines text.now) v.items) }
    ensures printed { IfOk result (λ v. ScriptPrints (lines text.now) (answer_lines v.items)) }
{
    let Some((first, rest)) = next_line(text) else {
        return Ok(vec![in heap; Answer::Misfit]?);
    };
    match read_limits(first) {
        Ok(limits) => play(heap, limits, rest),
        Err(answer) => Ok(vec![in heap; answer]?),
    }
}

// The text that a script prints: its answers, one a line.
pub fn script_text(heap: Global, text: &[u8]) -> Result<String, AllocError>
    ensures { IfOk result (λ s. ScriptPrints (lines text.now) (string_bytes s)) }
{
    let answers = run_script(heap, text)?;
    format!(in heap; "{}", AnswerLines(&answers))
}
