// The canonical text of a command. Relies on the commands alone.
ghost use Rattle.std.specs.Prelude.{◌≡◌, ◌++◌, IfOk, string_bytes};
ghost use Rattle.script.specs.Commands.{canonical};
ghost use Rattle.script.specs.Parsing.{ParsesBack};
ghost use Rattle.script.specs.View.{view};

use handles::Call;
use planned_writer::PlanEntry;
use script::command::Command;
use std::alloc::{AllocError, Global};

// The letter of the command and its number, and then the bytes that it holds, which need not be text.
fn parts<'a>(heap: Global, command: Command<'a>) -> Result<(String, &'a [u8]), AllocError>
    ensures made { IfOk result (λ p. string_bytes p.0 ++ p.1.now ≡ canonical (view command.entry)) }
{
    Ok(match command {
        Command::Call(Call::Write(bytes)) => (format!(in heap; "w ")?, bytes),
        Command::Call(Call::CheckWrite) => (format!(in heap; "c")?, &[]),
        Command::Call(Call::Flush) => (format!(in heap; "f")?, &[]),
        Command::Call(Call::Cancel) => (format!(in heap; "x")?, &[]),
        Command::Call(Call::Turn) => (format!(in heap; "t")?, &[]),
        Command::Call(Call::PollWrite(handle, bytes)) => (format!(in heap; "W {handle} ")?, bytes),
        Command::Call(Call::PollFlush(handle)) => (format!(in heap; "F {handle}")?, &[]),
        Command::Call(Call::DropHandle(handle)) => (format!(in heap; "D {handle}")?, &[]),
        Command::Plan(PlanEntry::AtMost(most)) => (format!(in heap; "p {most}")?, &[]),
        Command::Plan(PlanEntry::NotYet) => (format!(in heap; "q")?, &[]),
        Command::Plan(PlanEntry::Fail(code)) => (format!(in heap; "r {code}")?, &[]),
    })
}

// The text that is read as this command, with no leading zeros.
#[tactic(auto, using(crate::proofs::RoundTrip::parses_back))]
pub fn canonical_command(heap: Global, command: &Command) -> Result<Vec<u8>, AllocError>
    ensures made { IfOk result (λ v. v.items ≡ canonical (view command.now)) }
    ensures back { ParsesBack (view command.now) }
{
    let (text, bytes) = parts(heap, *command)?;
    let mut line = text.into_bytes();
    line.extend_from_slice(bytes)?;
    Ok(line)
}
