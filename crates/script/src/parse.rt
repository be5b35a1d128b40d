// Reads the lines of a script. Relies on the splitting of lines and the reading of numbers.
ghost use Rattle.std.specs.Prelude.{◌≡◌};
ghost use Rattle.script.specs.Numbers.{at_most};
ghost use Rattle.script.specs.Parsing.{past_blank, alone, argument, handle_write_of, forms, form_of, parsed, limits};
ghost use Rattle.script.specs.View.{view};
ghost use Rattle.std.specs.Option.{option_map};

use crate::command::Command;
use crate::lines::split_once;
use crate::number::parse_number;
use handles::Call;
use planned_writer::PlanEntry;

// A plan entry takes at most so many bytes.
const MAX_BYTES: u16 = 4096;

// What follows a blank.
fn after_blank(text: &[u8]) -> Option<&[u8]>
    ensures value { option_map (λ x. x.now) result ≡ past_blank text.now }
{
    text.strip_prefix(b" ")
}

// A command that is its letter alone.
fn parse_alone<'a>(command: Command<'a>, rest: &[u8]) -> Option<Command<'a>>
    ensures value { option_map view result ≡ alone (view command.entry) rest.now }
{
    rest.is_empty().then_some(command)
}

// One number after a blank, and nothing else.
fn parse_argument(rest: &[u8]) -> Option<usize>
    ensures value { result ≡ argument rest.now }
{
    parse_number(after_blank(rest)?)
}

// How many bytes a plan entry takes.
fn parse_most(rest: &[u8]) -> Option<u16>
    ensures value { result ≡ at_most 4096 (argument rest.now) }
{
    u16::try_from(parse_argument(rest)?)
        .ok()
        .filter(|most| *most <= MAX_BYTES)
}

// The code of a device.
fn parse_code(rest: &[u8]) -> Option<u8>
    ensures value { result ≡ at_most 255 (argument rest.now) }
{
    u8::try_from(parse_argument(rest)?).ok()
}

// A handle's number between blanks, and then the bytes.
fn parse_handle_write(rest: &[u8]) -> Option<Command<'_>>
    ensures value { option_map view result ≡ handle_write_of rest.now }
{
    let (handle, bytes) = split_once(after_blank(rest)?, b' ')?;
    Some(Command::Call(Call::PollWrite(parse_number(handle)?, bytes)))
}

// The command that the letter and the rest of a line say.
#[tactic(auto, using(crate::proofs::Forms::none_without_letter))]
fn parse_by_letter(letter: char, rest: &[u8]) -> Option<Command<'_>>
    ensures value { option_map view result ≡ form_of forms letter rest.now }
{
    match letter {
        'w' => Some(Command::Call(Call::Write(after_blank(rest)?))),
        'c' => parse_alone(Command::Call(Call::CheckWrite), rest),
        'f' => parse_alone(Command::Call(Call::Flush), rest),
        'x' => parse_alone(Command::Call(Call::Cancel), rest),
        't' => parse_alone(Command::Call(Call::Turn), rest),
        'W' => parse_handle_write(rest),
        'F' => Some(Command::Call(Call::PollFlush(parse_argument(rest)?))),
        'D' => Some(Command::Call(Call::DropHandle(parse_argument(rest)?))),
        'p' => Some(Command::Plan(PlanEntry::AtMost(parse_most(rest)?))),
        'q' => parse_alone(Command::Plan(PlanEntry::NotYet), rest),
        'r' => Some(Command::Plan(PlanEntry::Fail(parse_code(rest)?))),
        _ => None,
    }
}

// The command that a line says, or `None` where the line is a misfit.
pub fn parse_command(line: &[u8]) -> Option<Command<'_>>
    ensures value { option_map view result ≡ parsed line.now }
{
    let (letter, rest) = line.split_first()?;
    parse_by_letter(char::from(*letter), rest)
}

// Budget and number of handles, which the first line gives.
pub fn parse_limits(line: &[u8]) -> Option<(usize, usize)>
    ensures value { result ≡ limits line.now }
{
    let (budget, handles) = split_once(line, b' ')?;
    Some((parse_number(budget)?, parse_number(handles)?))
}
