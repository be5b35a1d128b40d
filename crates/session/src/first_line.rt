// The first line of a script. Relies on `script` for its two numbers, and on `stream` for the limits.
ghost use Rattle.std.specs.Prelude.{◌≡◌, Some, None, MatchResult};
ghost use Rattle.stream.specs.LimitsRules.{refusal};
ghost use Rattle.script.specs.Parsing.{limits};
ghost use Rattle.session.specs.Scripts.{NotBegun};

use answers::Answer;
use script::parse_limits;
use stream::Limits;

// The limits that a first line gives, or what a script answers that does not begin with it.
pub fn read_limits(line: &[u8]) -> Result<Limits, Answer>
    ensures { MatchResult result (λ l. (limits line.now ≡ Some (l.budget, l.handles)) × (refusal l.budget l.handles ≡ None)) (λ answer. NotBegun (limits line.now) answer) }
{
    let (budget, handles) = parse_limits(line).ok_or(Answer::Misfit)?;
    Ok(Limits::new(budget, handles)?)
}
