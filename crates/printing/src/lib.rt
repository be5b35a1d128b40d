// What is printed of the replies of the shared stream. Relies on `calls` for the replies and on `answers` for what is printed.
#![tactic(auto)]

ghost use Rattle.std.specs.Prelude.{◌≡◌};
ghost use Rattle.answers.specs.Printing.{printed};

use answers::Answer;

// The printed answer to a reply. The name stands for a conversion of `answers`: `Answer::from` in its place is no plainer.
pub fn print(reply: calls::Answer) -> Answer
    ensures { result ≡ printed reply }
{
    reply.into()
}
