// What a line of a script answers, the answer that a value, a refusal, a turn or a reply becomes, and the line that is printed of it.
#![tactic(auto)]

pub mod answer;
pub mod answer_lines;
pub mod refusals;
pub mod replies;
pub mod values;

pub use answer::Answer;
pub use answer_lines::AnswerLines;
