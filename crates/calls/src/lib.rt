// The calls of a shared stream as data: one call performed, and a whole list of them run under the promises.
#![tactic(auto)]

pub mod answer;
pub mod perform;
pub mod run;

pub use answer::Answer;
pub use handles::Call;
