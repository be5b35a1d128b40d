// Plays a script over the shared stream: its lines are read into calls, the calls are run, and each line gets its answer.
#![tactic(auto)]

pub mod first_line;
pub mod play;

pub use first_line::read_limits;
pub use play::{run_script, script_text};
