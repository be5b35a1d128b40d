// The text of scripts: its lines, and a line read as a command.
#![tactic(auto)]

pub mod command;
pub mod lines;
pub mod number;
pub mod parse;

pub use command::Command;
pub use lines::{Lines, next_line};
pub use parse::{parse_command, parse_limits};
