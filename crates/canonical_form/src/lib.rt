// The canonical text of a command, which is read as that command.
#![tactic(auto)]

pub mod canonical;

pub use canonical::canonical_command;
