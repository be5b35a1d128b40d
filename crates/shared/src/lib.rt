// Several handles over one output stream.
#![tactic(auto)]

pub mod locked_async;

pub use locked_async::stdout::AsyncStdoutStream;
