// The worker stream: unfinished writes wait in a store until host turns hand them to a writer.
pub mod job;
pub mod store;
pub mod worker;

pub use job::{Job, Turn};
pub use worker::AsyncWriteStream;
