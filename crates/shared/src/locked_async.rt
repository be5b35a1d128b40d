// The shared stream: a fair lock, the handles that share a stream under it, and the calls of both.
pub mod lock;
pub mod parts;
pub mod stdout;
pub mod table;
