// The meaning of a shared stream: what one call answers and leaves, and the promises over every list of calls.
#![tactic(auto)]

pub mod laws;
