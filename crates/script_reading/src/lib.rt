// A script's lines after the first, read into a plan for the writer and a list of calls.
#![tactic(auto)]

pub mod reading;

pub use reading::Reading;
