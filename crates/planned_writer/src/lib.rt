// A writer over any other, whose first answers follow a plan.
#![tactic(auto)]

pub mod plan;
pub mod planned;

pub use plan::PlanEntry;
pub use planned::{PlanFull, PlannedWriter};
