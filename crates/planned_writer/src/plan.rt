// One entry of a planned writer's plan. Relies on nothing.

// What the next call of a planned writer meets.
#[derive(Clone, Copy, PartialEq, Eq, Debug, Default)]
pub enum PlanEntry {
    // A write hands down at most so many bytes; a flush is handed down as it is.
    AtMost(u16),
    // Also what lies in the unused places of a plan.
    #[default]
    NotYet,
    // The call fails with this device code.
    Fail(u8),
}
