// Making limits and reading them. Relies on `limits`.
ghost use Rattle.std.specs.Prelude.{◌≡◌, Some, None, MatchResult};
ghost use Rattle.stream.specs.LimitsRules.{refusal};

use super::refusal::LimitsError;
use super::{Limits, MAX_BUDGET, MAX_HANDLES};

impl Limits {
    pub fn new(budget: usize, handles: usize) -> Result<Limits, LimitsError>
        ensures cases { MatchResult result (λ l. (refusal budget handles ≡ None) × (l.budget ≡ budget) × (l.handles ≡ handles)) (λ e. refusal budget handles ≡ Some e) }
    {
        if budget > MAX_BUDGET {
            return Err(LimitsError::BudgetTooLarge);
        }
        if !(1..=MAX_HANDLES).contains(&handles) {
            return Err(LimitsError::HandlesOutOfRange);
        }
        Ok(Limits { budget, handles })
    }

    // The starting budget.
    pub fn budget(&self) -> usize
        ensures { result ≡ self.now.budget }
    {
        self.budget
    }

    // How many handles there are.
    pub fn handles(&self) -> usize
        ensures { result ≡ self.now.handles }
    {
        self.handles
    }
}
