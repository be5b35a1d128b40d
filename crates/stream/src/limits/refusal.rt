// Why limits are refused. Relies on nothing.
ghost use Rattle.std.specs.Prelude.{◌≡◌};
ghost use Rattle.stream.specs.LimitsRules.{number};

#[derive(Clone, Copy, PartialEq, Eq, Debug)]
pub enum LimitsError {
    // A starting budget above 4,096 bytes.
    BudgetTooLarge,
    // No handle, or more than 16.
    HandlesOutOfRange,
}

impl LimitsError {
    // The refusal's number, by which the rules name it: `u8::from` would not say what number it is.
    pub fn code(&self) -> u8
        ensures { result ≡ number self.now }
    {
        match *self {
            LimitsError::BudgetTooLarge => 1,
            LimitsError::HandlesOutOfRange => 2,
        }
    }
}
