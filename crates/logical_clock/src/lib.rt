//! The clock of a run: which step was completed last, and whether the next one is updating.
//!
//! The value is `2 * step + 1` when idle after a step, and `2 * step` while that step is updating. So it rises by one
//! when a step begins and by one when it ends, and starts at 1, idle after step 0.
#![tactic(auto)]

ghost use Rattle.std.specs.Prelude.{◌≡◌, ◌+◌, ◌^◌, ◌<◌, ◌≤◌, ℕ};
ghost use Rattle.tick_model.specs.Clock.{idle, updating, completed};
ghost use Rattle.logical_clock.specs.States.{value_in};

/// What a run does.
#[derive(Clone, Copy, Debug, PartialEq, Eq)]
pub enum ClockState {
    /// The step is completed, and the next one has not begun.
    Idle,
    /// The step is updating.
    Updating,
}

/// A value of the clock.
#[derive(Clone, Copy, Debug, PartialEq, Eq)]
pub struct ClockValue(pub u64);

impl ClockValue {
    /// The value when idle after a step.
    pub fn idle(step: u64) -> ClockValue
        requires { step < 2 ^ 62 }
        ensures { result.0 ≡ idle step }
    {
        ClockValue(2 * step + 1)
    }

    /// The value while a step is updating. Step 0 never is.
    pub fn updating(step: u64) -> ClockValue
        requires some { 1 ≤ step }
        requires small { step < 2 ^ 62 }
        ensures { result.0 ≡ updating step }
    {
        ClockValue(2 * step)
    }

    /// Whether a step is updating.
    pub fn state(&self) -> ClockState
        requires { 1 ≤ self.now.0 }
        ensures { (step : ℕ) × (self.now.0 ≡ value_in result step) }
    {
        if self.0 % 2 == 1 {
            ClockState::Idle
        } else {
            ClockState::Updating
        }
    }

    /// The step that is completed when idle, and else the one that is updating.
    pub fn step(&self) -> u64
        requires { 1 ≤ self.now.0 }
        ensures { (state : _) × (self.now.0 ≡ value_in state result) }
    {
        self.0 / 2
    }

    /// The last step that is completed: the step when idle, and the one before it while it is updating.
    pub fn completed(&self) -> u64
        requires { 1 ≤ self.now.0 }
        ensures value { result ≡ completed self.now.0 }
        ensures idle { (step : ℕ) → self.now.0 ≡ idle step → result ≡ step }
        ensures updating { (step : ℕ) → self.now.0 ≡ updating step → result + 1 ≡ step }
    {
        (self.0 - 1) / 2
    }
}
