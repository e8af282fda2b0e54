//! Which keys periods may have, how each is written, and in which order their faults are answered.

ghost use Rattle.std.specs.Prelude.{◌≡◌};
ghost use Rattle.periods_file.specs.Keys.{key_name, is_known};

/// A key of periods. They stand in the order in which their faults are answered.
#[derive(Clone, Copy, Debug, PartialEq, Eq)]
pub enum PeriodKey {
    /// What each period weighs.
    Weights,
    /// The columns of what blocks use.
    Resources,
    /// What each period has of each resource.
    Capacities,
    /// The price of each resource in each period.
    Multipliers,
    /// The columns of the blocks for which blocks wait.
    Waits,
    /// How many periods they wait.
    Lag,
}

impl PeriodKey {
    /// The key as it is written in a text.
    pub fn name(self) -> &'static str
        ensures { result.now ≡ key_name self }
    {
        match self {
            PeriodKey::Weights => "weights",
            PeriodKey::Resources => "resources",
            PeriodKey::Capacities => "capacities",
            PeriodKey::Multipliers => "multipliers",
            PeriodKey::Waits => "waits",
            PeriodKey::Lag => "lag",
        }
    }
}

// Whether a text is a key's name. The tests stand one by one, since the prover's search takes them singly.
pub(crate) fn is_key(text: &str) -> bool
    ensures { result ≡ is_known text.now }
{
    if text == PeriodKey::Weights.name() {
        return true;
    }
    if text == PeriodKey::Resources.name() {
        return true;
    }
    if text == PeriodKey::Capacities.name() {
        return true;
    }
    if text == PeriodKey::Multipliers.name() {
        return true;
    }
    if text == PeriodKey::Waits.name() {
        return true;
    }
    if text == PeriodKey::Lag.name() {
        return true;
    }
    false
}
