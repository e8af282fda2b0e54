//! Which keys settings may have, how each is written, and in which order their faults are answered.

ghost use Rattle.std.specs.Prelude.{◌≡◌};
ghost use Rattle.settings_file.specs.Keys.{settings_key_name, is_settings_key};

/// A key of settings. They stand in the order in which their faults are answered.
#[derive(Clone, Copy, Debug, PartialEq, Eq)]
pub enum Key {
    /// The column of revenues.
    Revenue,
    /// The column of costs.
    Cost,
    /// The column of tonnes.
    Tonnes,
    /// The factors of the shells, in thousandths.
    Factors,
    /// The factor of the report, in thousandths.
    Report,
    /// The offsets of a slope.
    Offsets,
    /// The column of what it costs to process a block in the mill.
    Processing,
    /// The column of what it costs to mine a block, wherever it goes.
    Mining,
    /// The offsets of each region's slope.
    Slopes,
    /// The column that says in which region a block is.
    Region,
    /// Which way is up.
    Up,
    /// The columns of each way to treat blocks.
    Ways,
}

impl Key {
    /// The key as it is written in a text.
    pub fn name(self) -> &'static str
        ensures { result.now ≡ settings_key_name self }
    {
        match self {
            Key::Revenue => "revenue",
            Key::Cost => "cost",
            Key::Tonnes => "tonnes",
            Key::Factors => "factors",
            Key::Report => "report",
            Key::Offsets => "offsets",
            Key::Processing => "processing",
            Key::Mining => "mining",
            Key::Slopes => "slopes",
            Key::Region => "region",
            Key::Up => "up",
            Key::Ways => "ways",
        }
    }
}

// Whether a text is a key's name. The tests stand one by one, since the prover's search takes them singly.
pub(crate) fn is_key(text: &str) -> bool
    ensures { result ≡ is_settings_key text.now }
{
    if text == Key::Revenue.name() {
        return true;
    }
    if text == Key::Cost.name() {
        return true;
    }
    if text == Key::Tonnes.name() {
        return true;
    }
    if text == Key::Factors.name() {
        return true;
    }
    if text == Key::Report.name() {
        return true;
    }
    if text == Key::Offsets.name() {
        return true;
    }
    if text == Key::Processing.name() {
        return true;
    }
    if text == Key::Mining.name() {
        return true;
    }
    if text == Key::Slopes.name() {
        return true;
    }
    if text == Key::Region.name() {
        return true;
    }
    if text == Key::Up.name() {
        return true;
    }
    if text == Key::Ways.name() {
        return true;
    }
    false
}
