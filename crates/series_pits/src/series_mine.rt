//! A mine whose blocks have prices, with its pairs and the factors at which its pits are wanted.

ghost use Rattle.std.specs.Prelude.{◌≡◌};
ghost use Rattle.settings_file.specs.Values.{AreFactors};
ghost use Rattle.shells.specs.Prices.{priced_count};

use held_pairs::HeldPairs;
use shells::{Factor, Prices};

/// A mine whose blocks have prices, and the factors at which its pits are wanted.
#[derive(Drop)]
pub struct SeriesMine {
    /// The prices of the blocks.
    pub prices: Prices,
    /// Who rests on whom.
    pub predecessors: HeldPairs,
    /// The factors, rising.
    pub factors: Vec<Factor>,
    /// The factor of the report, at which ways and worths are told.
    pub factor: Factor,
    ghost form: { AreFactors factors.items },
    ghost sizes: { predecessors.blocks ≡ priced_count prices },
}
