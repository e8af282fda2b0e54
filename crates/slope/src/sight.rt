//! What is known of the block at an offset from a place: not looked up yet, none, or its number.

ghost use Rattle.std.specs.Prelude.{◌≡◌, MatchOption};

// What was seen at an offset from a place.
#[derive(Clone, Copy)]
pub(crate) enum Sight {
    // It wasn't looked up yet.
    Unasked,
    // No block stands there.
    Nothing,
    // This block stands there.
    Block(u32),
}

// What is seen where this block was found, or none.
pub(crate) fn sight_of(found: Option<u32>) -> Sight
    ensures { MatchOption found (result ≡ Sight.Nothing) (λ p. result ≡ Sight.Block p) }
{
    match found {
        Some(block) => Sight::Block(block),
        None => Sight::Nothing,
    }
}
