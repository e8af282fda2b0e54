//! Which blocks a block rests on, way by way, whoever holds them.

ghost use Rattle.std.specs.Prelude.{◌≡◌, ◌<◌};
ghost use Rattle.places.specs.Ways.{PrecedenceView, IsPrecedence};

/// Who precedes whom among blocks.
pub trait Precedence {
    // how many blocks there are, who rests on whom, and where the ways from each block lead
    ghost shown: { Self → PrecedenceView };

    /// How many blocks there are.
    fn len(&self) -> u32
        ensures is { result ≡ (shown self.now).blocks }
        ensures all { IsPrecedence (shown self.now) };

    /// How many ways lead up from a block.
    fn ways(&self, b: u32) -> u32
        requires { b < (shown self.now).blocks }
        ensures { result ≡ (shown self.now).ways b };

    /// The block to which way k of b leads, if one is there.
    fn way(&self, b: u32, k: u32) -> Option<u32>
        requires known { b < (shown self.now).blocks }
        requires inside { k < (shown self.now).ways b }
        ensures { result ≡ (shown self.now).way b k };

    /// Whether b rests on p.
    fn has(&self, b: u32, p: u32) -> bool
        requires { b < (shown self.now).blocks }
        ensures { result ≡ (shown self.now).rests b p };
}
