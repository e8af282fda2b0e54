//! Links to blocks: a number that is tested against the number of blocks at each use, so that none leads out of bounds.

ghost use Rattle.std.specs.Prelude.{◌≡◌, ◌<◌, ◌≤◌, IfSome, IfNone};

/// A link to a block, or to none. Each number that isn't below the number of blocks names none: the test that keeps an
/// index in bounds is the one for a link to none, and costs nothing more.
#[derive(Clone, Copy)]
pub struct Link {
    number: u32,
}

/// A link to no block.
pub const NO_LINK: Link = Link { number: u32::MAX };

impl Link {
    /// A link to a block.
    pub fn to(block: u32) -> Link
        ensures { result.number ≡ block }
    {
        Link { number: block }
    }

    /// The block to which it leads, of so many blocks.
    pub fn block(self, blocks: usize) -> Option<u32>
        ensures known { IfSome result (λ b. b < blocks) }
        ensures named { IfSome result (λ b. b ≡ self.number) }
        ensures none { IfNone result (blocks ≤ self.number) }
    {
        if (self.number as usize) < blocks {
            Some(self.number)
        } else {
            None
        }
    }
}
