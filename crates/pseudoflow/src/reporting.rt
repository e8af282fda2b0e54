//! Who is told how far a search is.

/// What a search calls from time to time to show how far it is. It can't change the search.
pub trait Progress {
    /// Called each time that 65,536 turns or more have gone by, between the turns of one strong tree and those of the
    /// next, and once at the end of the search.
    ///
    /// `settled` is how many of the `blocks` are known to be inside the pit or outside it. While the search goes on
    /// those are the blocks of the trees that were lifted: no pair leads from them to a block that could take their
    /// excess, so they are in the pit for good. At the end of the search every block is settled.
    fn report(&self, settled: u32, blocks: u32);
}

/// Nobody is told.
#[derive(Clone, Copy)]
pub struct Silent;

impl Progress for Silent {
    fn report(&self, _settled: u32, _blocks: u32) {}
}
