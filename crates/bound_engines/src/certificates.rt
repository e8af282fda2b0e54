//! The certificate of the nodes, and that of a pit of the mine where one is given: the devices that have them, in the
//! order in which they are read.

/// The certificates by which a bound is judged, in the order in which they are read.
#[derive(Drop)]
pub struct Certificates<C> {
    /// That of a pit of the mine, where the mine of nodes is made of its blocks alone.
    pub pit: Option<C>,
    /// That of the nodes.
    pub nodes: C,
}
