//! The forest: which block hangs under which.

ghost use Rattle.std.specs.Prelude.{◌≡◌, ◌<◌, ◌≤◌, length, IfSome, IfOk};

use net_part::{Amount, Link, NO_LINK, WaysUp};
use std::alloc::{AllocError, Global};
use std::marker::Model;

/// How the arc of a block and its parent points. An arc leads from a block to one that it rests on, and has no limit.
#[derive(Clone, Copy, PartialEq, Eq)]
pub enum Direction {
    /// To the parent: the block rests on it, and any amount can be pushed up.
    Up,
    /// To the block: the parent rests on it, and no more can be pushed up than the arc carries down.
    Down,
}

impl Direction {
    /// The direction of the same arc once child and parent have changed places.
    pub(crate) fn reversed(self) -> Direction {
        match self {
            Direction::Up => Direction::Down,
            Direction::Down => Direction::Up,
        }
    }
}

// What the search keeps of a block: what it has left, the links of its tree, and where two searches at it stand. What a
// push looks at stands together, first, and then what a walk looks at, since a record seldom begins where a line of the
// memory does.
#[derive(Clone, Copy)]
struct Node<A: Amount> {
    // a deficit where it is negative
    excess: A,
    // what the arc of the block and its parent carries
    flow: A,
    direction: Direction,
    parent: Link,
    // the children of a block form a list, linked both ways so that any of them is taken out at once
    first_child: Link,
    next_sibling: Link,
    previous_sibling: Link,
    // the child with which the depth-first walk goes on
    unvisited: Link,
    // where its pairs begin and end among those of the search, and which was not passed yet since it got its label
    first_arc: u32,
    end_of_arcs: u32,
    current_arc: u32,
    // the root after it in the bucket of its label
    next_root: Link,
}

// A block that is a tree of its own.
fn alone<A: Amount>(excess: A, first_arc: u32, end_of_arcs: u32) -> Node<A> {
    Node {
        excess,
        flow: A::zero(),
        direction: Direction::Up,
        parent: NO_LINK,
        first_child: NO_LINK,
        next_sibling: NO_LINK,
        previous_sibling: NO_LINK,
        unvisited: NO_LINK,
        first_arc,
        end_of_arcs,
        current_arc: first_arc,
        next_root: NO_LINK,
    }
}

/// The rooted trees of a pseudoflow, the branches of Hochbaum's normalized tree without the root that joins them. Only
/// their arcs carry anything. A tree is strong where its root has an excess, and weak otherwise, as in Lerchs and
/// Grossmann's algorithm.
#[derive(Drop)]
pub(crate) struct Forest<A: Amount> {
    nodes: Vec<Node<A>>,
}

impl<A: Amount> Model for Forest<A> {
    ghost use Rattle.std.specs.Prelude.{ℕ, length};

    ghost Value = { ℕ };

    ghost view = { λ f. length f.nodes.items };
}

impl<A: Amount> Forest<A> {
    /// Each block a tree of its own. The arcs of the source and of the sink are saturated: what a block has left is
    /// what it is worth.
    pub(crate) fn new<W: WaysUp>(
        alloc: Global,
        worths: &[A],
        above: &W,
    ) -> Result<Forest<A>, AllocError>
        requires { length worths.now ≡ W.count above.now }
        ensures { IfOk result (λ f. f ≡ length worths.now) }
    {
        let mut nodes = Vec::with_capacity(alloc, worths.len())?;
        for k in 0..above.len() {
            let (first_arc, end_of_arcs) = above.ends(k);
            nodes.push_reserved(alone(worths[k as usize], first_arc, end_of_arcs));
        }
        Ok(Forest { nodes })
    }

    /// How many blocks there are, where a number takes them.
    pub(crate) fn len(&self) -> u32
        ensures { result ≤ self.now }
    {
        u32::try_from(self.nodes.len()).unwrap_or(0)
    }

    /// The excess of b.
    pub(crate) fn excess(&self, b: u32) -> A
        requires { b < self.now }
    {
        self.nodes[b as usize].excess
    }

    /// What the arc of b and its parent carries.
    pub(crate) fn flow(&self, b: u32) -> A
        requires { b < self.now }
    {
        self.nodes[b as usize].flow
    }

    /// Sets the excess of b.
    pub(crate) fn set_excess(&mut self, b: u32, amount: A)
        requires { b < self.old }
        ensures { self.new ≡ self.old }
    {
        self.nodes[b as usize].excess = amount;
    }

    /// Sets what the arc of b and its parent carries.
    pub(crate) fn set_flow(&mut self, b: u32, amount: A)
        requires { b < self.old }
        ensures { self.new ≡ self.old }
    {
        self.nodes[b as usize].flow = amount;
    }

    /// The block to which a link leads.
    pub(crate) fn block(&self, link: Link) -> Option<u32>
        ensures { IfSome result (λ b. b < self.now) }
    {
        link.block(self.nodes.len())
    }

    /// The parent of b. A root has none.
    pub(crate) fn parent(&self, b: u32) -> Option<u32>
        requires { b < self.now }
        ensures { IfSome result (λ p. p < self.now) }
    {
        self.nodes[b as usize].parent.block(self.nodes.len())
    }

    /// The first child of b.
    pub(crate) fn first_child(&self, b: u32) -> Option<u32>
        requires { b < self.now }
        ensures { IfSome result (λ c. c < self.now) }
    {
        self.nodes[b as usize].first_child.block(self.nodes.len())
    }

    /// The child after b of the same parent.
    pub(crate) fn next_sibling(&self, b: u32) -> Option<u32>
        requires { b < self.now }
        ensures { IfSome result (λ c. c < self.now) }
    {
        self.nodes[b as usize].next_sibling.block(self.nodes.len())
    }

    /// How the arc of b and its parent points.
    pub(crate) fn direction(&self, b: u32) -> Direction
        requires { b < self.now }
    {
        self.nodes[b as usize].direction
    }

    /// Makes a root the first child of a block of another tree.
    pub(crate) fn link(&mut self, parent: u32, root: u32, direction: Direction)
        requires parent { parent < self.old }
        requires root { root < self.old }
        ensures { self.new ≡ self.old }
    {
        let first = self.nodes[parent as usize].first_child;
        self.nodes[parent as usize].first_child = Link::to(root);
        if let Some(sibling) = first.block(self.nodes.len()) {
            self.nodes[sibling as usize].previous_sibling = Link::to(root);
        }
        let node = &mut self.nodes[root as usize];
        node.parent = Link::to(parent);
        node.next_sibling = first;
        node.previous_sibling = NO_LINK;
        node.direction = direction;
    }

    /// Makes b a root, with all that hangs under it. A root stays as it is.
    pub(crate) fn cut(&mut self, b: u32)
        requires { b < self.old }
        ensures { self.new ≡ self.old }
    {
        let n = self.nodes.len();
        let node = self.nodes[b as usize];
        // the siblings of a root are those that it had before it was cut: they are not to be joined again
        let Some(parent) = node.parent.block(n) else {
            return;
        };
        match node.previous_sibling.block(n) {
            Some(previous) => self.nodes[previous as usize].next_sibling = node.next_sibling,
            None => self.nodes[parent as usize].first_child = node.next_sibling,
        }
        if let Some(next) = node.next_sibling.block(n) {
            self.nodes[next as usize].previous_sibling = node.previous_sibling;
        }
        self.nodes[b as usize].parent = NO_LINK;
    }

    /// Begins a walk over the children of b.
    pub(crate) fn begin_visits(&mut self, b: u32)
        requires { b < self.old }
        ensures { self.new ≡ self.old }
    {
        let node = &mut self.nodes[b as usize];
        node.unvisited = node.first_child;
    }

    /// The child of b at which the walk over its children stands.
    pub(crate) fn unvisited(&self, b: u32) -> Option<u32>
        requires { b < self.now }
        ensures { IfSome result (λ c. c < self.now) }
    {
        self.nodes[b as usize].unvisited.block(self.nodes.len())
    }

    /// Moves the walk over the children of b past a child.
    pub(crate) fn pass_child(&mut self, b: u32, child: u32)
        requires block { b < self.old }
        requires child { child < self.old }
        ensures { self.new ≡ self.old }
    {
        let next = self.nodes[child as usize].next_sibling;
        self.nodes[b as usize].unvisited = next;
    }

    /// The pairs of b that are to be looked at: from its current arc on, the first that was not passed since it got its
    /// label, up to the end of its pairs.
    pub(crate) fn arcs_left(&self, b: u32) -> (u32, u32)
        requires { b < self.now }
    {
        let node = &self.nodes[b as usize];
        (node.current_arc, node.end_of_arcs)
    }

    /// Sets the current arc of b.
    pub(crate) fn set_current_arc(&mut self, b: u32, arc: u32)
        requires { b < self.old }
        ensures { self.new ≡ self.old }
    {
        self.nodes[b as usize].current_arc = arc;
    }

    /// Makes the first pair of b its current arc.
    pub(crate) fn begin_arcs(&mut self, b: u32)
        requires { b < self.old }
        ensures { self.new ≡ self.old }
    {
        let node = &mut self.nodes[b as usize];
        node.current_arc = node.first_arc;
    }

    /// The link from b to the root after it in its bucket.
    pub(crate) fn next_root(&self, b: u32) -> Link
        requires { b < self.now }
    {
        self.nodes[b as usize].next_root
    }

    /// Sets the link from b to the root after it in its bucket.
    pub(crate) fn set_next_root(&mut self, b: u32, link: Link)
        requires { b < self.old }
        ensures { self.new ≡ self.old }
    {
        self.nodes[b as usize].next_root = link;
    }
}
