//! Lets several threads take turns at one run, one at a time under a lock, and gives the run back at
//! the end.

use boards::{Audited, Board, Turn, TurnBoard};
use ordered_group::{OrderedGroup, Scaled, Worth, WorthSize};
use std::sync::{Mutex, Wait};

/// What workers take their turns at.
pub trait Shared: Sync {
    /// One turn, as `Board::turn`. May wait for the turns of other workers.
    fn act<R: Wait>(&self, rt: &R, own: Option<u32>, from: u32, steps: u64) -> Turn;
}

/// Something under a lock.
#[derive(Drop)]
pub struct Locked<B> {
    inner: Mutex<B>,
}

impl<B> Locked<B> {
    /// Puts it under a lock.
    pub fn new(board: B) -> Locked<B> {
        Locked {
            inner: Mutex::new(board),
        }
    }

    /// Takes it out. Waits for nobody, since nobody else can have the lock.
    pub fn into_inner(self) -> B {
        let Locked { inner } = self;
        inner.into_inner()
    }
}

// One turn at a board under a lock, which is taken and given back within it.
fn turn_at<G: OrderedGroup, R: Wait>(
    rt: &R,
    board: &Mutex<Board<G>>,
    own: Option<u32>,
    from: u32,
    steps: u64,
) -> Turn {
    board.lock(rt).turn(own, from, steps)
}

fn turn_alone_at<G: OrderedGroup, R: Wait>(
    rt: &R,
    board: &Mutex<TurnBoard<G>>,
    own: Option<u32>,
    from: u32,
    steps: u64,
) -> Turn {
    board.lock(rt).turn(own, from, steps)
}

fn turn_audited_at<G: OrderedGroup, R: Wait>(
    rt: &R,
    board: &Mutex<Audited<G>>,
    own: Option<u32>,
    from: u32,
    steps: u64,
) -> Turn {
    board.lock(rt).turn(own, from, steps)
}

// The kit proves no method of a trait that calls on a group which is a parameter of the `impl`, since
// a group crosses threads; so each group has an `impl` of its own.
impl Shared for Locked<Board<Worth>> {
    fn act<R: Wait>(&self, rt: &R, own: Option<u32>, from: u32, steps: u64) -> Turn {
        turn_at(rt, &self.inner, own, from, steps)
    }
}

impl Shared for Locked<Board<WorthSize>> {
    fn act<R: Wait>(&self, rt: &R, own: Option<u32>, from: u32, steps: u64) -> Turn {
        turn_at(rt, &self.inner, own, from, steps)
    }
}

impl Shared for Locked<Board<Scaled>> {
    fn act<R: Wait>(&self, rt: &R, own: Option<u32>, from: u32, steps: u64) -> Turn {
        turn_at(rt, &self.inner, own, from, steps)
    }
}

impl Shared for Locked<TurnBoard<Worth>> {
    fn act<R: Wait>(&self, rt: &R, own: Option<u32>, from: u32, steps: u64) -> Turn {
        turn_alone_at(rt, &self.inner, own, from, steps)
    }
}

impl Shared for Locked<TurnBoard<WorthSize>> {
    fn act<R: Wait>(&self, rt: &R, own: Option<u32>, from: u32, steps: u64) -> Turn {
        turn_alone_at(rt, &self.inner, own, from, steps)
    }
}

impl Shared for Locked<TurnBoard<Scaled>> {
    fn act<R: Wait>(&self, rt: &R, own: Option<u32>, from: u32, steps: u64) -> Turn {
        turn_alone_at(rt, &self.inner, own, from, steps)
    }
}

impl Shared for Locked<Audited<Worth>> {
    fn act<R: Wait>(&self, rt: &R, own: Option<u32>, from: u32, steps: u64) -> Turn {
        turn_audited_at(rt, &self.inner, own, from, steps)
    }
}

impl Shared for Locked<Audited<WorthSize>> {
    fn act<R: Wait>(&self, rt: &R, own: Option<u32>, from: u32, steps: u64) -> Turn {
        turn_audited_at(rt, &self.inner, own, from, steps)
    }
}

impl Shared for Locked<Audited<Scaled>> {
    fn act<R: Wait>(&self, rt: &R, own: Option<u32>, from: u32, steps: u64) -> Turn {
        turn_audited_at(rt, &self.inner, own, from, steps)
    }
}
