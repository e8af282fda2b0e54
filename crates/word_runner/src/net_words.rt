//! The state of a push-relabel run over a net, in words that one or two workers share without a lock.

ghost use Rattle.std.specs.Prelude.{◌≡◌, ◌≤◌, ◌^◌, length};
ghost use Rattle.word_runner.specs.Seats.{WordsView, IsWords};

use closure_net::Net;
use ordered_group::Scaled;
use std::marker::Model;
use word_steps::WordTable;

/// The state of the machine in words that one or two seats share without a lock.
#[derive(Drop)]
pub struct Words {
    pub(crate) table: WordTable,
    // the net that was handed in, except that a negative worth takes no more than the total
    pub(crate) net: Net<Scaled>,
    // what the source gives in all, in units
    pub(crate) total: u64,
    pub(crate) workers: u32,
}

impl Model for Words {
    ghost use Rattle.word_runner.specs.Seats.{WordsView, IsWords};

    ghost Value = { WordsView };

    ghost view = { λ w.
        record { shared = w.table.shared; cut = w.net; total = w.total; workers = w.workers } };

    ghost invariant = { λ w. IsWords w.table.shared w.net w.total w.workers };
}

impl Words {
    /// How many blocks the net has.
    pub fn len(&self) -> u32
        ensures is { result ≡ length self.now.cut.worths }
        ensures few { result ≤ 2 ^ 24 }
        ensures words { IsWords self.now.shared self.now.cut self.now.total self.now.workers }
    {
        // proof: a net has at most 2^24 blocks
        let _few = self.net.rests().len();
        self.net.len()
    }
}
