//! What solvers and the checker ask of a block's worth: sums and differences that tell when they don't fit, an order,
//! and the numbers that a certificate writes. It also lists the kinds of amounts and their names.

ghost use Rattle.std.specs.Prelude.{FitsSigned, ◌≤◌, ◌≡◌, ◌↔◌, ℕ, ℤ, Bool, IsTrue, false, length, pos};
ghost use Rattle.std.specs.Int.{w128};
ghost use Rattle.ordered_group.specs.Amount.{Amount, FitsPair, AtMost, GivesExactly, amount_cmp, minus, plus, zero_amount};
ghost use Rattle.ordered_group.specs.Block.{TakesParts, TellsWorth};
ghost use Rattle.ordered_group.specs.Laws.{SumsTellWorth};
ghost use Rattle.ordered_group.specs.declared.groups.Group.{Group as GroupName};
ghost use Rattle.ordered_group.specs.Group.{group_name, group_of};

use std::fmt;

/// Which kind of amount a file or a run counts in.
#[derive(Clone, Copy, Debug, PartialEq, Eq)]
pub enum Group {
    /// Worth alone.
    Worth,
    /// Worth, and a count of blocks beside it.
    Pair,
    /// Worth and the count of blocks in one number.
    Scaled,
}

impl Group {
    /// The word that a certificate has for the kind. None has more than six letters.
    pub fn word(self) -> &'static str
        ensures text { result.now ≡ group_name self }
        ensures few { length result.now ≤ 6 }
    {
        match self {
            Group::Worth => "WORTH",
            Group::Pair => "PAIR",
            Group::Scaled => "SCALED",
        }
    }

    /// The kind that has this word in a certificate, if one has.
    pub fn of_word(word: &[u8]) -> Option<Group>
        ensures { result ≡ group_of word.now }
    {
        if word == Group::Worth.word().as_bytes() {
            Some(Group::Worth)
        } else if word == Group::Pair.word().as_bytes() {
            Some(Group::Pair)
        } else if word == Group::Scaled.word().as_bytes() {
            Some(Group::Scaled)
        } else {
            None
        }
    }
}

/// The word that a certificate has for the kind.
impl fmt::Display for Group {
    ghost use Rattle.std.specs.Prelude.{Some};
    ghost use Rattle.std.specs.Fmt.{padded};
    ghost use Rattle.ordered_group.specs.Group.{group_name};

    ghost output = { λ g. Some (group_name g) };

    ghost styled_output = { λ g spec. Some (padded spec (group_name g)) };

    fn fmt<W: fmt::Write>(&self, f: &mut fmt::Formatter<W>) -> fmt::Result {
        f.pad(self.word())
    }
}

/// An ordered abelian group of amounts, whose values are machine numbers.
///
/// A maximum closure by a minimum cut (Picard 1976) needs no more than this of a block's worth: sums,
/// differences and one total order. The members with no body say which amount a value stands for; the
/// last five are laws, which each implementation proves.
pub trait OrderedGroup: Copy + Ord + Send + Sync {
    // the amount that a value stands for
    ghost parts_of: { Self → Amount };

    // the amount of one block: its worth in billionths, and how many blocks the model has
    ghost block_parts: { ℤ → ℕ → Amount };

    // whether an amount has a count of blocks beside its worth
    ghost counts: { Bool };

    // the name of the kind
    ghost name: { GroupName };

    // the worth of a set in billionths, by its sum, the model's number of blocks and its own
    ghost set_worth: { Amount → ℕ → ℕ → ℤ };

    /// Nothing: no worth, and no blocks.
    fn zero() -> Self
        ensures { parts_of result ≡ zero_amount };

    /// The sum, or `None` exactly where a number of it overflows.
    fn try_add(self, other: Self) -> Option<Self>
        ensures { GivesExactly parts_of (plus (parts_of self) (parts_of other)) result };

    /// The difference, or `None` exactly where a number of it overflows.
    fn try_sub(self, other: Self) -> Option<Self>
        ensures { GivesExactly parts_of (minus (parts_of self) (parts_of other)) result };

    /// Whether the amount is greater than zero.
    fn is_positive(self) -> bool
        ensures { IsTrue result ↔ ¬ (AtMost (parts_of self) zero_amount) };

    /// The amount of one block that is worth so many billionths, in a model of n blocks: `None`
    /// exactly where a number of it overflows.
    fn of_block(nanos: i128, n: u32) -> Option<Self>
        ensures { GivesExactly parts_of (block_parts nanos n) result };

    /// The kind of amount.
    fn group() -> Group
        ensures { result ≡ name };

    /// The two numbers of the amount, as a certificate writes them: its worth, in the group's own
    /// units, and its count of blocks.
    fn parts(self) -> (i128, i128)
        ensures worth { result.0 ≡ (parts_of self).w }
        ensures count { result.1 ≡ (parts_of self).c };

    /// The amount that has these numbers: `None` exactly where amounts have no count and the given
    /// one isn't zero.
    fn from_parts(worth: i128, count: i128) -> Option<Self>
        ensures { TakesParts parts_of counts worth count result };

    /// The worth in billionths of a set of `count` blocks whose sum this is, in a model of n
    /// blocks: `None` exactly where that worth overflows.
    fn nanos_of_set(self, n: u32, count: u32) -> Option<i128>
        ensures { TellsWorth (set_worth (parts_of self) n count) result };

    // two values that stand for one amount are one value
    ghost same_parts: { (x y : Self) → parts_of x ≡ parts_of y → x ≡ y };

    // values are ordered as their amounts are
    ghost order: { (x y : Self) → Self.cmp x y ≡ amount_cmp (parts_of x) (parts_of y) };

    // where there is no count, it is zero
    ghost uncounted: { (x : Self) → counts ≡ false → (parts_of x).c ≡ pos 0 };

    // the sum of a set of blocks tells its worth
    ghost tells_worth: { SumsTellWorth block_parts set_worth };

    // the worth of a set fits where its sum does
    ghost worth_fits: { (a : Amount) (n count : ℕ) → FitsPair a → count ≤ n
        → FitsSigned w128 (set_worth a n count) };
}
