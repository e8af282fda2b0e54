//! Opens a run without a lock: takes a net and a number of workers, and gives the shared words and each worker's
//! private data.

ghost use Rattle.std.specs.Prelude.{◌≡◌, ◌<◌, IfOk, MatchResult};
ghost use Rattle.word_steps.specs.Views.{start_words};
ghost use Rattle.word_runner.specs.CutNets.{AreGains};
ghost use Rattle.word_runner.specs.Openings.{IsFirst, AreFirst, IsBegun, AreOpenedSeats, OpeningFaultStands, WordsFaultStands};

use crate::amounts::{gains, losses};
use crate::clipped_worths::cut_net;
use crate::net_words::Words;
use crate::seats::WordSeat;
use crate::words_fault::WordsFault;
use closure_net::Net;
use machine_law::Operation;
use ordered_group::Scaled;
use std::alloc::{AllocError, Global};
use word_steps::{Halves, WordTable};

// The words of the opening.
fn first_words(
    alloc: Global,
    gain: &[u64],
    loss: &[u64],
    blocks: u32,
    pairs: u32,
) -> Result<Vec<u64>, AllocError>
    ensures { IfOk result (λ v. v.items ≡ start_words gain.now loss.now blocks pairs) }
{
    let labels: Vec<u64> = vec![in alloc; 0; blocks as usize]?;
    let flows: Vec<u64> = vec![in alloc; 0; pairs as usize]?;
    let mut words = vec![in alloc; 0; 2usize]?;
    words.extend_from_slice(gain)?;
    words.extend_from_slice(&labels)?;
    words.extend_from_slice(gain)?;
    words.extend_from_slice(loss)?;
    words.extend_from_slice(&flows)?;
    Ok(words)
}

// The words of a net whose positive worths are these, with this sum.
fn words_with(
    alloc: Global,
    net: &Net<Scaled>,
    gain: &[u64],
    total: u64,
    workers: u32,
) -> Result<(Words, WordSeat), AllocError>
    requires few { (0 < workers) × (workers < 3) }
    requires gains { AreGains net.now gain.now total }
    ensures { IfOk result (λ r. IsBegun net.now workers r.0 r.1) }
{
    let cut = cut_net(alloc, net, total)?;
    // proof: what is known of every net, that its pairs are of its blocks and in order
    let _cut = cut.worths();
    let loss = losses(alloc, &cut, total)?;
    let blocks = cut.len();
    let pairs = cut.rests().pairs();
    let words = first_words(alloc, gain, &loss, blocks, pairs)?;
    let labels: Vec<u64> = vec![in alloc; 0; blocks as usize]?;
    let (table, place) = WordTable::of_words(alloc, &words, &cut)?;
    let seat = WordSeat {
        place,
        labels,
        block: 0,
        operation: Operation::Idle,
        stopped: false,
    };
    let words = Words {
        table,
        net: cut,
        total,
        workers,
    };
    Ok((words, seat))
}

/// The words of a net for so many workers, and one seat, which serves all blocks.
pub fn words_of(
    alloc: Global,
    net: &Net<Scaled>,
    workers: u32,
) -> Result<(Words, WordSeat), WordsFault>
    requires { (0 < workers) × (workers < 3) }
    ensures { MatchResult result
        (λ r. IsBegun net.now workers r.0 r.1)
        (λ e. OpeningFaultStands net.now e) }
{
    let (gain, total) = gains(alloc, net)?;
    match words_with(alloc, net, &gain, total, workers) {
        Ok(begun) => Ok(begun),
        Err(_) => Err(WordsFault::NoMemory),
    }
}

/// Two seats of the one that serves all blocks and has made no steps.
pub fn split(
    alloc: Global,
    words: &Words,
    seat: WordSeat,
) -> Result<(WordSeat, WordSeat), AllocError>
    requires { IsFirst words.now 0 1 seat }
    ensures { IfOk result (λ s. IsFirst words.now 0 2 s.0 × IsFirst words.now 1 2 s.1) }
{
    let WordSeat {
        mut place,
        labels,
        block,
        operation: _,
        stopped,
    } = seat;
    let copy = Vec::from_slice(alloc, &labels)?;
    let other = words.table.shared.split_seat::<Halves>(&mut place);
    let left = WordSeat {
        place,
        labels,
        block,
        operation: Operation::Idle,
        stopped,
    };
    let right = WordSeat {
        place: other,
        labels: copy,
        block,
        operation: Operation::Idle,
        stopped,
    };
    Ok((left, right))
}

// The seat of a sole worker.
fn one_seat(
    alloc: Global,
    _words: &Words,
    seat: WordSeat,
    _workers: u32,
) -> Result<Vec<WordSeat>, AllocError>
    requires { IsFirst _words.now 0 1 seat × (_workers ≡ 1) }
    ensures { IfOk result (λ v. AreFirst _words.now _workers v.items) }
{
    let mut seats = Vec::new(alloc);
    seats.push(seat)?;
    Ok(seats)
}

// The seats of two workers.
fn two_seats(
    alloc: Global,
    words: &Words,
    seat: WordSeat,
    _workers: u32,
) -> Result<Vec<WordSeat>, AllocError>
    requires { IsFirst words.now 0 1 seat × (_workers ≡ 2) }
    ensures { IfOk result (λ v. AreFirst words.now _workers v.items) }
{
    let (left, right) = split(alloc, words, seat)?;
    let mut seats = Vec::new(alloc);
    seats.push(left)?;
    seats.push(right)?;
    Ok(seats)
}

// The seats of so many.
fn seats_of(
    alloc: Global,
    words: &Words,
    seat: WordSeat,
    workers: u32,
) -> Result<Vec<WordSeat>, AllocError>
    requires { IsFirst words.now 0 1 seat × (0 < workers) × (workers < 3) }
    ensures { IfOk result (λ v. AreFirst words.now workers v.items) }
{
    if workers == 1 {
        one_seat(alloc, words, seat, workers)
    } else {
        two_seats(alloc, words, seat, workers)
    }
}

impl Words {
    /// The words of a net, at the opening of the machine, with a seat for each of one or two workers: seat w serves the
    /// blocks b with b mod workers = w. Memory: 8 bytes for each of two words, four a block and one a pair, 8 bytes a
    /// block and seat, and a copy of the net.
    ///
    /// # Errors
    /// `BadWorkers` where there are neither one nor two. Then `TooLarge` where the positive worths sum to 2^63 units or
    /// more. `NoMemory` where memory was refused.
    pub fn open(
        alloc: Global,
        net: &Net<Scaled>,
        workers: u32,
    ) -> Result<(Words, Vec<WordSeat>), WordsFault>
        ensures answer { MatchResult result
            (λ r. AreOpenedSeats net.now workers r.0 r.1.items)
            (λ e. WordsFaultStands net.now workers e) }
    {
        if workers < 1 || workers > 2 {
            return Err(WordsFault::BadWorkers);
        }
        let (words, seat) = words_of(alloc, net, workers)?;
        match seats_of(alloc, &words, seat, workers) {
            Ok(seats) => Ok((words, seats)),
            Err(_) => Err(WordsFault::NoMemory),
        }
    }
}
