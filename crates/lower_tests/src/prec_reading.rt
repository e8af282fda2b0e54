//! Tries which pairs are read from precedence texts and how they are found, and with what faults other
//! texts are refused.

use prec_file::{PrecFault, Rests, RestsFault, read_prec};
use std::alloc::Global;
use std::fmt::Debug;
use std::process::Abort;
use std::test::Fail;

// Fails the test where they differ. A call of it costs the proof less than the assertion in its place.
fn equal<T: PartialEq + Debug + Copy>(rt: &impl Abort, got: T, wanted: T) {
    assert_eq!(rt; got, wanted);
}

// Whether there are so many blocks, and these pairs.
pub fn has_pairs(rests: &Rests, blocks: u32, pairs: &[(u32, u32)]) -> bool {
    if rests.len() != blocks || rests.pairs() as usize != pairs.len() {
        return false;
    }
    for (i, pair) in pairs.iter().enumerate() {
        let i = i as u32;
        if i >= rests.pairs() || rests.pair(i) != *pair {
            return false;
        }
    }
    true
}

fn three_blocks(alloc: Global) -> Result<Rests, Fail> {
    Ok(Rests::from_pairs(alloc, 3, &[(2, 0), (0, 0), (2, 0), (1, 2)])?)
}

// Whether block 2 rests on block 0 by pair 1, which is all that lies below block 0, and the pairs are found.
fn tells_the_pair(rests: &Rests) -> bool {
    if rests.len() != 3 {
        return false;
    }
    rests.above(2) == [0].as_slice()
        && rests.first(2) == 1
        && rests.below(0) == [1].as_slice()
        && rests.find(1, 2) == Some(0)
        && rests.find(2, 0) == Some(1)
        && rests.find(0, 0).is_none()
}

#[test]
fn index_of_pairs(rt: HostRuntime) -> Result<(), Fail> {
    let rests = three_blocks(rt.alloc())?;
    assert!(rt; has_pairs(&rests, 3, &[(1, 2), (2, 0)]) && tells_the_pair(&rests));
    Ok(())
}

fn copied(alloc: Global) -> Result<Rests, Fail> {
    let rests = Rests::from_pairs(alloc, 3, &[(2, 0), (1, 2)])?;
    Ok(rests.copy(alloc)?)
}

#[test]
fn copy_has_the_same_pairs(rt: HostRuntime) -> Result<(), Fail> {
    let copy = copied(rt.alloc())?;
    assert!(rt; has_pairs(&copy, 3, &[(1, 2), (2, 0)]) && tells_the_pair(&copy));
    Ok(())
}

#[test]
fn unknown_pair(rt: HostRuntime) -> Result<(), Fail> {
    let alloc: Global = rt.alloc();
    let wrong = Rests::from_pairs(alloc, 3, &[(2, 0), (0, 0), (2, 0), (1, 2), (3, 0)]);
    assert!(rt; matches!(wrong, Err(RestsFault::UnknownBlock(4))));
    Ok(())
}

fn fault(alloc: Global, text: &[u8]) -> Option<PrecFault> {
    read_prec(alloc, text, 4).err()
}

#[test]
fn faults_of_files(rt: HostRuntime) {
    let rows: [(&[u8], PrecFault); 5] = [
        (b"3 2 1", PrecFault::WrongCount(1)),
        (b"3 1 1\n3 0", PrecFault::Repeated(2)),
        (b"3 1 4", PrecFault::UnknownBlock(1)),
        (b"3", PrecFault::Text(1)),
        (b"% first\n\n3 x", PrecFault::Number(3)),
    ];
    for (text, wanted) in &rows {
        equal(&rt, fault(rt.alloc(), text), Some(*wanted));
    }
}
