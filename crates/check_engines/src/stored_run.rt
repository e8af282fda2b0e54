//! Checks a certificate that the program carries for a mine that it carries: three blocks, of which the third is a
//! predecessor of the others.

ghost use Rattle.std.specs.Prelude.{◌≡◌, ◌+◌, ◌-◌, ◌^◌, ◌<◌, IsErrOf};
ghost use Rattle.check_engines.specs.Checking.{Checks};
ghost use Rattle.mine_inputs.specs.Mines.{mine_texts};

use crate::checking_engine::check_engine;
use crate::judgement::Verdict;
use counted_devices::{CountedRead, CountedWrite};
use engine_faults::EngineFault;
use mine_inputs::{MineInputs, WorthInputs};
use std::alloc::Global;
use std::io;
use std::io::Read;
use std::thread::Threads;

/// The values of the blocks.
pub const VALUES: &[u8] = b"NBLOCKS: 3\nOBJECTIVE_FUNCTION:\n0 6\n1 5\n2 -10\n";

/// The precedence.
pub const PRECEDENCE: &[u8] = b"0 1 2\n1 1 2\n";

/// The certificate.
pub const CERTIFICATE: &[u8] =
    b"PITCERT 1\nBLOCKS 3\nPRICE OBJECTIVE\nGROUP PAIR\nPIT 0\nPIT 1\nPIT 2\nSOURCE 0 6000000000 -1\nSOURCE 1 4000000000 2\nREST 0 2 6000000000 -1\nREST 1 2 4000000000 2\nSINK 2 10000000000 1\nEND\n";

/// A text that is held, and what is left of it. No read of it fails.
#[derive(Drop)]
pub struct StoredText<'a> {
    /// What is left.
    pub left: &'a [u8],
}

impl Read for StoredText<'_> {
    ghost use Rattle.std.specs.Prelude.{Some};

    ghost remaining = { λ text. Some text.left.now };

    fn read(&mut self, buf: &mut [u8]) -> io::Result<usize> {
        self.left.read(buf)
    }
}

impl CountedRead for StoredText<'_> {
    ghost failed = { λ _. 0 };

    fn failures(&self) -> u64 {
        0
    }

    fn read_once(&mut self, buf: &mut [u8]) -> Option<usize> {
        self.left.read(buf).ok()
    }
}

/// Checks the stored certificate, and writes the answer: what [`check_engine`] answers for these texts.
///
/// `out` must have counted fewer than 2^64 - 1 failures, so that one more can be counted.
pub fn stored_check<R: Threads + Sync, W: CountedWrite>(
    rt: &R,
    alloc: Global,
    out: &mut W,
) -> Result<Verdict, EngineFault>
    requires { W.failed out.old < 2 ^ 64 - 1 }
    ensures answer { Checks (mine_texts VALUES.now PRECEDENCE.now) CERTIFICATE.now
        (W.contents out.old) (W.contents out.new) result }
    ensures device { IsErrOf result EngineFault.Device → W.failed out.new ≡ W.failed out.old + 1 }
    ensures kept { ¬ IsErrOf result EngineFault.Device → W.failed out.new ≡ W.failed out.old }
{
    let upit = StoredText { left: VALUES };
    let prec = StoredText { left: PRECEDENCE };
    let worths = WorthInputs::Values { upit };
    let mut inputs = MineInputs::Listed {
        worths,
        prec,
        threads: None,
    };
    let mut certificate = StoredText { left: CERTIFICATE };
    check_engine(rt, alloc, &mut inputs, &mut certificate, out)
}
