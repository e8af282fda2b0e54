//! Why an engine could not answer: which of its inputs is at fault and how, or that memory, a device or a thread
//! failed.

use blocks_file::BlocksFault;
use certificate_file::CertFault;
use closure_net::NetFault;
use counted_devices::WriteFault;
use prec_file::PrecFault;
use settings_file::SettingsFault;
use shells::PricesFault;
use slope::{RegionFault, SlopeFault};
use slope_offsets::PatternFault;
use std::alloc::AllocError;
use std::fmt;
use thiserror::Error;
use trace_file::TraceFault;
use upit_file::UpitFault;

/// What is wrong with an input: it is too long to be read, or its text has a fault.
#[derive(Clone, Copy, Debug, PartialEq, Eq)]
pub enum Problem<F> {
    /// The input has more than 2^32 bytes.
    InputTooLong,
    /// The text has this fault.
    Fault(F),
}

impl<F: fmt::Display> fmt::Display for Problem<F> {
    ghost use Rattle.engine_faults.specs.EngineFaults.{problem_output};

    ghost output = { problem_output F.output };

    fn fmt<W: fmt::Write>(&self, f: &mut fmt::Formatter<W>) -> fmt::Result {
        match self {
            Problem::InputTooLong => f.write_str("InputTooLong"),
            Problem::Fault(fault) => write!(f, "{fault}"),
        }
    }
}

/// What is wrong with a certificate.
#[derive(Clone, Copy, Debug, PartialEq, Eq)]
pub enum CertificateProblem {
    /// The input has more than 2^32 bytes.
    InputTooLong,
    /// The certificate is for another kind of model.
    WrongPrice,
    /// The text has this fault.
    Fault(CertFault),
}

impl fmt::Display for CertificateProblem {
    ghost use Rattle.std.specs.Prelude.{Some};
    ghost use Rattle.engine_faults.specs.EngineFaults.{certificate_problem_text};

    ghost output = { λ problem. Some (certificate_problem_text problem) };

    fn fmt<W: fmt::Write>(&self, f: &mut fmt::Formatter<W>) -> fmt::Result {
        match self {
            CertificateProblem::InputTooLong => f.write_str("InputTooLong"),
            CertificateProblem::WrongPrice => f.write_str("WrongPrice"),
            CertificateProblem::Fault(fault) => write!(f, "{fault}"),
        }
    }
}

/// Why a pattern gives no pairs.
#[derive(Clone, Copy, Debug, PartialEq, Eq)]
pub enum SlopeProblem {
    /// There is no such pattern.
    Pattern(PatternFault),
    /// The offsets of the pattern give no pairs of these blocks.
    Pairs(SlopeFault),
    /// The slopes of regions give no pairs of these blocks.
    Regions(RegionFault),
}

impl fmt::Display for SlopeProblem {
    ghost use Rattle.std.specs.Prelude.{Some};
    ghost use Rattle.engine_faults.specs.EngineFaults.{slope_text};

    ghost output = { λ problem. Some (slope_text problem) };

    fn fmt<W: fmt::Write>(&self, f: &mut fmt::Formatter<W>) -> fmt::Result {
        match self {
            SlopeProblem::Pattern(fault) => write!(f, "{fault}"),
            SlopeProblem::Pairs(fault) => write!(f, "{fault}"),
            SlopeProblem::Regions(fault) => write!(f, "{fault}"),
        }
    }
}

/// Why an engine could not answer: what is wrong, and with which of its inputs.
///
/// The program tells it in the line of `write_fault` of `check_engines`; nothing is claimed of the text derived here.
#[derive(Clone, Copy, Debug, PartialEq, Eq, Error)]
pub enum EngineFault {
    /// The blocks and their places.
    #[error("blocks {0}")]
    Blocks(Problem<BlocksFault>),
    /// The values of the blocks.
    #[error("upit {0}")]
    Upit(Problem<UpitFault>),
    /// The precedence.
    #[error("prec {0}")]
    Prec(Problem<PrecFault>),
    /// The settings.
    #[error("settings {0}")]
    Settings(Problem<SettingsFault>),
    /// The revenues and costs of the blocks.
    #[error("prices {0}")]
    Prices(PricesFault),
    /// The pattern, or the pairs that it gives.
    #[error("slope {0}")]
    Slope(SlopeProblem),
    /// The worths don't fit the numbers that the network needs.
    #[error("model {0}")]
    Model(NetFault),
    /// The certificate.
    #[error("certificate {0}")]
    Certificate(CertificateProblem),
    /// The steps of a run.
    #[error("trace {0}")]
    Trace(Problem<TraceFault>),
    /// An allocation was refused.
    #[error("memory")]
    Memory,
    /// A read or a write failed, or a file could not be opened.
    #[error("device")]
    Device,
    /// A thread could not be started.
    #[error("thread")]
    Thread,
    /// The board that the workers of a run shared came back as another's.
    #[error("stranger")]
    Stranger,
}

impl From<AllocError> for EngineFault {
    ghost use Rattle.std.specs.Prelude.{◌≡◌};
    ghost use Rattle.engine_faults.specs.declared.engine_fault.EngineFault.TheVariants as engine;

    ghost from_gives = { λ _ e. e ≡ engine.Memory };

    fn from(_refused: AllocError) -> EngineFault {
        EngineFault::Memory
    }
}

impl From<WriteFault> for EngineFault {
    ghost use Rattle.std.specs.Prelude.{◌≡◌};
    ghost use Rattle.engine_faults.specs.declared.engine_fault.EngineFault.TheVariants as engine;

    ghost from_gives = { λ _ e. e ≡ engine.Device };

    fn from(_failed: WriteFault) -> EngineFault {
        EngineFault::Device
    }
}

impl From<BlocksFault> for EngineFault {
    ghost use Rattle.std.specs.Prelude.{◌≡◌};
    ghost use Rattle.engine_faults.specs.EngineFaults.{of_blocks};

    ghost from_gives = { λ fault e. e ≡ of_blocks fault };

    fn from(fault: BlocksFault) -> EngineFault {
        match fault {
            BlocksFault::NoMemory => EngineFault::Memory,
            fault => EngineFault::Blocks(Problem::Fault(fault)),
        }
    }
}

impl From<UpitFault> for EngineFault {
    ghost use Rattle.std.specs.Prelude.{◌≡◌};
    ghost use Rattle.engine_faults.specs.EngineFaults.{of_upit};

    ghost from_gives = { λ fault e. e ≡ of_upit fault };

    fn from(fault: UpitFault) -> EngineFault {
        match fault {
            UpitFault::NoMemory => EngineFault::Memory,
            fault => EngineFault::Upit(Problem::Fault(fault)),
        }
    }
}

impl From<PrecFault> for EngineFault {
    ghost use Rattle.std.specs.Prelude.{◌≡◌};
    ghost use Rattle.engine_faults.specs.EngineFaults.{of_prec};

    ghost from_gives = { λ fault e. e ≡ of_prec fault };

    fn from(fault: PrecFault) -> EngineFault {
        match fault {
            PrecFault::NoMemory => EngineFault::Memory,
            fault => EngineFault::Prec(Problem::Fault(fault)),
        }
    }
}

impl From<SettingsFault> for EngineFault {
    ghost use Rattle.std.specs.Prelude.{◌≡◌};
    ghost use Rattle.engine_faults.specs.EngineFaults.{of_settings};

    ghost from_gives = { λ fault e. e ≡ of_settings fault };

    fn from(fault: SettingsFault) -> EngineFault {
        match fault {
            SettingsFault::NoMemory => EngineFault::Memory,
            fault => EngineFault::Settings(Problem::Fault(fault)),
        }
    }
}

impl From<CertFault> for EngineFault {
    ghost use Rattle.std.specs.Prelude.{◌≡◌};
    ghost use Rattle.engine_faults.specs.EngineFaults.{of_certificate};

    ghost from_gives = { λ fault e. e ≡ of_certificate fault };

    fn from(fault: CertFault) -> EngineFault {
        match fault {
            CertFault::NoMemory => EngineFault::Memory,
            fault => EngineFault::Certificate(CertificateProblem::Fault(fault)),
        }
    }
}

impl From<TraceFault> for EngineFault {
    ghost use Rattle.std.specs.Prelude.{◌≡◌};
    ghost use Rattle.engine_faults.specs.EngineFaults.{of_trace};

    ghost from_gives = { λ fault e. e ≡ of_trace fault };

    fn from(fault: TraceFault) -> EngineFault {
        match fault {
            TraceFault::NoMemory => EngineFault::Memory,
            fault => EngineFault::Trace(Problem::Fault(fault)),
        }
    }
}

impl From<PricesFault> for EngineFault {
    ghost use Rattle.std.specs.Prelude.{◌≡◌};
    ghost use Rattle.engine_faults.specs.declared.engine_fault.EngineFault.TheVariants as engine;

    ghost from_gives = { λ fault e. e ≡ engine.Prices fault };

    fn from(fault: PricesFault) -> EngineFault {
        EngineFault::Prices(fault)
    }
}

impl From<PatternFault> for EngineFault {
    ghost use Rattle.std.specs.Prelude.{◌≡◌};
    ghost use Rattle.engine_faults.specs.EngineFaults.{of_pattern};

    ghost from_gives = { λ fault e. e ≡ of_pattern fault };

    fn from(fault: PatternFault) -> EngineFault {
        match fault {
            PatternFault::NoMemory => EngineFault::Memory,
            fault => EngineFault::Slope(SlopeProblem::Pattern(fault)),
        }
    }
}

impl From<SlopeFault> for EngineFault {
    ghost use Rattle.std.specs.Prelude.{◌≡◌};
    ghost use Rattle.engine_faults.specs.EngineFaults.{of_slope};

    ghost from_gives = { λ fault e. e ≡ of_slope fault };

    fn from(fault: SlopeFault) -> EngineFault {
        match fault {
            SlopeFault::NoMemory => EngineFault::Memory,
            fault => EngineFault::Slope(SlopeProblem::Pairs(fault)),
        }
    }
}

impl From<RegionFault> for EngineFault {
    ghost use Rattle.std.specs.Prelude.{◌≡◌};
    ghost use Rattle.engine_faults.specs.EngineFaults.{of_regions};

    ghost from_gives = { λ fault e. e ≡ of_regions fault };

    fn from(fault: RegionFault) -> EngineFault {
        match fault {
            RegionFault::NoMemory => EngineFault::Memory,
            fault => EngineFault::Slope(SlopeProblem::Regions(fault)),
        }
    }
}

impl From<NetFault> for EngineFault {
    ghost use Rattle.std.specs.Prelude.{◌≡◌};
    ghost use Rattle.engine_faults.specs.EngineFaults.{of_model};

    ghost from_gives = { λ fault e. e ≡ of_model fault };

    fn from(fault: NetFault) -> EngineFault {
        match fault {
            NetFault::NoMemory => EngineFault::Memory,
            fault => EngineFault::Model(fault),
        }
    }
}
