//! Why a certificate that is read from a device isn't accepted: the device, its length, a line, or
//! the pit and its flow.

use crate::pit_fault::PitFault;
use certificate_file::CertFault;
use std::error::Error;
use std::fmt;

/// Why a certificate that is read line by line was not accepted.
#[derive(Clone, Copy, Debug, PartialEq, Eq)]
pub enum StreamFault {
    /// A read failed.
    Device,
    /// The input has more than 2^32 bytes.
    InputTooLong,
    /// The text is no certificate.
    Cert(CertFault),
    /// The certificate doesn't prove its pit.
    Pit(PitFault),
}

impl fmt::Display for StreamFault {
    ghost use Rattle.std.specs.Prelude.{Some};
    ghost use Rattle.check_pit.specs.FaultText.{stream_fault_text};

    ghost output = { λ fault. Some (stream_fault_text fault) };

    fn fmt<W: fmt::Write>(&self, f: &mut fmt::Formatter<W>) -> fmt::Result {
        match self {
            StreamFault::Device => f.write_str("Device"),
            StreamFault::InputTooLong => f.write_str("InputTooLong"),
            StreamFault::Cert(fault) => write!(f, "{fault}"),
            StreamFault::Pit(fault) => write!(f, "{fault}"),
        }
    }
}

impl Error for StreamFault {}
