//! How a fault of an input or a write is printed: as its name.

ghost use Rattle.std.specs.Prelude.{Some};
ghost use Rattle.counted_devices.specs.DeviceFaults.{input_fault_name, write_fault_name};

use crate::sending::WriteFault;
use crate::whole_input::InputFault;
use std::fmt;

impl fmt::Display for InputFault {
    ghost output = { λ fault. Some (input_fault_name fault) };

    fn fmt<W: fmt::Write>(&self, f: &mut fmt::Formatter<W>) -> fmt::Result {
        f.write_str(match self {
            InputFault::Device => "Device",
            InputFault::InputTooLong => "InputTooLong",
            InputFault::NoMemory => "NoMemory",
        })
    }
}

impl fmt::Display for WriteFault {
    ghost output = { λ fault. Some (write_fault_name fault) };

    fn fmt<W: fmt::Write>(&self, f: &mut fmt::Formatter<W>) -> fmt::Result {
        f.write_str(match self {
            WriteFault::Device => "Device",
        })
    }
}
