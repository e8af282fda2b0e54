//! How a fault of a number or a text is printed: as its name.

ghost use Rattle.std.specs.Prelude.{Some};
ghost use Rattle.fixed_worth.specs.FaultText.{number_fault_name, text_fault_name};

use crate::line_reader::TextFault;
use crate::numerals::NumberFault;
use std::fmt;

impl fmt::Display for NumberFault {
    ghost output = { λ fault. Some (number_fault_name fault) };

    fn fmt<W: fmt::Write>(&self, f: &mut fmt::Formatter<W>) -> fmt::Result {
        f.write_str(match self {
            NumberFault::NotANumber => "NotANumber",
            NumberFault::TooLong => "TooLong",
            NumberFault::TooLarge => "TooLarge",
        })
    }
}

impl fmt::Display for TextFault {
    ghost output = { λ fault. Some (text_fault_name fault) };

    fn fmt<W: fmt::Write>(&self, f: &mut fmt::Formatter<W>) -> fmt::Result {
        f.write_str(match self {
            TextFault::LineTooLong => "LineTooLong",
        })
    }
}
