//! The law that the text that is written of a name and values is read as the same name and values.
//!
//! The function changes nothing. A caller names it where its own proof needs the law.

ghost use Rattle.upit_file.specs.Writing.{IsUpitReadBack};

use crate::Upit;

/// What [`crate::write_upit`] writes, [`crate::read_upit`] reads for as many blocks without a fault, as the same name
/// and values.
pub fn written_is_read(upit: &Upit)
    ensures { IsUpitReadBack upit.now }
{
    // proof: there are at most 2^24 values
    let _ = upit.len();
    // proof: the name is empty, or has the form of a name
    let _ = upit.name();
    // proof: the size of each value is at most 10^18
    let values = upit.values();
    for value in values {
        let _ = value.get();
    }
}
