//! Opens a file to be written whose old bytes stay until the first write.

ghost use Rattle.std.specs.Prelude.{◌≡◌};

use std::fs::{OpenFile, OpenOptions};
use std::io;
use std::io::Write;
use std::rt::Files;

/// A file that is to be written from its beginning. It is opened as it is, and emptied at the first write: until then
/// it may be read under the same name or by a link. What it takes and holds is what the file takes and holds; of
/// emptying, which is a call of the system's, nothing is said.
#[derive(Drop)]
pub struct Replaced<F> {
    file: F,
    emptied: bool,
}

/// Opens a file to be replaced, or makes one.
///
/// # Errors
/// That of the system.
pub fn open_replaced<R: Files>(rt: &R, name: &str) -> io::Result<Replaced<R::File>> {
    let file = OpenOptions::new().write(true).create(true).open(rt, name)?;
    Ok(Replaced {
        file,
        emptied: false,
    })
}

impl<F: Write + OpenFile> Replaced<F> {
    // A pipe or a device has nothing to be emptied of.
    fn empty(&mut self) -> io::Result<()>
        ensures { self.new.file ≡ self.old.file }
    {
        if self.file.metadata()?.is_file() {
            self.file.set_len(0)?;
        }
        self.emptied = true;
        Ok(())
    }
}

impl<F: Write + OpenFile> Write for Replaced<F> {
    ghost contents = { λ r. F.contents r.file };

    fn write(&mut self, buf: &[u8]) -> io::Result<usize> {
        if !self.emptied {
            self.empty()?;
        }
        self.file.write(buf)
    }

    fn flush(&mut self) -> io::Result<()> {
        self.file.flush()
    }
}
