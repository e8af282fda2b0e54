//! Files and the output, opened with their failures counted, which tell why they failed where that is asked for.

ghost use Rattle.std.specs.Prelude.{◌≡◌, IfOk};

use crate::advice::Advice;
use crate::input_notes::InputNotes;
use crate::replaced::{Replaced, open_replaced};
use command_line::Escaped;
use counted_devices::Counted;
use engine_faults::EngineFault;
use std::fs::File;
use std::io;
use std::io::{Printer, Read, Write};
use std::rt::Files;

/// A file, or standard output, under its name. What it gives, takes and holds is what the device gives, takes and
/// holds: it hands on each byte and each failure. It reports on standard error, where that was asked for: the system's
/// reason for each call that fails, whose failure is handed on; a file that begins with the mark of UTF-8; and, for the
/// output of a command that solves, what to try where the line says that no pit is proved.
#[derive(Drop)]
pub struct ReportingFile<'a, R, D> {
    rt: &'a R,
    verbose: bool,
    name: &'a str,
    advice: Option<Advice>,
    device: D,
    // whether something was read
    is_begun: bool,
    // what is told at the end of what is read
    heard: InputNotes<'a>,
}

impl<'a, R, D> ReportingFile<'a, R, D> {
    // Nothing is read or written yet.
    fn new(
        rt: &'a R,
        verbose: bool,
        name: &'a str,
        advice: Option<Advice>,
        device: D,
        heard: InputNotes<'a>,
    ) -> ReportingFile<'a, R, D> {
        ReportingFile {
            rt,
            verbose,
            name,
            advice,
            device,
            is_begun: false,
            heard,
        }
    }
}

// What some programs put at the head of a text in UTF-8.
const MARK: &[u8] = b"\xEF\xBB\xBF";

/// Standard output of a command that may be given advice.
pub fn output<'a, R: Print + Eprint + AllocGlobal>(
    rt: &'a R,
    verbose: bool,
    advice: Option<Advice>,
) -> ReportingFile<'a, R, Printer<'a, R>> {
    let heard = InputNotes::nothing(rt.alloc());
    ReportingFile::new(
        rt,
        verbose,
        "standard output",
        advice,
        io::writer(rt),
        heard,
    )
}

/// Opens a file to be read, of which there may be something to tell at its end.
///
/// # Errors
/// `Device` where it can't be opened.
pub fn open_file<'a, R: Files + Eprint>(
    rt: &'a R,
    verbose: bool,
    name: &'a str,
    heard: InputNotes<'a>,
) -> Result<Counted<ReportingFile<'a, R, R::File>>, EngineFault>
    ensures { IfOk result (λ counted. counted.failures ≡ 0) }
{
    match File::open(rt, name) {
        Ok(device) => Ok(Counted::new(ReportingFile::new(rt, verbose, name, None, device, heard))),
        Err(error) => {
            tell(rt, verbose, "open", name, error);
            Err(EngineFault::Device)
        }
    }
}

/// Opens a file to be replaced at the first write, or makes one. It may be one of the inputs by a link: those are read
/// before anything is written.
///
/// # Errors
/// `Device` where it can't be made.
pub fn make_file<'a, R: Files + Eprint + AllocGlobal>(
    rt: &'a R,
    verbose: bool,
    name: &'a str,
) -> Result<Counted<ReportingFile<'a, R, Replaced<R::File>>>, EngineFault>
    ensures { IfOk result (λ counted. counted.failures ≡ 0) }
{
    match open_replaced(rt, name) {
        Ok(device) => {
            let heard = InputNotes::nothing(rt.alloc());
            Ok(Counted::new(ReportingFile::new(rt, verbose, name, None, device, heard)))
        }
        Err(error) => {
            tell(rt, verbose, "make", name, error);
            Err(EngineFault::Device)
        }
    }
}

impl<R: Eprint + AllocGlobal, D: Read> Read for ReportingFile<'_, R, D> {
    ghost remaining = { λ t. D.remaining t.device };

    fn read(&mut self, buf: &mut [u8]) -> io::Result<usize> {
        match self.device.read(buf) {
            Ok(count) => {
                if !self.is_begun {
                    self.is_begun = true;
                    let begins_with_mark = count >= MARK.len() && buf.starts_with(MARK);
                    tell_mark(self.rt, self.verbose && begins_with_mark, self.name);
                }
                self.hear(&buf[..count]);
                Ok(count)
            }
            Err(error) => {
                tell(self.rt, self.verbose, "read", self.name, error);
                Err(error)
            }
        }
    }
}

impl<R: Eprint + AllocGlobal, D> ReportingFile<'_, R, D> {
    // Takes in what was read, and tells at its end what there is to tell.
    fn hear(&mut self, read: &[u8])
        ensures { self.new.device ≡ self.old.device }
    {
        if !read.is_empty() {
            self.heard.hear(read);
        } else {
            self.heard.tell(self.rt, self.name);
        }
    }
}

impl<R: Eprint, D: Write> Write for ReportingFile<'_, R, D> {
    ghost contents = { λ t. D.contents t.device };

    fn write(&mut self, buf: &[u8]) -> io::Result<usize> {
        match self.device.write(buf) {
            Ok(count) => {
                advise(self.rt, self.verbose, self.advice, buf);
                Ok(count)
            }
            Err(error) => {
                tell(self.rt, self.verbose, "write to", self.name, error);
                Err(error)
            }
        }
    }

    fn flush(&mut self) -> io::Result<()> {
        self.device.flush()
    }
}

// Tells what couldn't be done with what, and why. The engine answers by the failure itself, so nothing depends on
// whether anybody can be told.
fn tell<R: Eprint>(rt: &R, verbose: bool, what: &str, name: &str, why: io::Error) {
    if verbose {
        let name = Escaped { text: name };
        let _ = rt.eprintln(format_args!("reason: cannot {what} {name}: {why}"));
    }
}

// Tells what to try where this was written.
fn advise<R: Eprint>(rt: &R, verbose: bool, advice: Option<Advice>, written: &[u8]) {
    if let (true, Some(advice)) = (verbose, advice) {
        if let Some(text) = advice.after(written) {
            let _ = rt.eprintln(format_args!("advice: {text}"));
        }
    }
}

// Tells of the mark, which is read as a part of the first line.
fn tell_mark<R: Eprint>(rt: &R, is_told: bool, name: &str) {
    if is_told {
        let name = Escaped { text: name };
        let _ = rt.eprintln(format_args!(
            "note: {name} begins with the mark of UTF-8 (the bytes EF BB BF), which is read as a part of its first line: save it without the mark"
        ));
    }
}
