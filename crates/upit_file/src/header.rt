//! Reads the header of a `.upit` text: gives the name and the number of blocks, and refuses another type of file, a
//! number of blocks that isn't the wanted one, and a header that doesn't end.

ghost use Rattle.std.specs.Prelude.{[], ◌≡◌, ◌≤◌, length, drop, MatchResult, unwrap_or, Some, None};
ghost use Rattle.fixed_worth.specs.Text.{fields_of};
ghost use Rattle.fixed_worth.specs.Record.{numbered_lines};
ghost use Rattle.upit_file.specs.Header as spec;
ghost use Rattle.upit_file.specs.Records as records;

use crate::key::{Key, key_in};
use crate::name::read_name;
use crate::upit_fault::UpitFault;
use fixed_worth::{Fields, LINE_BYTES, Lines, MOST_BLOCKS, whole};

// The number of blocks that an NBLOCKS record names, where it is the wanted one.
fn read_count(text: &[u8], wanted: Option<u32>, line: u64) -> Result<u32, UpitFault>
    requires { length text.now ≤ LINE_BYTES }
    ensures { MatchResult result
        (λ n. (spec.count_fault (unwrap_or wanted (spec.nblocks_of (fields_of text.now))) line
        (fields_of text.now) ≡ None)
        × (n ≡ unwrap_or wanted (spec.nblocks_of (fields_of text.now))) × (n ≤ MOST_BLOCKS))
        (λ e. spec.count_fault (unwrap_or wanted (spec.nblocks_of (fields_of text.now))) line
        (fields_of text.now) ≡ Some e) }
{
    let mut fields = Fields::new(text);
    fields.next().ok_or(UpitFault::Text(line))?;
    let field = fields.next().ok_or(UpitFault::Text(line))?;
    let count = whole(field.text).map_err(|_| UpitFault::Number(line))?;
    if count > MOST_BLOCKS as u64 {
        return Err(UpitFault::WrongBlocks(line));
    }
    match wanted {
        Some(n) if n as u64 != count => Err(UpitFault::WrongBlocks(line)),
        _ => Ok(count as u32),
    }
}

// Refuses a TYPE record whose second field isn't `UPIT`.
fn check_type(text: &[u8], line: u64) -> Result<(), UpitFault>
    requires { length text.now ≤ LINE_BYTES }
    ensures { MatchResult result
        (λ _. spec.type_fault line (fields_of text.now) ≡ None)
        (λ e. spec.type_fault line (fields_of text.now) ≡ Some e) }
{
    let mut fields = Fields::new(text);
    fields.next().ok_or(UpitFault::NotUpit(line))?;
    match fields.next() {
        Some(word) if word.text == b"UPIT".as_slice() => Ok(()),
        _ => Err(UpitFault::NotUpit(line)),
    }
}

// What the header says.
#[derive(Clone, Copy)]
pub(crate) struct Header<'a> {
    pub(crate) name: &'a [u8],
    pub(crate) blocks: u32,
}

// Reads the header of a text, to after the line that ends it, for the wanted number of blocks if there is one.
pub(crate) fn read_header<'a>(
    lines: &mut Lines<'a>,
    wanted: Option<u32>,
) -> Result<Header<'a>, UpitFault>
    requires { lines.old.number ≡ 0 }
    ensures { let all = numbered_lines 0 lines.old.lines in
        let n = unwrap_or wanted (records.blocks_declared all) in MatchResult result
        (λ header. (header.blocks ≡ n) × (header.blocks ≤ MOST_BLOCKS)
        × (spec.header_fault n all ≡ None)
        × (header.name.now ≡ spec.last_name [] (spec.header all))
        × (drop 1 (spec.after_header all) ≡ numbered_lines lines.new.number lines.new.lines))
        (λ e. spec.header_fault n all ≡ Some e) }
{
    let mut name: &'a [u8] = b"";
    let mut counted = None;
    loop {
        match lines.next_line() {
            Ok(Some(text)) => {
                let line = lines.number();
                match key_in(text) {
                    Key::Name => name = read_name(text, line)?,
                    Key::FileType => check_type(text, line)?,
                    Key::Blocks => counted = Some(read_count(text, counted.or(wanted), line)?),
                    Key::Objective => {
                        let blocks = counted.ok_or(UpitFault::WrongBlocks(line))?;
                        return Ok(Header { name, blocks });
                    }
                    Key::End => return Err(UpitFault::NoObjective(line)),
                    Key::Other => {}
                }
            }
            Ok(None) => return Err(UpitFault::NoObjective(lines.number())),
            Err(_) => return Err(UpitFault::Text(lines.number() + 1)),
        }
    }
}
