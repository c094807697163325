//! The scenarios that the program is tested by: each is run by `run` of `dx_app`, as `perpnode` would run it, and what
//! it writes and its status are told. What they must be stands beside it, in the file `stdout`. Other than `perpnode`
//! this program may begin with rows that are kept, or have calls of the outside fail.
//!
//! Standard input has the scenarios one after another. A line that begins with `#` is about them; all other lines are
//! lines of a scenario.
//!
//! | line | says |
//! |---|---|
//! | `# TEXT` | what the next scenario shows; the line is told |
//! | `#hex DIGITS` | a line of the scenario by its bytes in hexadecimal |
//! | `#word WORD` | one more word for the program |
//! | `#read N`, `#write N`, `#keep N` | the Nth read of the input, write of the output, or call of the keeper fails |
//! | `#row NODE HEIGHT DIGITS` | the keeper has this row at the start, by its bytes in hexadecimal |
//! | `#pad N` | blanks behind the scenario's last line, so that it has N bytes |
//! | `#cut` | the newline of the scenario's last line is missing |
//! | `#end` | the scenario is run: its replies are told, and behind them a line `= STATUS` |
//! | `#again` | the same, and the next scenario is run over the rows that this one leaves |
//! | `#each` | it is run with each call of the keeper failing in turn, until none fails; and each time then its first line, over the rows that are left |
#![tactic(auto)]

mod gathered;

use dx_types::NoMemory;
use gathered::Gathered;
use std::alloc::Global;
use std::io::{self, Read, Write};

/// A line of the input that is about scenarios.
enum Note<'a> {
    /// What the next one shows.
    Told,
    /// A line in hexadecimal.
    Hex(&'a str),
    /// One more word.
    Word(&'a str),
    /// A read fails.
    Read(u64),
    /// A write fails.
    Write(u64),
    /// A call of the keeper fails.
    Keep(u64),
    /// A row of a node at a height, in hexadecimal.
    Row(u32, u32, &'a str),
    /// The last line gets so many bytes.
    Pad(usize),
    /// The last newline is missing.
    Cut,
    /// The scenario is run.
    End,
    /// The scenario is run, and the next one goes on with its rows.
    Again,
    /// The scenario is run once for each call of the keeper that may fail.
    Each,
}

/// The node, the height and the digits of a row.
fn row_of(text: &str) -> Option<Note<'_>> {
    let (node, rest) = text.split_once(' ')?;
    let (height, digits) = rest.split_once(' ')?;
    Some(Note::Row(node.parse().ok()?, height.parse().ok()?, digits))
}

/// The note of a line. A line of a scenario is none, and so is what says nothing of the above.
fn note_of(line: &[u8]) -> Option<Note<'_>> {
    let text = str::from_utf8(line).ok()?;
    if text == "#cut" {
        return Some(Note::Cut);
    }
    if text == "#end" {
        return Some(Note::End);
    }
    if text == "#again" {
        return Some(Note::Again);
    }
    if text == "#each" {
        return Some(Note::Each);
    }
    let (word, rest) = text.split_once(' ')?;
    match word {
        "#" => Some(Note::Told),
        "#hex" => Some(Note::Hex(rest)),
        "#word" => Some(Note::Word(rest)),
        "#read" => Some(Note::Read(rest.parse().ok()?)),
        "#write" => Some(Note::Write(rest.parse().ok()?)),
        "#keep" => Some(Note::Keep(rest.parse().ok()?)),
        "#row" => row_of(rest),
        "#pad" => Some(Note::Pad(rest.parse().ok()?)),
        _ => None,
    }
}

/// What all scenarios come to.
fn told(alloc: Global, input: &[u8]) -> Result<Vec<u8>, NoMemory> {
    let mut out = Vec::new(alloc);
    let mut scenario = Gathered::new(alloc);
    for line in input.split(|byte| *byte == b'\n') {
        match note_of(line) {
            None => scenario.add_line(line)?,
            Some(Note::Told) => {
                out.extend_from_slice(line)?;
                out.push(b'\n')?;
            }
            Some(Note::Hex(digits)) => scenario.add_hex(digits)?,
            Some(Note::Word(word)) => scenario.add_word(word)?,
            Some(Note::Read(call)) => scenario.fail_read(call)?,
            Some(Note::Write(call)) => scenario.fail_write(call)?,
            Some(Note::Keep(call)) => scenario.fail_keep(call)?,
            Some(Note::Row(node, height, digits)) => scenario.add_row(node, height, digits)?,
            Some(Note::Pad(len)) => scenario.pad(len)?,
            Some(Note::Cut) => scenario.cut(),
            Some(Note::End) => {
                scenario.end(alloc, &mut out)?;
                scenario = Gathered::new(alloc);
            }
            Some(Note::Again) => {
                let keeper = scenario.run(alloc, &mut out)?;
                scenario = Gathered::over(alloc, keeper);
            }
            Some(Note::Each) => {
                scenario.run_each(alloc, &mut out)?;
                scenario = Gathered::new(alloc);
            }
        }
    }
    Ok(out)
}

fn main(rt: HostRuntime) -> io::Result<()> {
    let mut input = Vec::new(rt.alloc());
    rt.reader().read_to_end(&mut input)?;
    match told(rt.alloc(), input.as_slice()) {
        Ok(out) => io::writer(&rt).write_all(out.as_slice()),
        Err(_) => Err(io::Error::from(io::ErrorKind::OutOfMemory)),
    }
}
