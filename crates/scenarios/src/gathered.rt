ghost use Rattle.std.specs.Prelude.{Some};
ghost use Rattle.dx_app.specs.Transcript.{scenario};
ghost use Rattle.dx_app.specs.Causes.{IsGoodScenario, IsWhole};

use dx_app::{replay_all, run};
use dx_io::{Keeper, MemKeeper, MemSink, MemSource, SureKeeper, SureSink, SureSource};
use dx_types::{NoMemory, Status};
use std::alloc::Global;

/// A good scenario over kinds that never fail is answered whole, unless memory is wanting: the counts of these kinds
/// do not rise.
fn answer_surely(
    alloc: Global,
    input: Vec<u8>,
    sink: &mut SureSink,
    keeper: &mut SureKeeper,
) -> Status
    ensures { IsGoodScenario keeper.old input.items
        → IsWhole (scenario keeper.old) (Some input.items) (Some sink.old) (Some sink.new) (Some keeper.new) result }
{
    let mut source = SureSource::new(input);
    replay_all(alloc, &mut source, sink, keeper)
}

/// Tells what was written, and behind it the status.
fn tell(out: &mut Vec<u8>, written: &[u8], status: Status) -> Result<(), NoMemory> {
    out.extend_from_slice(written)?;
    out.extend_from_slice(b"= ")?;
    let number = status.number().to_string(*out.allocator())?;
    out.extend_from_slice(number.as_bytes())?;
    out.push(b'\n')?;
    Ok(())
}

/// Runs lines without words over a keeper, and tells what they came to.
fn replay(
    alloc: Global,
    lines: &[u8],
    keeper: &mut MemKeeper,
    out: &mut Vec<u8>,
) -> Result<Status, NoMemory> {
    let mut source = SureSource::new(Vec::from_slice(alloc, lines)?);
    let mut sink = SureSink::new(alloc);
    let status = replay_all(alloc, &mut source, &mut sink, keeper);
    tell(out, sink.bytes(), status)?;
    Ok(status)
}

/// A keeper without rows, of which one call fails.
fn failing_keeper(alloc: Global, call: u64) -> Result<MemKeeper, NoMemory> {
    let mut fails = Vec::new(alloc);
    fails.push(call)?;
    Ok(MemKeeper::new(alloc, fails))
}

/// Runs lines with one call of the keeper failing, and then the first of them over the rows that are left.
fn replay_twice(
    alloc: Global,
    lines: &[u8],
    first: &[u8],
    call: u64,
    out: &mut Vec<u8>,
) -> Result<Status, NoMemory> {
    let mut keeper = failing_keeper(alloc, call)?;
    let status = replay(alloc, lines, &mut keeper, out)?;
    let mut left = keeper.again(Vec::new(alloc));
    replay(alloc, first, &mut left, out)?;
    Ok(status)
}

/// The first line, with its newline.
fn first_line(alloc: Global, input: &[u8]) -> Result<Vec<u8>, NoMemory> {
    let mut line = Vec::new(alloc);
    for byte in input {
        line.push(*byte)?;
        if *byte == b'\n' {
            break;
        }
    }
    Ok(line)
}

/// A scenario that is being gathered: its input, the words for the program, the rows at the start, and which calls fail.
#[derive(Drop)]
pub struct Gathered {
    input: Vec<u8>,
    words: Vec<String>,
    keeper: MemKeeper,
    has_rows: bool,
    reads: Vec<u64>,
    writes: Vec<u64>,
    keeps: Vec<u64>,
}

impl Gathered {
    /// One without a byte.
    pub fn new(alloc: Global) -> Gathered {
        Gathered {
            input: Vec::new(alloc),
            words: Vec::new(alloc),
            keeper: MemKeeper::new(alloc, Vec::new(alloc)),
            has_rows: false,
            reads: Vec::new(alloc),
            writes: Vec::new(alloc),
            keeps: Vec::new(alloc),
        }
    }

    /// One without a byte, over the rows of a keeper.
    pub fn over(alloc: Global, keeper: MemKeeper) -> Gathered {
        Gathered {
            input: Vec::new(alloc),
            words: Vec::new(alloc),
            keeper,
            has_rows: true,
            reads: Vec::new(alloc),
            writes: Vec::new(alloc),
            keeps: Vec::new(alloc),
        }
    }

    /// One more line, with a newline.
    pub fn add_line(&mut self, line: &[u8]) -> Result<(), NoMemory> {
        self.input.extend_from_slice(line)?;
        self.input.push(b'\n')?;
        Ok(())
    }

    /// One more line, with a newline, by its bytes in hexadecimal. What is no hexadecimal adds none.
    pub fn add_hex(&mut self, digits: &str) -> Result<(), NoMemory> {
        match hex::decode(*self.input.allocator(), digits) {
            Ok(line) => self.add_line(line.as_slice()),
            Err(_) => Ok(()),
        }
    }

    /// One more word for the program.
    pub fn add_word(&mut self, word: &str) -> Result<(), NoMemory> {
        let word = String::from_str(*self.words.allocator(), word)?;
        self.words.push(word)?;
        Ok(())
    }

    /// One more row that is kept at the start, by its bytes in hexadecimal. What is no hexadecimal adds none.
    pub fn add_row(&mut self, node: u32, height: u32, digits: &str) -> Result<(), NoMemory> {
        let Ok(row) = hex::decode(*self.input.allocator(), digits) else {
            return Ok(());
        };
        self.has_rows = true;
        match self.keeper.put(node, height, row.as_slice()) {
            Ok(()) => Ok(()),
            Err(_) => Err(NoMemory),
        }
    }

    /// This read fails.
    pub fn fail_read(&mut self, call: u64) -> Result<(), NoMemory> {
        self.reads.push(call)?;
        Ok(())
    }

    /// This write fails.
    pub fn fail_write(&mut self, call: u64) -> Result<(), NoMemory> {
        self.writes.push(call)?;
        Ok(())
    }

    /// This call of the keeper fails.
    pub fn fail_keep(&mut self, call: u64) -> Result<(), NoMemory> {
        self.keeps.push(call)?;
        Ok(())
    }

    /// The newline of the last line is missing.
    pub fn cut(&mut self) {
        self.input.pop();
    }

    /// Blanks behind the last line, so that it has so many bytes.
    pub fn pad(&mut self, len: usize) -> Result<(), NoMemory> {
        self.cut();
        let mut start = 0;
        for (at, byte) in self.input.iter().enumerate() {
            if *byte == b'\n' {
                start = at + 1;
            }
        }
        for _ in self.input.len().saturating_sub(start)..len {
            self.input.push(b' ')?;
        }
        self.input.push(b'\n')?;
        Ok(())
    }

    /// Whether there are only lines: no word, no row, and no call that fails.
    fn is_plain(&self) -> bool {
        self.words.is_empty()
            && !self.has_rows
            && self.reads.is_empty()
            && self.writes.is_empty()
            && self.keeps.is_empty()
    }

    /// Runs it, and tells what it wrote and its status: over kinds that never fail where there are only lines.
    pub fn end(self, alloc: Global, out: &mut Vec<u8>) -> Result<(), NoMemory> {
        if self.is_plain() {
            let mut sink = SureSink::new(alloc);
            let mut keeper = SureKeeper::new(alloc);
            let Gathered {
                input,
                words: _,
                keeper: _,
                has_rows: _,
                reads: _,
                writes: _,
                keeps: _,
            } = self;
            let status = answer_surely(alloc, input, &mut sink, &mut keeper);
            return tell(out, sink.bytes(), status);
        }
        self.run(alloc, out)?;
        Ok(())
    }

    /// Runs it over kinds that fail at the listed calls, tells what it wrote and its status, and gives the rows that are
    /// left.
    pub fn run(self, alloc: Global, out: &mut Vec<u8>) -> Result<MemKeeper, NoMemory> {
        let Gathered {
            input,
            words,
            keeper,
            has_rows: _,
            reads,
            writes,
            keeps,
        } = self;
        let mut source = MemSource::new(input, reads);
        let mut sink = MemSink::new(alloc, writes);
        let mut keeper = keeper.again(keeps);
        let status = run(alloc, words.as_slice(), &mut source, &mut sink, &mut keeper);
        tell(out, sink.bytes(), status)?;
        Ok(keeper)
    }

    /// Runs its lines with each call of the keeper failing in turn, until none fails, and behind each of these runs
    /// the first line alone over the rows that are left.
    pub fn run_each(self, alloc: Global, out: &mut Vec<u8>) -> Result<(), NoMemory> {
        let first = first_line(alloc, self.input.as_slice())?;
        for call in 1..1000 {
            let status = replay_twice(alloc, self.input.as_slice(), first.as_slice(), call, out)?;
            if status != Status::KeepFault {
                return Ok(());
            }
        }
        Ok(())
    }
}
