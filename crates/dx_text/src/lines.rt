ghost use Rattle.std.specs.Prelude.{◌≡◌, ◌+◌, ◌<◌, ◌≤◌, [], ◌∷◌, ◌++◌, length, take, drop, false, IfOk, OnOk, OnErr, IsErrOf, MatchOption, MatchBool};
ghost use Rattle.std.specs.Io.KnownBytes.{Consumes, Keeps, IsAtEnd};
ghost use Rattle.dx_io.specs.Causes.{Rose};
ghost use Rattle.dx_text.specs.Lines.{newline, has_newline, CutsLine, ReadsOn, Takes, EndsLine};
ghost use Rattle.dx_text.specs.Reading.{buffer, HasNoNewline, IsNear, ReadsTo};
ghost use Rattle.dx_text.specs.declared.lines.ReadError.TheVariants as errors;
ghost use Rattle.dx_text.specs.declared.lines.Cut.TheVariants as cuts;

use dx_io::{Failed, Source};
use std::alloc::AllocError;
use std::marker::Model;
use thiserror::Error;

/// The most bytes that are read at once.
const CHUNK: usize = 4096;

/// The most bytes of a line, without its newline.
const LONGEST_LINE: usize = 1_048_576;

/// Why the next line is not known.
#[derive(Clone, Copy, Debug, PartialEq, Eq, Error)]
pub enum ReadError {
    /// A read of the source failed. It comes only where the source's count of faults rose.
    #[error("the source failed")]
    Failed,
    /// There was no memory to hold the line.
    #[error("no memory for the line")]
    NoMemory,
}

impl From<Failed> for ReadError {
    ghost from_gives = { λ _ e. e ≡ errors.Failed };

    fn from(_failed: Failed) -> ReadError {
        ReadError::Failed
    }
}

impl From<AllocError> for ReadError {
    ghost from_gives = { λ _ e. e ≡ errors.NoMemory };

    fn from(_error: AllocError) -> ReadError {
        ReadError::NoMemory
    }
}

/// What comes next of an input.
#[derive(Clone, Copy, Debug, PartialEq, Eq)]
pub enum Cut {
    /// A whole line.
    Line,
    /// A line that is too long, or has no newline.
    Broken,
    /// Nothing.
    End,
}

/// Cuts the bytes of a source into lines. Contracts see the bytes at hand: those that are read and in
/// no line yet.
#[derive(Drop)]
pub struct LineReader {
    chunk: [u8; CHUNK],
    at: usize,
    end: usize,
}

impl Model for LineReader {
    ghost use Rattle.std.specs.Prelude.{ℕ, List, take, drop, ◌≤◌, length};

    ghost Value = { List ℕ };

    ghost view = { λ r. drop r.at (take r.end r.chunk) };

    ghost invariant = { λ r. (r.at ≤ r.end) × (r.end ≤ 4096) };
}

fn newline_at(bytes: &[u8]) -> Option<usize>
    ensures { MatchOption result (has_newline bytes.now ≡ false)
        (λ i. (i < length bytes.now) × (bytes.now ≡ take i bytes.now ++ newline ∷ drop (i + 1) bytes.now)
        × (has_newline (take i bytes.now) ≡ false)) }
{
    for (i, byte) in bytes.iter().enumerate() {
        if *byte == b'\n' {
            return Some(i);
        }
    }
    None
}

fn ending(line: &Vec<u8>) -> Cut
    ensures { EndsLine result line.now.items }
{
    if line.is_empty() {
        Cut::End
    } else {
        Cut::Broken
    }
}

impl LineReader {
    /// Makes a reader that has read nothing yet: no byte is at hand.
    pub fn new() -> LineReader
        ensures { result ≡ [] }
    {
        LineReader {
            chunk: [0; CHUNK],
            at: 0,
            end: 0,
        }
    }

    fn is_empty(&self) -> bool
        ensures tells { MatchBool result (self.now ≡ []) (0 < length self.now) }
        ensures few { length self.now ≤ buffer }
    {
        self.at == self.end
    }

    /// Reads on where nothing is at hand. False is the end of the input.
    fn fill<S: Source>(&mut self, source: &mut S) -> Result<bool, Failed>
        requires { self.old ≡ [] }
        ensures more { IfOk result (λ more. MatchBool more (0 < length self.new)
            ((self.new ≡ []) × IsAtEnd (S.left source.new))) }
        ensures bytes { OnOk result (Consumes (S.left source.old) (S.left source.new) self.new) }
        ensures few { OnOk result (length self.new ≤ buffer) }
        ensures kept { OnErr result (Keeps (S.left source.old) (S.left source.new)) }
        ensures later { S.faults source.old ≤ S.faults source.new }
        ensures good { OnOk result (S.faults source.new ≡ S.faults source.old) }
        ensures failed { OnErr result (Rose (S.faults source.old) (S.faults source.new)) }
    {
        let count = source.read(&mut self.chunk)?;
        self.at = 0;
        self.end = count;
        Ok(count > 0)
    }

    /// Says whether there is a byte at hand, and reads on where there was none.
    pub fn has_more<S: Source>(&mut self, source: &mut S) -> Result<bool, Failed>
        ensures more { IfOk result (λ more. MatchBool more (0 < length self.new)
            ((self.new ≡ []) × IsAtEnd (S.left source.new))) }
        ensures on { OnOk result (ReadsOn self.old self.new (S.left source.old) (S.left source.new)) }
        ensures few { OnOk result (length self.new ≤ buffer) }
        ensures empty { OnErr result (self.old ≡ []) }
        ensures kept { OnErr result (Keeps (S.left source.old) (S.left source.new)) }
        ensures later { S.faults source.old ≤ S.faults source.new }
        ensures good { OnOk result (S.faults source.new ≡ S.faults source.old) }
        ensures failed { OnErr result (Rose (S.faults source.old) (S.faults source.new)) }
    {
        if self.is_empty() {
            return self.fill(source);
        }
        Ok(true)
    }

    /// Moves what is at hand to the line, up to the first newline. True says that there was one.
    fn take(&mut self, line: &mut Vec<u8>) -> Result<bool, AllocError>
        ensures { IfOk result (λ found. Takes found self.old self.new line.old.items line.new.items) }
    {
        let (front, _) = self.chunk.split_at(self.end);
        let (_, pending) = front.split_at(self.at);
        match newline_at(pending) {
            Some(i) => {
                let (piece, _) = pending.split_at(i);
                line.extend_from_slice(piece)?;
                self.at += i + 1;
                Ok(true)
            }
            None => {
                line.extend_from_slice(pending)?;
                self.at = self.end;
                Ok(false)
            }
        }
    }

    /// Reads the next line into `line`, without its newline. It reads no further than one buffer behind the front of
    /// that line.
    pub fn next_line<S: Source>(
        &mut self,
        source: &mut S,
        line: &mut Vec<u8>,
    ) -> Result<Cut, ReadError>
        ensures cut { IfOk result (λ answer. CutsLine self.old self.new line.new.items
            (S.left source.old) (S.left source.new) answer) }
        ensures ends { IfOk result (λ answer. answer ≡ cuts.End → IsAtEnd (S.left source.new)) }
        ensures near { ReadsTo self.old (S.left source.old) (S.left source.new) IsNear }
        ensures in_line { IsErrOf result ReadError.Failed
            → ReadsTo self.old (S.left source.old) (S.left source.new) HasNoNewline }
        ensures later { S.faults source.old ≤ S.faults source.new }
        ensures good { OnOk result (S.faults source.new ≡ S.faults source.old) }
        ensures failed { IsErrOf result ReadError.Failed → Rose (S.faults source.old) (S.faults source.new) }
    {
        line.clear();
        'pieces: while line.len() <= LONGEST_LINE {
            if !self.has_more(source)? {
                return Ok(ending(line));
            }
            if self.take(line)? {
                return Ok(if line.len() <= LONGEST_LINE {
                    Cut::Line
                } else {
                    Cut::Broken
                });
            }
        }
        Ok(Cut::Broken)
    }
}
