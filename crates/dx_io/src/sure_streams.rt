ghost use Rattle.std.specs.Prelude.{◌≡◌, ◌<◌, [], Some, Ok, min, length, IfOk, MatchResult};
ghost use Rattle.std.specs.Io.{ReadsAtMost, WritesAtMost};
ghost use Rattle.std.specs.Io.KnownBytes.{ReadConsumes, WriteAppends};
ghost use Rattle.dx_io.specs.Causes.{ReadCause, WriteCause, KeepsCount, WriteKeepsCount};
ghost use Rattle.dx_io.specs.Streams.{TellsEnd};

use crate::sink::{Sink, SinkError};
use crate::source::{Failed, Source};
use std::alloc::Global;
use std::marker::Model;

/// Bytes in memory that are read in order, without a fault. Contracts see the bytes that are left.
#[derive(Drop)]
pub struct SureSource {
    bytes: Vec<u8>,
    at: usize,
}

impl Model for SureSource {
    ghost use Rattle.std.specs.Prelude.{ℕ, List, drop, vec_len, ◌≤◌};

    ghost Value = { List ℕ };

    ghost view = { λ s. drop s.at s.bytes.items };

    ghost invariant = { λ s. s.at ≤ vec_len s.bytes };
}

impl SureSource {
    /// A source with just these bytes left.
    pub fn new(bytes: Vec<u8>) -> SureSource
        ensures bytes { result ≡ bytes.items }
        ensures left { ⟦<SureSource as Source>⟧.left result ≡ Some bytes.items }
        ensures faults { ⟦<SureSource as Source>⟧.faults result ≡ 0 }
    {
        SureSource { bytes, at: 0 }
    }
}

impl Source for SureSource {
    ghost left = { λ s. Some s };

    ghost faults = { λ _. 0 };

    fn read(&mut self, into: &mut [u8]) -> Result<usize, Failed>
        ensures bound { ReadsAtMost result into.new }
        ensures bytes { ReadConsumes (Some self.old) (Some self.new) result into.new }
        ensures end { IfOk result (λ n. 0 < length into.new → TellsEnd (Some self.old) n) }
        ensures cause { ReadCause 0 0 result }
        ensures good { KeepsCount 0 0 result }

        // It never fails, and fills the buffer as far as there are bytes.
        ensures count { result ≡ Ok (min (length self.old) (length into.old)) }
    {
        let (_, rest) = self.bytes.as_slice().split_at(self.at);
        let count = rest.len().min(into.len());
        let (front, _) = rest.split_at(count);
        into[..count].copy_from_slice(front);
        self.at += count;
        Ok(count)
    }
}

/// Bytes in memory that are written in order, without a fault. Contracts see the bytes written.
#[derive(Drop)]
pub struct SureSink {
    bytes: Vec<u8>,
}

impl Model for SureSink {
    ghost use Rattle.std.specs.Prelude.{ℕ, List};

    ghost Value = { List ℕ };

    ghost view = { λ s. s.bytes.items };
}

impl SureSink {
    /// A sink to which nothing has been written. It takes memory as it is written to.
    pub fn new(alloc: Global) -> SureSink
        ensures empty { result ≡ [] }
        ensures written { ⟦<SureSink as Sink>⟧.written result ≡ Some [] }
        ensures faults { ⟦<SureSink as Sink>⟧.faults result ≡ 0 }
    {
        SureSink {
            bytes: Vec::new(alloc),
        }
    }

    /// The bytes that have been written.
    pub fn bytes(&self) -> &[u8]
        ensures { result.now ≡ self.now }
    {
        self.bytes.as_slice()
    }
}

impl Sink for SureSink {
    ghost written = { λ s. Some s };

    ghost faults = { λ _. 0 };

    fn write(&mut self, piece: &[u8]) -> Result<usize, SinkError>
        ensures bound { WritesAtMost result piece.now }
        ensures bytes { WriteAppends (Some self.old) (Some self.new) result piece.now }
        ensures cause { WriteCause 0 0 piece.now result }
        ensures good { WriteKeepsCount 0 0 piece.now result }

        // It takes the whole piece, unless memory is wanting.
        ensures count { MatchResult result (λ n. n ≡ length piece.now) (λ error. error ≡ SinkError.NoMemory) }
    {
        match self.bytes.extend_from_slice(piece) {
            Ok(()) => Ok(piece.len()),
            Err(_) => Err(SinkError::NoMemory),
        }
    }
}
