ghost use Rattle.std.specs.Prelude.{◌≡◌, ◌<◌, ◌↔◌, [], Some, min, length, IfOk, IsErr, IsErrOf, IsTrue};
ghost use Rattle.std.specs.Io.{ReadsAtMost, WritesAtMost};
ghost use Rattle.std.specs.Io.KnownBytes.{ReadConsumes, WriteAppends};
ghost use Rattle.dx_io.specs.Causes.{ReadCause, WriteCause, KeepsCount, WriteKeepsCount};
ghost use Rattle.dx_io.specs.Streams.{TellsEnd};
ghost use Rattle.dx_io.specs.Plans.{fresh_plan, is_next_listed, after_call};

use crate::fault_plan::FaultPlan;
use crate::sink::{Sink, SinkError};
use crate::source::{Failed, Source};
use crate::sure_streams::{SureSink, SureSource};
use std::alloc::Global;
use std::marker::Model;

/// Bytes in memory that are read in order, with faults at listed calls. Contracts see the bytes
/// that are left, the numbers of the failing calls, and the counts of calls and faults.
#[derive(Drop)]
pub struct MemSource {
    source: SureSource,
    plan: FaultPlan,
}

impl Model for MemSource {
    ghost use Rattle.dx_io.specs.States.{SourceState};

    ghost Value = { SourceState };

    ghost view = { λ s. record { left = s.source; plan = s.plan } };
}

impl MemSource {
    /// A source with just these bytes left, whose calls with the numbers of `fails` fail, counted
    /// from 1.
    pub fn new(bytes: Vec<u8>, fails: Vec<u64>) -> MemSource
        ensures fresh { result ≡ record { left = bytes.items; plan = fresh_plan fails.items } }
        ensures left { ⟦<MemSource as Source>⟧.left result ≡ Some bytes.items }
        ensures faults { ⟦<MemSource as Source>⟧.faults result ≡ 0 }
    {
        MemSource {
            source: SureSource::new(bytes),
            plan: FaultPlan::new(fails),
        }
    }
}

impl Source for MemSource {
    ghost left = { λ s. Some s.left };

    ghost faults = { λ s. s.plan.faults };

    fn read(&mut self, into: &mut [u8]) -> Result<usize, Failed>
        ensures bound { ReadsAtMost result into.new }
        ensures bytes { ReadConsumes (Some self.old.left) (Some self.new.left) result into.new }
        ensures end { IfOk result (λ n. 0 < length into.new → TellsEnd (Some self.old.left) n) }
        ensures cause { ReadCause self.old.plan.faults self.new.plan.faults result }
        ensures good { KeepsCount self.old.plan.faults self.new.plan.faults result }

        // It fails exactly at the listed calls, and else fills the buffer as far as there are bytes.
        ensures fails { IsErr result ↔ IsTrue (is_next_listed self.old.plan) }
        ensures counts { self.new.plan ≡ after_call self.old.plan }
        ensures count { IfOk result (λ n. n ≡ min (length self.old.left) (length into.old)) }
    {
        if self.plan.count_call() {
            return Err(Failed);
        }
        self.source.read(into)
    }
}

/// Bytes in memory that are written in order, with faults at listed calls. Contracts see the
/// bytes written, the numbers of the failing calls, and the counts of calls and faults.
#[derive(Drop)]
pub struct MemSink {
    sink: SureSink,
    plan: FaultPlan,
}

impl Model for MemSink {
    ghost use Rattle.dx_io.specs.States.{SinkState};

    ghost Value = { SinkState };

    ghost view = { λ s. record { written = s.sink; plan = s.plan } };
}

impl MemSink {
    /// A sink to which nothing has been written, whose calls with the numbers of `fails` fail,
    /// counted from 1. It takes memory as it is written to.
    pub fn new(alloc: Global, fails: Vec<u64>) -> MemSink
        ensures fresh { result ≡ record { written = []; plan = fresh_plan fails.items } }
        ensures written { ⟦<MemSink as Sink>⟧.written result ≡ Some [] }
        ensures faults { ⟦<MemSink as Sink>⟧.faults result ≡ 0 }
    {
        MemSink {
            sink: SureSink::new(alloc),
            plan: FaultPlan::new(fails),
        }
    }

    /// The bytes that have been written.
    pub fn bytes(&self) -> &[u8]
        ensures { result.now ≡ self.now.written }
    {
        self.sink.bytes()
    }
}

impl Sink for MemSink {
    ghost written = { λ s. Some s.written };

    ghost faults = { λ s. s.plan.faults };

    fn write(&mut self, piece: &[u8]) -> Result<usize, SinkError>
        ensures bound { WritesAtMost result piece.now }
        ensures bytes { WriteAppends (Some self.old.written) (Some self.new.written) result piece.now }
        ensures cause { WriteCause self.old.plan.faults self.new.plan.faults piece.now result }
        ensures good { WriteKeepsCount self.old.plan.faults self.new.plan.faults piece.now result }

        // It fails exactly at the listed calls, and else takes the whole piece, unless memory is
        // wanting.
        ensures fails { IsErrOf result SinkError.Failed ↔ IsTrue (is_next_listed self.old.plan) }
        ensures counts { self.new.plan ≡ after_call self.old.plan }
        ensures count { IfOk result (λ n. n ≡ length piece.now) }
    {
        if self.plan.count_call() {
            return Err(SinkError::Failed);
        }
        self.sink.write(piece)
    }
}
