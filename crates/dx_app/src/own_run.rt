//! The two jobs over a generated scenario: it is written, or it is run and only a digest of its replies is written.

ghost use Rattle.std.specs.Prelude.{◌≡◌, ◌+◌, ◌*◌, ◌/◌, Some, IfSome};
ghost use Rattle.dx_io.specs.Causes.{Rose};
ghost use Rattle.dx_io.specs.Rows.{Rows};
ghost use Rattle.dx_types.specs.declared.status.Status.TheVariants as ends;
ghost use Rattle.dx_app.specs.Transcript.{Told, run_digest, self_told, generate_told};
ghost use Rattle.dx_app.specs.Runs.{is_fault, Says};
ghost use Rattle.dx_app.specs.Counts.{SparedByWrites};

use crate::program::answer_all;
use dx_gen::Gen;
use dx_io::{Sink, SureKeeper};
use dx_streams::{HashSink, LineSource, summary};
use dx_text::write_text;
use dx_types::Status;
use std::alloc::Global;

/// Whether a run ended by a fault of the outside, or for want of memory.
fn is_fault(status: &Status) -> bool
    ensures { result ≡ is_fault status.now }
{
    matches!(
        status,
        Status::ReadFault | Status::WriteFault | Status::KeepFault | Status::NoMemory
    )
}

/// How many lines a generated scenario of so many orders has.
fn line_count(events: u32) -> u64
    ensures { result ≡ 11 + events + 6 * (events / 7) }
{
    11 + u64::from(events) + 6 * u64::from(events / 7)
}

/// Writes the last text of a run.
fn write_done<W: Sink>(sink: &mut W, text: &[u8]) -> Status
    ensures said { (told : Told) → told.bytes ≡ text.now → told.status ≡ ends.Done
        → Says (W.written sink.old) (W.written sink.new) (Some told.rows) told result }
    ensures failed { result ≡ ends.WriteFault → Rose (W.faults sink.old) (W.faults sink.new) }
    ensures spared { SparedByWrites (W.faults sink.old) (W.faults sink.new) result }
    ensures no_read { result ≡ ends.ReadFault → ⊥ }
    ensures no_keep { result ≡ ends.KeepFault → ⊥ }
{
    match write_text(sink, text) {
        Ok(()) => Status::Done,
        Err(status) => status,
    }
}

/// Runs a generated scenario over a keeper of its own, and tells the digest of what the run writes, which is hashed
/// as it is written; or there was no memory. It holds one line of the scenario at a time.
fn digest_of_run(alloc: Global, seed: u64, events: u32) -> Option<[u8; 32]>
    ensures { IfSome result (λ digest. digest ≡ run_digest seed events) }
{
    let mut source = LineSource::new(alloc, Gen::new(seed, events));
    let mut sink = HashSink::new();
    let mut keeper = SureKeeper::new(alloc);
    let status = answer_all(alloc, &mut source, &mut sink, &mut keeper);
    if is_fault(&status) {
        return None;
    }
    Some(sink.digest())
}

/// Runs a generated scenario, and writes how many lines it has and the digest of what the run writes. The job
/// `selfrun`.
pub fn self_run<W: Sink>(alloc: Global, seed: u64, events: u32, sink: &mut W) -> Status
    ensures said { (rows : Rows)
        → Says (W.written sink.old) (W.written sink.new) (Some rows) (self_told seed events rows) result }
    ensures failed { result ≡ ends.WriteFault → Rose (W.faults sink.old) (W.faults sink.new) }
    ensures spared { SparedByWrites (W.faults sink.old) (W.faults sink.new) result }
    ensures no_read { result ≡ ends.ReadFault → ⊥ }
    ensures no_keep { result ≡ ends.KeepFault → ⊥ }
{
    let Some(digest) = digest_of_run(alloc, seed, events) else {
        return Status::NoMemory;
    };
    let Ok(text) = summary(alloc, line_count(events), &digest) else {
        return Status::NoMemory;
    };
    write_done(sink, text.as_slice())
}

/// Writes the lines of a generated scenario. It holds one of them at a time. The job `generate`.
pub fn generate<W: Sink>(alloc: Global, seed: u64, events: u32, sink: &mut W) -> Status
    ensures said { (rows : Rows)
        → Says (W.written sink.old) (W.written sink.new) (Some rows) (generate_told seed events rows) result }
    ensures failed { result ≡ ends.WriteFault → Rose (W.faults sink.old) (W.faults sink.new) }
    ensures spared { SparedByWrites (W.faults sink.old) (W.faults sink.new) result }
    ensures no_read { result ≡ ends.ReadFault → ⊥ }
    ensures no_keep { result ≡ ends.KeepFault → ⊥ }
{
    let mut lines = Gen::new(seed, events);
    'lines: for _number in 0..line_count(events) {
        let Ok(next) = lines.next_line(alloc) else {
            return Status::NoMemory;
        };
        let Some(line) = next else {
            return Status::Done;
        };
        match write_text(sink, line.as_slice()) {
            Ok(()) => {}
            Err(status) => return status,
        }
    }
    Status::Done
}
