ghost use Rattle.std.specs.Prelude.{◌≡◌, ◌≤◌, ◌⊎◌, MatchResult, OnOk, IfErr, IsErrOf};
ghost use Rattle.std.specs.Io.KnownBytes.{Appends};
ghost use Rattle.dx_io.specs.Causes.{Rose};
ghost use Rattle.dx_types.specs.declared.status.Status.TheVariants as ends;
ghost use Rattle.dx_print.specs.Statuses.{last_line};
ghost use Rattle.dx_text.specs.Output.{AppendsFront};

use dx_io::{Sink, SinkError};
use dx_print::last_line;
use dx_types::Status;
use std::alloc::Global;

/// Writes all of the bytes, or a front of them where it fails.
fn write_whole<W: Sink>(sink: &mut W, bytes: &[u8]) -> Result<(), SinkError>
    ensures written { MatchResult result (λ _. Appends (W.written sink.old) (W.written sink.new) bytes.now)
        (λ _. AppendsFront (W.written sink.old) (W.written sink.new) bytes.now) }
    ensures later { W.faults sink.old ≤ W.faults sink.new }
    ensures good { OnOk result (W.faults sink.new ≡ W.faults sink.old) }
    ensures failed { IsErrOf result SinkError.Failed → Rose (W.faults sink.old) (W.faults sink.new) }
{
    let mut at = 0;
    'pieces: while at < bytes.len() {
        let (_, rest) = bytes.split_at(at);
        let count = sink.write(rest)?;
        if count == 0 {
            return Err(SinkError::Failed);
        }
        at += count;
    }
    Ok(())
}

/// Writes a text, or says how the run ends.
pub fn write_text<W: Sink>(sink: &mut W, text: &[u8]) -> Result<(), Status>
    ensures written { MatchResult result (λ _. Appends (W.written sink.old) (W.written sink.new) text.now)
        (λ s. AppendsFront (W.written sink.old) (W.written sink.new) text.now × ((s ≡ ends.WriteFault) ⊎
        (s ≡ ends.NoMemory))) }
    ensures later { W.faults sink.old ≤ W.faults sink.new }
    ensures good { OnOk result (W.faults sink.new ≡ W.faults sink.old) }
    ensures failed { IfErr result (λ s. s ≡ ends.WriteFault → Rose (W.faults sink.old) (W.faults sink.new)) }
{
    match write_whole(sink, text) {
        Ok(()) => Ok(()),
        Err(SinkError::Failed) => Err(Status::WriteFault),
        Err(SinkError::NoMemory) => Err(Status::NoMemory),
    }
}

/// Writes the last line of a run that ends with this status, or says how it ends in its place.
pub fn write_last<W: Sink>(alloc: Global, sink: &mut W, status: &Status) -> Result<(), Status>
    ensures written { MatchResult result (λ _. Appends (W.written sink.old) (W.written sink.new) (last_line status.now))
        (λ s. AppendsFront (W.written sink.old) (W.written sink.new) (last_line status.now) ×
        ((s ≡ ends.WriteFault) ⊎ (s ≡ ends.NoMemory))) }
    ensures later { W.faults sink.old ≤ W.faults sink.new }
    ensures good { OnOk result (W.faults sink.new ≡ W.faults sink.old) }
    ensures failed { IfErr result (λ s. s ≡ ends.WriteFault → Rose (W.faults sink.old) (W.faults sink.new)) }
{
    let Ok(text) = last_line(alloc, status) else {
        return Err(Status::NoMemory);
    };
    write_text(sink, text.as_slice())
}
