//! The lines of an input: each is read, executed and answered before the next one is executed.

ghost use Rattle.std.specs.Prelude.{◌≡◌, ◌<◌, ◌≤◌, ◌+◌, ◌++◌, ◌⊎◌, false, OnOk, IfErr, Some};
ghost use Rattle.std.specs.Io.KnownBytes.{IsAtEnd};
ghost use Rattle.dx_io.specs.Rows.{Rows};
ghost use Rattle.dx_types.specs.declared.status.Status.TheVariants as ends;
ghost use Rattle.dx_cluster.specs.World.{World, StandsForSome};
ghost use Rattle.dx_app.specs.Transcript.{Told, line_limit, ended, bad_line, line_told, rest_told};
ghost use Rattle.dx_app.specs.Counts.{Later, Caused, CausedByStreams, CausedBehind, CausedByWrites, CausedByFault};
ghost use Rattle.dx_app.specs.Counts.{Spared, StreamsSpared, SparedBehind, SparedByWrites};
ghost use Rattle.dx_app.specs.Prompt.{StopsInLine, AnswersWholeLines, AnswersAllBehind};
ghost use Rattle.dx_text.specs.Reading.{IsNear, ReadsTo};
ghost use Rattle.dx_app.specs.Runs.{is_fault, Says, AppendsLast, IsRunOf, Executes, Holds, GoesOn, IsAnswered, StopsAtLine, EndsAtLine, EndsUnserved, EndsReading};

use dx_cluster::{Cluster, StartFault};
use dx_io::{Keeper, Sink, Source};
use dx_print::reply;
use dx_scenario::{LineFault, read_event};
use dx_text::{Cut, LineReader, ReadError, write_last, write_text};
use dx_types::Status;
use std::alloc::Global;

/// The most lines that are read.
const MOST_LINES: u64 = 1_000_000;

/// The number of the first line that is not read.
const LINES_END: u64 = MOST_LINES + 1;

/// Writes that a line is bad, and ends the run.
pub fn end_badly<W: Sink>(alloc: Global, sink: &mut W, line: u64, field: u32) -> Status
    ensures said { (rows : Rows)
        → Says (W.written sink.old) (W.written sink.new) (Some rows) (bad_line line field rows) result }
    ensures later { W.faults sink.old ≤ W.faults sink.new }
    ensures caused { CausedByWrites (W.faults sink.old) (W.faults sink.new) result }
    ensures spared { SparedByWrites (W.faults sink.old) (W.faults sink.new) result }
{
    let status = Status::BadLine { line, field };
    match write_last(alloc, sink, &status) {
        Ok(()) => status,
        Err(status) => status,
    }
}

/// Ends the run at a line that is not read.
pub fn end_at_line<W: Sink>(alloc: Global, sink: &mut W, line: u64, fault: LineFault) -> Status
    ensures said { EndsAtLine (W.written sink.old) (W.written sink.new) line fault result }
    ensures later { W.faults sink.old ≤ W.faults sink.new }
    ensures caused { CausedByWrites (W.faults sink.old) (W.faults sink.new) result }
    ensures spared { SparedByWrites (W.faults sink.old) (W.faults sink.new) result }
{
    match fault {
        LineFault::Bad { field } => end_badly(alloc, sink, line, field),
        LineFault::NoMemory => Status::NoMemory,
    }
}

/// Ends the run where nodes are not started, or an event is not answered.
pub fn end_unserved<W: Sink>(alloc: Global, sink: &mut W, fault: StartFault) -> Status
    ensures said { EndsUnserved (W.written sink.old) (W.written sink.new) fault result }
    ensures later { W.faults sink.old ≤ W.faults sink.new }
    ensures caused { CausedByFault (W.faults sink.old) (W.faults sink.new) fault result }
    ensures spared { SparedByWrites (W.faults sink.old) (W.faults sink.new) result }
{
    let status = match fault {
        StartFault::KeptBad { node, height } => Status::KeptBad { node, height },
        StartFault::KeptOther { node, kept, ours } => Status::KeptOther { node, kept, ours },
        StartFault::KeepFault => return Status::KeepFault,
        StartFault::NoMemory => return Status::NoMemory,
    };
    match write_last(alloc, sink, &status) {
        Ok(()) => status,
        Err(status) => status,
    }
}

/// How a run ends whose source failed, or that had no memory for a line.
pub fn end_reading(error: ReadError) -> Status
    ensures { EndsReading error result }
{
    match error {
        ReadError::Failed => Status::ReadFault,
        ReadError::NoMemory => Status::NoMemory,
    }
}

/// Executes a line and writes the reply, or says how the run ends.
fn answer_line<W: Sink, K: Keeper>(
    alloc: Global,
    cluster: &mut Cluster,
    number: u64,
    line: &[u8],
    sink: &mut W,
    keeper: &mut K,
) -> Result<(), Status>
    requires { StandsForSome cluster.old }
    ensures stands { OnOk result (StandsForSome cluster.new) }
    ensures answered { OnOk result ((w : World) → Holds cluster.old (K.rows keeper.old) w
        → IsAnswered w number line.now cluster.new (K.rows keeper.new) (W.written sink.old) (W.written sink.new)) }
    ensures ended { IfErr result (λ s. (w : World) → Holds cluster.old (K.rows keeper.old) w → (next : World → Told)
        → Says (W.written sink.old) (W.written sink.new) (K.rows keeper.new) (line_told w number line.now next) s) }
    ensures kept { IfErr result (λ s. (w : World) → Holds cluster.old (K.rows keeper.old) w
        → StopsAtLine w number line.now (W.written sink.old) (W.written sink.new) (K.rows keeper.new)) }
    ensures write_count { W.faults sink.old ≤ W.faults sink.new }
    ensures keep_count { K.faults keeper.old ≤ K.faults keeper.new }
    ensures caused { IfErr result (CausedBehind (W.faults sink.old) (W.faults sink.new)
        (K.faults keeper.old) (K.faults keeper.new)) }
    ensures good { OnOk result (SparedBehind (W.faults sink.old) (W.faults sink.new)
        (K.faults keeper.old) (K.faults keeper.new)) }
    ensures spared { IfErr result (λ s. is_fault s ≡ false → SparedBehind (W.faults sink.old) (W.faults sink.new)
        (K.faults keeper.old) (K.faults keeper.new)) }
{
    let event = match read_event(alloc, line, cluster.count()) {
        Ok(event) => event,
        Err(fault) => return Err(end_at_line(alloc, sink, number, fault)),
    };
    let answer = match cluster.serve(event, keeper) {
        Ok(answer) => answer,
        Err(fault) => return Err(end_unserved(alloc, sink, fault)),
    };
    let Ok(text) = reply(alloc, number, &answer) else {
        return Err(Status::NoMemory);
    };
    write_text(sink, text.as_slice())
}

/// Reads the next line, executes it and writes the reply, or says how the run ends.
fn next_reply<S: Source, W: Sink, K: Keeper>(
    cluster: &mut Cluster,
    number: u64,
    reader: &mut LineReader,
    source: &mut S,
    line: &mut Vec<u8>,
    sink: &mut W,
    keeper: &mut K,
) -> Result<(), Status>
    requires stands { StandsForSome cluster.old }
    requires number { number ≤ line_limit }
    ensures stands { OnOk result (StandsForSome cluster.new) }
    ensures goes_on { OnOk result ((w : World) → Holds cluster.old (K.rows keeper.old) w
        → GoesOn (rest_told w number) reader.old reader.new (S.left source.old) (S.left source.new)
        (W.written sink.old) (W.written sink.new) cluster.new (K.rows keeper.new) (number + 1)) }
    ensures ended { IfErr result (λ s. (w : World) → Holds cluster.old (K.rows keeper.old) w
        → IsRunOf (λ rest. rest_told w number (reader.old ++ rest)) (S.left source.old)
        (W.written sink.old) (W.written sink.new) (K.rows keeper.new) s) }
    ensures kept { IfErr result (λ s. (w : World) → Holds cluster.old (K.rows keeper.old) w
        → Executes (rest_told w number) reader.old (S.left source.old)
        (W.written sink.old) (W.written sink.new) (K.rows keeper.new)) }
    ensures done { IfErr result (λ s. s ≡ ends.Done → IsAtEnd (S.left source.new)) }
    ensures near { ReadsTo reader.old (S.left source.old) (S.left source.new) IsNear }
    ensures stops { IfErr result (λ s. s ≡ ends.ReadFault
        → StopsInLine reader.old (S.left source.old) (S.left source.new) (W.written sink.old) (W.written sink.new)) }
    ensures later { Later (S.faults source.old) (S.faults source.new) (W.faults sink.old) (W.faults sink.new)
        (K.faults keeper.old) (K.faults keeper.new) }
    ensures caused { IfErr result (Caused (S.faults source.old) (S.faults source.new)
        (W.faults sink.old) (W.faults sink.new) (K.faults keeper.old) (K.faults keeper.new)) }
    ensures good { OnOk result (Spared (S.faults source.old) (S.faults source.new)
        (W.faults sink.old) (W.faults sink.new) (K.faults keeper.old) (K.faults keeper.new)) }
    ensures spared { IfErr result (λ s. is_fault s ≡ false → Spared (S.faults source.old) (S.faults source.new)
        (W.faults sink.old) (W.faults sink.new) (K.faults keeper.old) (K.faults keeper.new)) }
{
    let alloc = *line.allocator();
    let cut = match reader.next_line(source, line) {
        Ok(cut) => cut,
        Err(error) => return Err(end_reading(error)),
    };
    match cut {
        Cut::Line => answer_line(alloc, cluster, number, line.as_slice(), sink, keeper),
        Cut::Broken => Err(end_badly(alloc, sink, number, 0)),
        Cut::End => Err(Status::Done),
    }
}

/// Writes that the input has too many lines, and ends the run.
fn end_long<W: Sink>(alloc: Global, sink: &mut W) -> Status
    ensures said { (rows : Rows)
        → Says (W.written sink.old) (W.written sink.new) (Some rows) (ended ends.Long rows) result }
    ensures later { W.faults sink.old ≤ W.faults sink.new }
    ensures caused { CausedByWrites (W.faults sink.old) (W.faults sink.new) result }
    ensures spared { SparedByWrites (W.faults sink.old) (W.faults sink.new) result }
{
    let status = Status::Long;
    match write_last(alloc, sink, &status) {
        Ok(()) => status,
        Err(status) => status,
    }
}

/// Ends the run behind the last line that may be read.
fn end_of_lines<S: Source, W: Sink>(
    alloc: Global,
    reader: &mut LineReader,
    source: &mut S,
    sink: &mut W,
) -> Status
    ensures said { (w : World) → IsRunOf (λ rest. rest_told w LINES_END (reader.old ++ rest)) (S.left source.old)
        (W.written sink.old) (W.written sink.new) (Some w.rows) result }
    ensures last { AppendsLast (W.written sink.old) (W.written sink.new) }
    ensures done { result ≡ ends.Done → IsAtEnd (S.left source.new) }
    ensures near { ReadsTo reader.old (S.left source.old) (S.left source.new) IsNear }
    ensures stops { result ≡ ends.ReadFault
        → StopsInLine reader.old (S.left source.old) (S.left source.new) (W.written sink.old) (W.written sink.new) }
    ensures read_count { S.faults source.old ≤ S.faults source.new }
    ensures write_count { W.faults sink.old ≤ W.faults sink.new }
    ensures caused { CausedByStreams (S.faults source.old) (S.faults source.new)
        (W.faults sink.old) (W.faults sink.new) result }
    ensures spared { is_fault result ≡ false → StreamsSpared (S.faults source.old) (S.faults source.new)
        (W.faults sink.old) (W.faults sink.new) }
{
    let more = match reader.has_more(source) {
        Ok(more) => more,
        Err(_) => return Status::ReadFault,
    };
    if more {
        return end_long(alloc, sink);
    }
    Status::Done
}

/// Answers the lines from the second on, by a cluster that stands for some nodes and slots.
pub fn replay_lines<S: Source, W: Sink, K: Keeper>(
    alloc: Global,
    cluster: &mut Cluster,
    reader: &mut LineReader,
    source: &mut S,
    sink: &mut W,
    keeper: &mut K,
) -> Status
    requires { StandsForSome cluster.old }
    ensures said { (w : World) → Holds cluster.old (K.rows keeper.old) w
        → IsRunOf (λ rest. rest_told w 2 (reader.old ++ rest)) (S.left source.old)
        (W.written sink.old) (W.written sink.new) (K.rows keeper.new) result }
    ensures kept { (w : World) → Holds cluster.old (K.rows keeper.old) w
        → Executes (rest_told w 2) reader.old (S.left source.old)
        (W.written sink.old) (W.written sink.new) (K.rows keeper.new) }
    ensures done { result ≡ ends.Done → IsAtEnd (S.left source.new) }
    ensures no_further { (w : World) → Holds cluster.old (K.rows keeper.old) w
        → AnswersAllBehind (rest_told w 2) reader.old (S.left source.old) (S.left source.new)
        (W.written sink.old) (W.written sink.new) }
    ensures prompt { result ≡ ends.ReadFault → (w : World) → Holds cluster.old (K.rows keeper.old) w
        → AnswersWholeLines (rest_told w 2) reader.old (S.left source.old) (S.left source.new)
        (W.written sink.old) (W.written sink.new) }
    ensures later { Later (S.faults source.old) (S.faults source.new) (W.faults sink.old) (W.faults sink.new)
        (K.faults keeper.old) (K.faults keeper.new) }
    ensures caused { Caused (S.faults source.old) (S.faults source.new) (W.faults sink.old) (W.faults sink.new)
        (K.faults keeper.old) (K.faults keeper.new) result }
    ensures spared { is_fault result ≡ false → Spared (S.faults source.old) (S.faults source.new)
        (W.faults sink.old) (W.faults sink.new) (K.faults keeper.old) (K.faults keeper.new) }
{
    let mut line = Vec::new(alloc);
    'lines: for number in 2..LINES_END {
        match next_reply(cluster, number, reader, source, &mut line, sink, keeper) {
            Ok(()) => {}
            Err(status) => return status,
        }
    }
    end_of_lines(alloc, reader, source, sink)
}
