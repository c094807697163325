//! The program's two calls: a run by its words, and the replay of an input.

ghost use Rattle.std.specs.Prelude.{◌≡◌, ◌≤◌, ◌⊎◌, ℕ, List, [], ◌++◌, false, MatchResult, OnOk, IfOk, IfErr, None, Some, map, string_bytes};
ghost use Rattle.std.specs.Io.KnownBytes.{Appends, IsAtEnd};
ghost use Rattle.dx_io.specs.Causes.{Rose};
ghost use Rattle.dx_io.specs.Rows.{Rows};
ghost use Rattle.dx_types.specs.declared.status.Status.TheVariants as ends;
ghost use Rattle.dx_spec.specs.Genesis.{IsNatFrom, IsGenesis};
ghost use Rattle.dx_print.specs.Replies.{reply_line};
ghost use Rattle.dx_words.specs.declared.words.Job.TheVariants as jobs;
ghost use Rattle.dx_words.specs.Asked.{asked};
ghost use Rattle.dx_text.specs.Output.{AppendsFront};
ghost use Rattle.dx_cluster.specs.World.{World, Stands};
ghost use Rattle.dx_app.specs.Transcript.{ended, genesis_reply, scenario, asked_told, transcript};
ghost use Rattle.dx_app.specs.Runs.{is_fault, Says, AppendsLast, IsRunOf, KeepsLines, OpensTo, EndsUnasked};
ghost use Rattle.dx_app.specs.Counts.{Caused, CausedByStreams, CausedByWrites, Spared, StreamsSpared, SparedByWrites};
ghost use Rattle.dx_app.specs.Prompt.{StopsInLine, RepliesAreOut, ReadsNoFurther};
ghost use Rattle.dx_text.specs.Reading.{IsNear, ReadsTo};
ghost use Rattle.dx_app.specs.Causes.{AskReplay, AskGoodRun, IsGoodScenario, IsFirstBad, IsTooLong, IsKeptBad, IsKeptOther, HadSurely, ComesExactly, IsWhole};

use crate::own_run::{generate, self_run};
use crate::replay::{end_at_line, end_badly, end_reading, end_unserved, replay_lines};
use dx_cluster::Cluster;
use dx_io::{Keeper, Sink, Source};
use dx_print::{Reply, Word, reply};
use dx_scenario::read_genesis;
use dx_text::{Cut, LineReader, write_last, write_text};
use dx_types::{Genesis, Status};
use dx_words::{Job, Words, WordsFault, read_words};
use std::alloc::Global;

/// Reads the first line, or says how the run ends.
fn open<S: Source, W: Sink>(
    alloc: Global,
    reader: &mut LineReader,
    source: &mut S,
    sink: &mut W,
) -> Result<(u32, Genesis), Status>
    requires { reader.old ≡ [] }
    ensures opened { IfOk result (λ first. OpensTo first reader.new (S.left source.old) (S.left source.new)) }
    ensures silent { IfOk result (λ _. W.written sink.new ≡ W.written sink.old) }
    ensures nodes { IfOk result (λ first. IsNatFrom 1 16 first.0) }
    ensures good { IfOk result (λ first. IsGenesis first.1) }
    ensures ended { IfErr result (λ s. (rows : Rows) → IsRunOf (scenario rows) (S.left source.old)
        (W.written sink.old) (W.written sink.new) (Some rows) s) }
    ensures last { AppendsLast (W.written sink.old) (W.written sink.new) }
    ensures near { ReadsTo reader.old (S.left source.old) (S.left source.new) IsNear }
    ensures stops { IfErr result (λ s. s ≡ ends.ReadFault
        → StopsInLine reader.old (S.left source.old) (S.left source.new) (W.written sink.old) (W.written sink.new)) }
    ensures read_count { S.faults source.old ≤ S.faults source.new }
    ensures write_count { W.faults sink.old ≤ W.faults sink.new }
    ensures caused { IfErr result (CausedByStreams (S.faults source.old) (S.faults source.new)
        (W.faults sink.old) (W.faults sink.new)) }
    ensures quiet { OnOk result (StreamsSpared (S.faults source.old) (S.faults source.new)
        (W.faults sink.old) (W.faults sink.new)) }
    ensures spared { IfErr result (λ s. is_fault s ≡ false → StreamsSpared (S.faults source.old) (S.faults source.new)
        (W.faults sink.old) (W.faults sink.new)) }
    ensures not_done { IfErr result (λ s. s ≡ ends.Done → ⊥) }
{
    let mut line = Vec::new(alloc);
    let cut = match reader.next_line(source, &mut line) {
        Ok(cut) => cut,
        Err(error) => return Err(end_reading(error)),
    };
    match cut {
        Cut::Line => {}
        Cut::Broken => return Err(end_badly(alloc, sink, 1, 0)),
        Cut::End => return Err(end_badly(alloc, sink, 1, 0)),
    }
    match read_genesis(alloc, line.as_slice()) {
        Ok(first) => Ok(first),
        Err(fault) => Err(end_at_line(alloc, sink, 1, fault)),
    }
}

/// Writes the reply to the first line, or says how the run ends.
fn greet<W: Sink>(alloc: Global, sink: &mut W, cluster: &Cluster) -> Result<(), Status>
    ensures written { (w : World) → Stands cluster.now w
        → MatchResult result (λ _. Appends (W.written sink.old) (W.written sink.new) (reply_line 1 (genesis_reply w)))
        (λ s. AppendsFront (W.written sink.old) (W.written sink.new) (reply_line 1 (genesis_reply w)) ×
        ((s ≡ ends.WriteFault) ⊎ (s ≡ ends.NoMemory))) }
    ensures later { W.faults sink.old ≤ W.faults sink.new }
    ensures caused { IfErr result (CausedByWrites (W.faults sink.old) (W.faults sink.new)) }
    ensures quiet { OnOk result (W.faults sink.new ≡ W.faults sink.old) }
    ensures fails { IfErr result (λ s. (s ≡ ends.WriteFault) ⊎ (s ≡ ends.NoMemory)) }
{
    let Ok(answer) = cluster.heights() else {
        return Err(Status::NoMemory);
    };
    let answered = Reply {
        word: Word::Genesis,
        answer,
    };
    let Ok(text) = reply(alloc, 1, &answered) else {
        return Err(Status::NoMemory);
    };
    write_text(sink, text.as_slice())
}

/// Answers all lines of a source, as the scenario that they are.
pub(crate) fn answer_all<S: Source, W: Sink, K: Keeper>(
    alloc: Global,
    source: &mut S,
    sink: &mut W,
    keeper: &mut K,
) -> Status
    ensures said { (rows : Rows) → K.rows keeper.old ≡ Some rows → IsRunOf (scenario rows) (S.left source.old)
        (W.written sink.old) (W.written sink.new) (K.rows keeper.new) result }
    ensures kept { (rows : Rows) → K.rows keeper.old ≡ Some rows → KeepsLines rows (S.left source.old)
        (W.written sink.old) (W.written sink.new) (K.rows keeper.new) }
    ensures done { result ≡ ends.Done → IsAtEnd (S.left source.new) }
    ensures prompt { result ≡ ends.ReadFault → (rows : Rows) → K.rows keeper.old ≡ Some rows
        → RepliesAreOut rows (S.left source.old) (S.left source.new) (W.written sink.old) (W.written sink.new) }
    ensures no_further { (rows : Rows) → K.rows keeper.old ≡ Some rows
        → ReadsNoFurther rows (S.left source.old) (S.left source.new) (W.written sink.old) (W.written sink.new) }
    ensures caused { Caused (S.faults source.old) (S.faults source.new) (W.faults sink.old) (W.faults sink.new)
        (K.faults keeper.old) (K.faults keeper.new) result }
    ensures spared { is_fault result ≡ false → Spared (S.faults source.old) (S.faults source.new)
        (W.faults sink.old) (W.faults sink.new) (K.faults keeper.old) (K.faults keeper.new) }
{
    let mut reader = LineReader::new();
    let (count, genesis) = match open(alloc, &mut reader, source, sink) {
        Ok(first) => first,
        Err(status) => return status,
    };
    let mut cluster = match Cluster::open(alloc, count, &genesis, keeper) {
        Ok(cluster) => cluster,
        Err(fault) => return end_unserved(alloc, sink, fault),
    };
    match greet(alloc, sink, &cluster) {
        Ok(()) => {}
        Err(status) => return status,
    }
    replay_lines(alloc, &mut cluster, &mut reader, source, sink, keeper)
}

/// Answers each line of a source, the genesis line first and then the events, and says by which status the run ends
/// ("Statuses" in docs/FORMAT.md). The nodes start from the rows that the keeper has of them, and each block that a
/// node commits is a row before the reply to it is written.
///
/// | status | when |
/// |---|---|
/// | `Done` | all lines, at most 1,000,000, were good and are answered, and the source is at its end |
/// | `BadLine` | a line was bad, or there was none: the first bad line, from 1, and its wrong element, from 0 |
/// | `KeptBad` | a node was to start, at first or again, from rows that are no chain: it, and the height of its first bad row |
/// | `KeptOther` | a node was to start, at first or again, from rows of another genesis: it, and both digests |
/// | `Long` | a byte followed the 1,000,000th newline, and all lines before it were good |
/// | `ReadFault` | a read failed; only where the source's count of faults rose |
/// | `WriteFault` | a write failed; only where the sink's count of faults rose |
/// | `KeepFault` | a call of the keeper failed; only where the keeper's count of faults rose |
/// | `NoMemory` | there was no memory |
///
/// Where source and keeper tell what they hold, and the table gives it one of the first five, the status is just that,
/// or one of the last four. `Usage` never comes where the keeper tells its rows.
pub fn replay_all<S: Source, W: Sink, K: Keeper>(
    alloc: Global,
    source: &mut S,
    sink: &mut W,
    keeper: &mut K,
) -> Status
    // What is written and kept, and the status, are those of the scenario that the source had left, over the rows that
    // the keeper had; at a fault of the outside or for want of memory, a front of it is written.
    ensures said { (rows : Rows) → K.rows keeper.old ≡ Some rows → IsRunOf (scenario rows) (S.left source.old)
        (W.written sink.old) (W.written sink.new) (K.rows keeper.new) result }
    ensures done { result ≡ ends.Done → IsAtEnd (S.left source.new) }

    // Whatever ends the run, just what the executed lines put is kept, and no reply is written to what is not kept.
    // Each reply is written before the next line is executed: all executed lines but the last one have their whole
    // replies in what is written.
    ensures kept { (rows : Rows) → K.rows keeper.old ≡ Some rows → KeepsLines rows (S.left source.old)
        (W.written sink.old) (W.written sink.new) (K.rows keeper.new) }

    // Replies keep up with the input: where a read fails, just the replies to all lines that are whole in what was
    // taken from the source are written; and whatever ends the run, the source is read no further than one line whose
    // reply need not be written yet, and at most one buffer.
    ensures prompt { result ≡ ends.ReadFault → (rows : Rows) → K.rows keeper.old ≡ Some rows
        → RepliesAreOut rows (S.left source.old) (S.left source.new) (W.written sink.old) (W.written sink.new) }
    ensures no_further { (rows : Rows) → K.rows keeper.old ≡ Some rows
        → ReadsNoFurther rows (S.left source.old) (S.left source.new) (W.written sink.old) (W.written sink.new) }

    // Each status comes exactly by its cause. Of several faults of rows and lines the first ends the run.
    ensures good { (rows : Rows) → K.rows keeper.old ≡ Some rows
        → ComesExactly (S.left source.old) result ends.Done (IsGoodScenario rows) }
    ensures bad_line { (rows : Rows) → K.rows keeper.old ≡ Some rows → (line field : ℕ)
        → ComesExactly (S.left source.old) result (ends.BadLine line field)
        (λ input. IsFirstBad rows input line field) }
    ensures long { (rows : Rows) → K.rows keeper.old ≡ Some rows
        → ComesExactly (S.left source.old) result ends.Long (IsTooLong rows) }
    ensures kept_bad { (rows : Rows) → K.rows keeper.old ≡ Some rows → (node height : ℕ)
        → ComesExactly (S.left source.old) result (ends.KeptBad node height)
        (λ input. IsKeptBad rows input node height) }
    ensures kept_other { (rows : Rows) → K.rows keeper.old ≡ Some rows → (node : ℕ) (theirs ours : List ℕ)
        → ComesExactly (S.left source.old) result (ends.KeptOther node theirs ours)
        (λ input. IsKeptOther rows input node theirs ours) }
    ensures usage { (rows : Rows) → K.rows keeper.old ≡ Some rows → result ≡ ends.Usage → ⊥ }

    // A fault of the outside is an answer only where the count of that object's faults rose.
    ensures read_fault { result ≡ ends.ReadFault → Rose (S.faults source.old) (S.faults source.new) }
    ensures write_fault { result ≡ ends.WriteFault → Rose (W.faults sink.old) (W.faults sink.new) }
    ensures keep_fault { result ≡ ends.KeepFault → Rose (K.faults keeper.old) (K.faults keeper.new) }

    // A fault ends the run: where it ends by none, no count rose, so no call that failed is passed over or tried again.
    ensures spared { is_fault result ≡ false → Spared (S.faults source.old) (S.faults source.new)
        (W.faults sink.old) (W.faults sink.new) (K.faults keeper.old) (K.faults keeper.new) }

    // A good scenario is answered whole where no count rises, unless memory is wanting.
    ensures complete { (rows : Rows) → K.rows keeper.old ≡ Some rows
        → HadSurely (S.left source.old) (IsGoodScenario rows)
        → ¬ Rose (S.faults source.old) (S.faults source.new) → ¬ Rose (W.faults sink.old) (W.faults sink.new)
        → ¬ Rose (K.faults keeper.old) (K.faults keeper.new)
        → IsWhole (scenario rows) (S.left source.old) (W.written sink.old) (W.written sink.new)
        (K.rows keeper.new) result }
{
    answer_all(alloc, source, sink, keeper)
}

/// Writes that the words are not taken, and ends the run.
fn end_usage<W: Sink>(alloc: Global, sink: &mut W) -> Status
    ensures said { (rows : Rows)
        → Says (W.written sink.old) (W.written sink.new) (Some rows) (ended ends.Usage rows) result }
    ensures caused { CausedByWrites (W.faults sink.old) (W.faults sink.new) result }
    ensures spared { SparedByWrites (W.faults sink.old) (W.faults sink.new) result }
{
    let status = Status::Usage;
    match write_last(alloc, sink, &status) {
        Ok(()) => status,
        Err(status) => status,
    }
}

/// Ends the run whose words are not read.
fn end_unasked<W: Sink>(alloc: Global, sink: &mut W, fault: WordsFault) -> Status
    ensures said { EndsUnasked (W.written sink.old) (W.written sink.new) fault result }
    ensures caused { CausedByWrites (W.faults sink.old) (W.faults sink.new) result }
    ensures spared { SparedByWrites (W.faults sink.old) (W.faults sink.new) result }
{
    match fault {
        WordsFault::Usage => end_usage(alloc, sink),
        WordsFault::NoMemory => Status::NoMemory,
    }
}

/// Does what is asked for.
fn do_job<S: Source, W: Sink, K: Keeper>(
    alloc: Global,
    words: Words,
    source: &mut S,
    sink: &mut W,
    keeper: &mut K,
) -> Status
    ensures said { (rows : Rows) → K.rows keeper.old ≡ Some rows
        → IsRunOf (asked_told (Some words) rows) (S.left source.old)
        (W.written sink.old) (W.written sink.new) (K.rows keeper.new) result }
    ensures own { ¬ (words.job ≡ jobs.Replay) → (rows : Rows) → IsRunOf (asked_told (Some words) rows)
        (S.left source.old) (W.written sink.old) (W.written sink.new) (Some rows) result }
    ensures kept { words.job ≡ jobs.Replay → (rows : Rows) → K.rows keeper.old ≡ Some rows
        → KeepsLines rows (S.left source.old) (W.written sink.old) (W.written sink.new) (K.rows keeper.new) }
    ensures keeper_spared { ¬ (words.job ≡ jobs.Replay) → keeper.new ≡ keeper.old }
    ensures source_spared { ¬ (words.job ≡ jobs.Replay) → source.new ≡ source.old }
    ensures done { result ≡ ends.Done → words.job ≡ jobs.Replay → IsAtEnd (S.left source.new) }
    ensures prompt { result ≡ ends.ReadFault → (rows : Rows) → K.rows keeper.old ≡ Some rows
        → RepliesAreOut rows (S.left source.old) (S.left source.new) (W.written sink.old) (W.written sink.new) }
    ensures no_further { (rows : Rows) → K.rows keeper.old ≡ Some rows
        → ReadsNoFurther rows (S.left source.old) (S.left source.new) (W.written sink.old) (W.written sink.new) }
    ensures caused { Caused (S.faults source.old) (S.faults source.new) (W.faults sink.old) (W.faults sink.new)
        (K.faults keeper.old) (K.faults keeper.new) result }
    ensures spared { is_fault result ≡ false → Spared (S.faults source.old) (S.faults source.new)
        (W.faults sink.old) (W.faults sink.new) (K.faults keeper.old) (K.faults keeper.new) }
{
    match words.job {
        Job::Replay => answer_all(alloc, source, sink, keeper),
        Job::SelfRun => self_run(alloc, words.seed, words.events, sink),
        Job::Generate => generate(alloc, words.seed, words.events, sink),
    }
}

/// Does what the words ask for.
fn obey<S: Source, W: Sink, K: Keeper>(
    alloc: Global,
    words: &[String],
    source: &mut S,
    sink: &mut W,
    keeper: &mut K,
) -> Status
    ensures said { (rows : Rows) → K.rows keeper.old ≡ Some rows
        → IsRunOf (transcript (map string_bytes words.now) rows) (S.left source.old)
        (W.written sink.old) (W.written sink.new) (K.rows keeper.new) result }
    ensures own { ¬ AskReplay (map string_bytes words.now) → (rows : Rows)
        → IsRunOf (transcript (map string_bytes words.now) rows) (S.left source.old)
        (W.written sink.old) (W.written sink.new) (Some rows) result }
    ensures kept { AskReplay (map string_bytes words.now) → (rows : Rows) → K.rows keeper.old ≡ Some rows
        → KeepsLines rows (S.left source.old) (W.written sink.old) (W.written sink.new) (K.rows keeper.new) }
    ensures keeper_spared { ¬ AskReplay (map string_bytes words.now) → keeper.new ≡ keeper.old }
    ensures source_spared { ¬ AskReplay (map string_bytes words.now) → source.new ≡ source.old }
    ensures done { result ≡ ends.Done → AskReplay (map string_bytes words.now) → IsAtEnd (S.left source.new) }
    ensures prompt { result ≡ ends.ReadFault → (rows : Rows) → K.rows keeper.old ≡ Some rows
        → RepliesAreOut rows (S.left source.old) (S.left source.new) (W.written sink.old) (W.written sink.new) }
    ensures no_further { (rows : Rows) → K.rows keeper.old ≡ Some rows
        → ReadsNoFurther rows (S.left source.old) (S.left source.new) (W.written sink.old) (W.written sink.new) }
    ensures caused { Caused (S.faults source.old) (S.faults source.new) (W.faults sink.old) (W.faults sink.new)
        (K.faults keeper.old) (K.faults keeper.new) result }
    ensures spared { is_fault result ≡ false → Spared (S.faults source.old) (S.faults source.new)
        (W.faults sink.old) (W.faults sink.new) (K.faults keeper.old) (K.faults keeper.new) }
{
    match read_words(alloc, words) {
        Ok(asked) => do_job(alloc, asked, source, sink, keeper),
        Err(fault) => end_unasked(alloc, sink, fault),
    }
}

/// Does all that the program does: `words` are the program's words without its name ("Words" in docs/FORMAT.md). The
/// job `replay`, which is also that of no words, answers the lines of the source, as [`replay_all`] does. The job
/// `selfrun` runs a generated scenario over a keeper of its own, and writes how many lines it has and the digest of
/// what that run writes; the job `generate` writes the scenario. Both read nothing of the source, do not call the
/// keeper, and end with `Done`, unless a write fails or there is no memory.
pub fn run<S: Source, W: Sink, K: Keeper>(
    alloc: Global,
    words: &[String],
    source: &mut S,
    sink: &mut W,
    keeper: &mut K,
) -> Status
    // What is written and kept, and the status, are those of the words, of what the source had left and of the rows that
    // the keeper had; at a fault of the outside or for want of memory, a front of it is written.
    ensures said { (rows : Rows) → K.rows keeper.old ≡ Some rows
        → IsRunOf (transcript (map string_bytes words.now) rows) (S.left source.old)
        (W.written sink.old) (W.written sink.new) (K.rows keeper.new) result }
    ensures done { result ≡ ends.Done → AskReplay (map string_bytes words.now) → IsAtEnd (S.left source.new) }

    // Whatever ends the run, just what the executed lines put is kept, and no reply is written to what is not kept.
    // Each reply is written before the next line is executed: all executed lines but the last one have their whole
    // replies in what is written.
    // Where the words do not ask for the replay of the input, keeper and source are not called.
    ensures kept { AskReplay (map string_bytes words.now) → (rows : Rows) → K.rows keeper.old ≡ Some rows
        → KeepsLines rows (S.left source.old) (W.written sink.old) (W.written sink.new) (K.rows keeper.new) }
    ensures keeper_spared { ¬ AskReplay (map string_bytes words.now) → keeper.new ≡ keeper.old }
    ensures source_spared { ¬ AskReplay (map string_bytes words.now) → source.new ≡ source.old }

    // Replies keep up with the input: where a read fails, just the replies to all lines that are whole in what was
    // taken from the source are written; and whatever ends the run, the source is read no further than one line whose
    // reply need not be written yet, and at most one buffer.
    ensures prompt { result ≡ ends.ReadFault → (rows : Rows) → K.rows keeper.old ≡ Some rows
        → RepliesAreOut rows (S.left source.old) (S.left source.new) (W.written sink.old) (W.written sink.new) }
    ensures no_further { (rows : Rows) → K.rows keeper.old ≡ Some rows
        → ReadsNoFurther rows (S.left source.old) (S.left source.new) (W.written sink.old) (W.written sink.new) }

    // Each status comes exactly by its cause. Of several faults of rows and lines the first ends the run.
    ensures good { (rows : Rows) → K.rows keeper.old ≡ Some rows
        → ComesExactly (S.left source.old) result ends.Done (AskGoodRun (map string_bytes words.now) rows) }
    ensures bad_line { (rows : Rows) → K.rows keeper.old ≡ Some rows → (line field : ℕ)
        → ComesExactly (S.left source.old) result (ends.BadLine line field)
        (λ input. AskReplay (map string_bytes words.now) × IsFirstBad rows input line field) }
    ensures long { (rows : Rows) → K.rows keeper.old ≡ Some rows
        → ComesExactly (S.left source.old) result ends.Long
        (λ input. AskReplay (map string_bytes words.now) × IsTooLong rows input) }
    ensures kept_bad { (rows : Rows) → K.rows keeper.old ≡ Some rows → (node height : ℕ)
        → ComesExactly (S.left source.old) result (ends.KeptBad node height)
        (λ input. AskReplay (map string_bytes words.now) × IsKeptBad rows input node height) }
    ensures kept_other { (rows : Rows) → K.rows keeper.old ≡ Some rows → (node : ℕ) (theirs ours : List ℕ)
        → ComesExactly (S.left source.old) result (ends.KeptOther node theirs ours)
        (λ input. AskReplay (map string_bytes words.now) × IsKeptOther rows input node theirs ours) }
    ensures usage { (rows : Rows) → K.rows keeper.old ≡ Some rows
        → ComesExactly (S.left source.old) result ends.Usage (λ _. asked (map string_bytes words.now) ≡ None) }

    // A fault of the outside is an answer only where the count of that object's faults rose.
    ensures read_fault { result ≡ ends.ReadFault → Rose (S.faults source.old) (S.faults source.new) }
    ensures write_fault { result ≡ ends.WriteFault → Rose (W.faults sink.old) (W.faults sink.new) }
    ensures keep_fault { result ≡ ends.KeepFault → Rose (K.faults keeper.old) (K.faults keeper.new) }

    // A fault ends the run: where it ends by none, no count rose, so no call that failed is passed over or tried again.
    ensures spared { is_fault result ≡ false → Spared (S.faults source.old) (S.faults source.new)
        (W.faults sink.old) (W.faults sink.new) (K.faults keeper.old) (K.faults keeper.new) }

    // A good scenario is answered whole, and a generated one is run or written whole, where no count rises, unless
    // memory is wanting.
    ensures complete { (rows : Rows) → K.rows keeper.old ≡ Some rows
        → HadSurely (S.left source.old) (AskGoodRun (map string_bytes words.now) rows)
        → ¬ Rose (S.faults source.old) (S.faults source.new) → ¬ Rose (W.faults sink.old) (W.faults sink.new)
        → ¬ Rose (K.faults keeper.old) (K.faults keeper.new)
        → IsWhole (transcript (map string_bytes words.now) rows) (S.left source.old)
        (W.written sink.old) (W.written sink.new) (K.rows keeper.new) result }

    // Where the words do not ask for a replay, the same holds over any keeper, one that does not tell its rows too.
    ensures own { ¬ AskReplay (map string_bytes words.now) → (rows : Rows)
        → IsRunOf (transcript (map string_bytes words.now) rows) (S.left source.old)
        (W.written sink.old) (W.written sink.new) (Some rows) result }
    ensures own_good { ¬ AskReplay (map string_bytes words.now) → (rows : Rows)
        → ComesExactly (S.left source.old) result ends.Done (AskGoodRun (map string_bytes words.now) rows) }
    ensures own_usage { ¬ AskReplay (map string_bytes words.now)
        → ComesExactly (S.left source.old) result ends.Usage (λ _. asked (map string_bytes words.now) ≡ None) }
    ensures own_whole { ¬ AskReplay (map string_bytes words.now) → (rows : Rows)
        → HadSurely (S.left source.old) (AskGoodRun (map string_bytes words.now) rows)
        → ¬ Rose (S.faults source.old) (S.faults source.new) → ¬ Rose (W.faults sink.old) (W.faults sink.new)
        → ¬ Rose (K.faults keeper.old) (K.faults keeper.new)
        → IsWhole (transcript (map string_bytes words.now) rows) (S.left source.old)
        (W.written sink.old) (W.written sink.new) (Some rows) result }
{
    obey(alloc, words, source, sink, keeper)
}
