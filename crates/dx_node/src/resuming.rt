//! From what a node resumes behind a state.

ghost use Rattle.std.specs.Prelude.{◌≡◌, ◌+◌, ◌<◌, ◌≤◌, Some, None, IfOk, IfErr, IsErrOf};
ghost use Rattle.std.specs.FinMap.{values};
ghost use Rattle.dx_io.specs.Causes.{KeepsCount, Rose};
ghost use Rattle.dx_io.specs.Rows.{Rows, SameRows};
ghost use Rattle.dx_rules.specs.Settled.{IsSettled};
ghost use Rattle.dx_work.specs.Lines.{committed, present, aside_of};
ghost use Rattle.dx_node.specs.Starts.{IsUnkept, OnlyReads};
ghost use Rattle.dx_node.specs.Resumes.{chain_above, resumable, resume_fault, IsUnresumed, Continues, AreAbove, AreResumable};
ghost use Rattle.dx_node.specs.Counts.{RestartLeaves, ResumeLeaves};

use crate::faults::{RestartFault, ResumeFault};
use crate::restarting::{Start, check_first, start_behind};
use dx_codec::genesis_digest;
use dx_io::Keeper;
use dx_ledger::Ledger;
use dx_state::PlainState;
use std::alloc::Global;

/// Why a node does not resume where a row is none of a chain.
fn no_chain(fault: RestartFault) -> ResumeFault
    ensures { result ≡ resume_fault fault }
{
    match fault {
        RestartFault::KeptBad { height } => ResumeFault::KeptBad { height },
        RestartFault::KeptOther { kept, ours } => ResumeFault::KeptOther { kept, ours },
        RestartFault::KeepFault => ResumeFault::KeepFault,
        RestartFault::NoMemory => ResumeFault::NoMemory,
    }
}

/// The height behind that of a state.
fn next_height(s: &PlainState, count: u32) -> u32
    requires { s.now.clock.height < count }
    ensures next { result ≡ s.now.clock.height + 1 }
    ensures within { result ≤ count }
{
    s.clock().height + 1
}

/// Reads the row of a node at height 0, and those above a state and below a count, by rising height, and applies their
/// blocks to the state.
///
/// `KeptOther` and `KeptBad` by the first row that is none of a chain. `KeepFault` only where the keeper's count of
/// faults rose, and `NoMemory` where there is none.
fn go_on_above<K: Keeper>(
    alloc: Global,
    keeper: &mut K,
    number: u32,
    count: u32,
    state: PlainState,
) -> Result<Start, RestartFault>
    requires settled { IsSettled state }
    requires above { state.clock.height < count }
    ensures leads { IfOk result (λ start.
        Continues state (AreAbove (K.rows keeper.old) state.genesis state number count) (committed start.work)) }
    ensures settled { IfOk result (λ start. IsSettled (committed start.work)) }
    ensures speculative { IfOk result (λ start. present start.work ≡ committed start.work) }
    ensures nothing { IfOk result (λ start. aside_of start.work ≡ None) }
    ensures again { IfOk result (λ start. start.again ≡ values (committed start.work).stateful) }
    ensures refused { (rows : Rows) → K.rows keeper.old ≡ Some rows →
        IfErr result (IsUnkept state.genesis (chain_above state.genesis state rows number count)) }
    ensures read { OnlyReads (K.rows keeper.old) (K.rows keeper.new)
        (K.faults keeper.old) (K.faults keeper.new) result }
    ensures good { KeepsCount (K.faults keeper.old) (K.faults keeper.new) result }
    ensures still { IfErr result (RestartLeaves (K.faults keeper.old) (K.faults keeper.new)) }
{
    let first = next_height(&state, count);
    let ours = genesis_digest(alloc, state.genesis())?;
    check_first(keeper, number, &ours)?;
    start_behind(alloc, keeper, number, first, count, state)
}

/// Counts the rows of a node, reads its row at height 0 and those above a state by rising height, and applies their
/// blocks to the state.
///
/// `Ahead` exactly where the state's height is not below the count; `KeptOther` and `KeptBad` by the first row that is
/// none of a chain. `KeepFault` only where the keeper's count of faults rose, and `NoMemory` where there is none. The
/// rows are as before at each end.
pub(crate) fn resume_from<K: Keeper>(
    alloc: Global,
    keeper: &mut K,
    number: u32,
    state: PlainState,
) -> Result<Start, ResumeFault>
    requires { IsSettled state }
    ensures leads { IfOk result (λ start.
        Continues state (AreResumable (K.rows keeper.old) state.genesis state number) (committed start.work)) }
    ensures settled { IfOk result (λ start. IsSettled (committed start.work)) }
    ensures speculative { IfOk result (λ start. present start.work ≡ committed start.work) }
    ensures nothing { IfOk result (λ start. aside_of start.work ≡ None) }
    ensures again { IfOk result (λ start. start.again ≡ values (committed start.work).stateful) }
    ensures refused { (rows : Rows) → K.rows keeper.old ≡ Some rows →
        IfErr result (IsUnresumed state.genesis (resumable state.genesis state rows number)) }
    ensures rows { SameRows (K.rows keeper.old) (K.rows keeper.new) }
    ensures good { KeepsCount (K.faults keeper.old) (K.faults keeper.new) result }
    ensures still { IfErr result (ResumeLeaves (K.faults keeper.old) (K.faults keeper.new)) }
    ensures later { K.faults keeper.old ≤ K.faults keeper.new }
    ensures failed { IsErrOf result ResumeFault.KeepFault → Rose (K.faults keeper.old) (K.faults keeper.new) }
{
    let rows = keeper.count(number)?;
    if rows <= state.clock().height {
        return Err(ResumeFault::Ahead { rows });
    }
    match go_on_above(alloc, keeper, number, rows, state) {
        Ok(start) => Ok(start),
        Err(fault) => Err(no_chain(fault)),
    }
}
