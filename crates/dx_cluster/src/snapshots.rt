//! How a node's committed state is kept as a snapshot, and how a node starts from one.

ghost use Rattle.std.specs.Prelude.{◌≡◌, ◌<◌, ◌≤◌, Some, IfOk, IfErr, OnOk, OnErr, IsErrOf};
ghost use Rattle.dx_io.specs.Causes.{KeepsCount, Rose};
ghost use Rattle.dx_io.specs.Rows.{Rows, SameRows, SetsRow};
ghost use Rattle.dx_codec.specs.Building.{IsStateOf};
ghost use Rattle.dx_codec.specs.States.{FitsNames};
ghost use Rattle.dx_snapshot.specs.Snapshots.{snapshot_place, snapshot_bytes};
ghost use Rattle.dx_node_spec.specs.Node.{Node as PlainNode, committed as committed_of};
ghost use Rattle.dx_node.specs.Standing.{StandsFor};
ghost use Rattle.dx_node.specs.Resumes.{resumable};
ghost use Rattle.dx_cluster.specs.Acts.{height_of, tell_digest};
ghost use Rattle.dx_cluster.specs.Counts.{StartLeaves};
ghost use Rattle.dx_cluster.specs.Snapshots.{resumed_by, resume_node};
ghost use Rattle.dx_cluster.specs.Starts.{AnswersUnread, AnswersUnresumed, keeper_fault, GivesTurn, StandsForOne, TurnRefused};
ghost use Rattle.dx_cluster.specs.World.{IsIdle, IsOutside};

use crate::acts::place_list_again;
use crate::fault::StartFault;
use dx_io::{KeepError, Keeper};
use dx_node::{Node, ResumeFault};
use dx_print::Answer;
use dx_snapshot::{SnapFault, keep_snapshot, read_snapshot};
use dx_state::PlainState;

/// The number of a snapshot whose digest is wrong.
const BAD_DIGEST: u32 = 1;

/// The number of one that has no state of the genesis.
const NO_STATE: u32 = 2;

/// The number of one whose state has another height.
const OTHER_HEIGHT: u32 = 3;

/// The number of one that is ahead of the node's rows.
const AHEAD: u32 = 4;

/// Why a snapshot is not kept.
fn unkept(error: KeepError) -> StartFault
    ensures value { result ≡ keeper_fault error }
    ensures outside { IsOutside result }
{
    match error {
        KeepError::Failed => StartFault::KeepFault,
        KeepError::NoMemory => StartFault::NoMemory,
    }
}

/// Keeps a node's committed state as the snapshot of a number, and tells its digest.
pub(crate) fn snap_node<K: Keeper>(
    node: &Node,
    number: u32,
    keeper: &mut K,
) -> Result<Answer, StartFault>
    requires { number < 16 }
    ensures done { IfOk result (λ answer. (p : PlainNode) → StandsFor node.now p → answer ≡ (tell_digest p).1) }
    ensures row { OnOk result ((p : PlainNode) → StandsFor node.now p
        → SetsRow (K.rows keeper.old) (K.rows keeper.new)
        (snapshot_place number (height_of p)) (snapshot_bytes (committed_of p))) }
    ensures fits { OnOk result ((p : PlainNode) → StandsFor node.now p → FitsNames (committed_of p)) }
    ensures outside { IfErr result IsOutside }
    ensures rows { OnErr result (SameRows (K.rows keeper.old) (K.rows keeper.new)) }
    ensures good { KeepsCount (K.faults keeper.old) (K.faults keeper.new) result }
    ensures later { K.faults keeper.old ≤ K.faults keeper.new }
    ensures failed { IsErrOf result StartFault.KeepFault → Rose (K.faults keeper.old) (K.faults keeper.new) }
{
    let state = node.committed_copy()?;
    match keep_snapshot(keeper, number, &state) {
        Ok(digest) => Ok(Answer::Digest {
            height: node.height(),
            digest,
        }),
        Err(error) => Err(unkept(error)),
    }
}

/// The answer to a row that gives no snapshot; none is there where the keeper failed or there was no memory.
fn unread(fault: SnapFault) -> Result<Answer, StartFault>
    ensures { AnswersUnread fault result }
{
    match fault {
        SnapFault::Digest => Ok(Answer::BadSnapshot { number: BAD_DIGEST }),
        SnapFault::Malformed => Ok(Answer::BadSnapshot { number: NO_STATE }),
        SnapFault::OtherHeight { .. } => Ok(Answer::BadSnapshot {
            number: OTHER_HEIGHT,
        }),
        SnapFault::Failed => Err(StartFault::KeepFault),
        SnapFault::NoMemory => Err(StartFault::NoMemory),
    }
}

/// The answer to a state from which a node of a number does not resume, or why the run ends.
fn unresumed(node: u32, fault: ResumeFault) -> Result<Answer, StartFault>
    ensures { AnswersUnresumed node fault result }
{
    match fault {
        ResumeFault::Ahead { .. } => Ok(Answer::BadSnapshot { number: AHEAD }),
        ResumeFault::KeptBad { height } => Err(StartFault::KeptBad { node, height }),
        ResumeFault::KeptOther { kept, ours } => Err(StartFault::KeptOther { node, kept, ours }),
        ResumeFault::KeepFault => Err(StartFault::KeepFault),
        ResumeFault::NoMemory => Err(StartFault::NoMemory),
    }
}

/// A node of a number goes on from a state and the rows above it, and places its orders again. The answer has the
/// height that it reaches, or says that the state is ahead of the rows.
fn go_on<K: Keeper>(
    node: &mut Node,
    number: u32,
    state: PlainState,
    keeper: &mut K,
) -> Result<Answer, StartFault>
    requires { IsStateOf node.old.committed.genesis state }
    ensures done { IfOk result (λ answer. (p : PlainNode) → StandsFor node.old p → p.number ≡ number
        → (rows : Rows) → K.rows keeper.old ≡ Some rows
        → GivesTurn node.new answer (resumed_by p state (resumable p.genesis state rows p.number))) }
    ensures stands { OnOk result ((p : PlainNode) → StandsFor node.old p → IsIdle p → StandsForOne node.new) }
    ensures rows { SameRows (K.rows keeper.old) (K.rows keeper.new) }
    ensures refused { IfErr result (λ fault. (p : PlainNode) → StandsFor node.old p → p.number ≡ number
        → (rows : Rows) → K.rows keeper.old ≡ Some rows
        → TurnRefused p (resumed_by p state (resumable p.genesis state rows p.number)) fault) }
    ensures good { KeepsCount (K.faults keeper.old) (K.faults keeper.new) result }
    ensures still { IfErr result (StartLeaves (K.faults keeper.old) (K.faults keeper.new)) }
    ensures later { K.faults keeper.old ≤ K.faults keeper.new }
    ensures failed { IsErrOf result StartFault.KeepFault → Rose (K.faults keeper.old) (K.faults keeper.new) }
{
    match node.resume(state, keeper) {
        Ok(height) => {
            place_list_again(node)?;
            Ok(Answer::Done(Some(height)))
        }
        Err(fault) => unresumed(number, fault),
    }
}

/// A node of a number starts again from its snapshot at a height and the rows above it, and places its orders again.
/// The answer has the height that it reaches, or says that there is no snapshot, or what is wrong with it.
pub(crate) fn resume_node<K: Keeper>(
    node: &mut Node,
    number: u32,
    height: u32,
    keeper: &mut K,
) -> Result<Answer, StartFault>
    requires { number < 16 }
    ensures done { IfOk result (λ answer. (p : PlainNode) → StandsFor node.old p → p.number ≡ number
        → (rows : Rows) → K.rows keeper.old ≡ Some rows
        → GivesTurn node.new answer (resume_node height rows p)) }
    ensures stands { OnOk result ((p : PlainNode) → StandsFor node.old p → IsIdle p → StandsForOne node.new) }
    ensures rows { SameRows (K.rows keeper.old) (K.rows keeper.new) }
    ensures refused { IfErr result (λ fault. (p : PlainNode) → StandsFor node.old p → p.number ≡ number
        → (rows : Rows) → K.rows keeper.old ≡ Some rows → TurnRefused p (resume_node height rows p) fault) }
    ensures good { KeepsCount (K.faults keeper.old) (K.faults keeper.new) result }
    ensures still { IfErr result (StartLeaves (K.faults keeper.old) (K.faults keeper.new)) }
    ensures later { K.faults keeper.old ≤ K.faults keeper.new }
    ensures failed { IsErrOf result StartFault.KeepFault → Rose (K.faults keeper.old) (K.faults keeper.new) }
{
    match read_snapshot(keeper, number, height, node.genesis()) {
        Ok(Some(state)) => go_on(node, number, state, keeper),
        Ok(None) => Ok(Answer::Absent),
        Err(fault) => unread(fault),
    }
}
