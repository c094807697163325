//! How a node starts from the rows that a keeper has of it.

ghost use Rattle.std.specs.Prelude.{◌≡◌, ◌≤◌, Some, IfOk, OnOk, IfErr, IsErrOf};
ghost use Rattle.dx_spec.specs.Genesis.{IsGenesis};
ghost use Rattle.dx_io.specs.Causes.{KeepsCount, Rose};
ghost use Rattle.dx_io.specs.Rows.{Rows};
ghost use Rattle.dx_node_spec.specs.Node.{Node as PlainNode, new_node};
ghost use Rattle.dx_node.specs.Standing.{StandsFor};
ghost use Rattle.dx_node.specs.Restarts.{BeginsRows};
ghost use Rattle.dx_cluster.specs.Counts.{StartLeaves};
ghost use Rattle.dx_cluster.specs.Starts.{fault_of, HasStarted, Starts, StartRefused};

use crate::acts::place_list_again;
use crate::fault::StartFault;
use dx_io::Keeper;
use dx_node::{Node, RestartFault};
use dx_types::Genesis;
use std::alloc::Global;

/// Why a node of a number does not start.
fn start_fault(node: u32, fault: RestartFault) -> StartFault
    ensures { result ≡ fault_of node fault }
{
    match fault {
        RestartFault::KeptBad { height } => StartFault::KeptBad { node, height },
        RestartFault::KeptOther { kept, ours } => StartFault::KeptOther { node, kept, ours },
        RestartFault::KeepFault => StartFault::KeepFault,
        RestartFault::NoMemory => StartFault::NoMemory,
    }
}

/// A node starts anew from the rows that a keeper has of it, and places its orders again. The answer is its height.
pub(crate) fn restart_node<K: Keeper>(node: &mut Node, keeper: &mut K) -> Result<u32, StartFault>
    ensures started { IfOk result (λ height. (p : PlainNode) → StandsFor node.old p
        → Starts (K.rows keeper.old) p node.new height) }
    ensures begun { OnOk result ((p : PlainNode) → StandsFor node.old p
        → BeginsRows (K.rows keeper.old) (K.rows keeper.new) p) }
    ensures refused { IfErr result (λ fault. (p : PlainNode) → StandsFor node.old p
        → (rows : Rows) → K.rows keeper.old ≡ Some rows → StartRefused rows p (K.rows keeper.new) fault) }
    ensures good { KeepsCount (K.faults keeper.old) (K.faults keeper.new) result }
    ensures still { IfErr result (StartLeaves (K.faults keeper.old) (K.faults keeper.new)) }
    ensures later { K.faults keeper.old ≤ K.faults keeper.new }
    ensures failed { IsErrOf result StartFault.KeepFault → Rose (K.faults keeper.old) (K.faults keeper.new) }
{
    match node.restart(keeper) {
        Ok(height) => {
            place_list_again(node)?;
            Ok(height)
        }
        Err(fault) => Err(start_fault(node.number(), fault)),
    }
}

/// A node of a number that starts from the rows that a keeper has of it, and has placed its orders again.
pub(crate) fn start_node<K: Keeper>(
    alloc: Global,
    genesis: &Genesis,
    number: u32,
    keeper: &mut K,
) -> Result<Node, StartFault>
    requires { IsGenesis genesis.now }
    ensures started { IfOk result (λ node. HasStarted (K.rows keeper.old) (new_node number genesis.now) node) }
    ensures begun { OnOk result (BeginsRows (K.rows keeper.old) (K.rows keeper.new) (new_node number genesis.now)) }
    ensures refused { IfErr result (λ fault. (rows : Rows) → K.rows keeper.old ≡ Some rows
        → StartRefused rows (new_node number genesis.now) (K.rows keeper.new) fault) }
    ensures good { KeepsCount (K.faults keeper.old) (K.faults keeper.new) result }
    ensures still { IfErr result (StartLeaves (K.faults keeper.old) (K.faults keeper.new)) }
    ensures later { K.faults keeper.old ≤ K.faults keeper.new }
    ensures failed { IsErrOf result StartFault.KeepFault → Rose (K.faults keeper.old) (K.faults keeper.new) }
{
    let mut node = Node::new(alloc, genesis, number)?;
    restart_node(&mut node, keeper)?;
    Ok(node)
}
