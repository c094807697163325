//! Why the nodes are not started, or an event is not answered.

ghost use Rattle.std.specs.Prelude.{◌≡◌};

use dx_types::NoMemory;
use std::alloc::AllocFailed;
use thiserror::Error;

/// Why nodes are not started, or an event is not answered ("Statuses" in docs/FORMAT.md).
#[derive(Clone, Copy, Debug, PartialEq, Eq, Error)]
pub enum StartFault {
    /// A row of a node is missing, is no block, or is a block that is not good behind those before it.
    #[error("stored row {height} of node {node} is missing, malformed or invalid")]
    KeptBad {
        /// The first such node.
        node: u32,
        /// The height of its first such row.
        height: u32,
    },
    /// The rows of a node are those of another genesis.
    #[error("the stored rows of node {node} belong to another genesis")]
    KeptOther {
        /// The first such node.
        node: u32,
        /// The digest of the genesis that is kept.
        kept: [u8; 32],
        /// The digest of the genesis of this run.
        ours: [u8; 32],
    },
    /// A call of the keeper failed. It comes only where the keeper's count of faults rose.
    #[error("the keeper failed")]
    KeepFault,
    /// There was no memory.
    #[error("out of memory")]
    NoMemory,
}

impl From<NoMemory> for StartFault {
    ghost use Rattle.dx_cluster.specs.declared.fault.StartFault.TheVariants as starts;

    ghost from_gives = { λ _ fault. fault ≡ starts.NoMemory };

    fn from(_refused: NoMemory) -> StartFault {
        StartFault::NoMemory
    }
}

impl<T: Drop> From<AllocFailed<T>> for StartFault {
    ghost use Rattle.dx_cluster.specs.declared.fault.StartFault.TheVariants as starts;

    ghost from_gives = { λ _ fault. fault ≡ starts.NoMemory };

    fn from(_refused: AllocFailed<T>) -> StartFault {
        StartFault::NoMemory
    }
}
