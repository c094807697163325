//! Why a block is not applied.

ghost use Rattle.std.specs.Prelude.{◌≡◌};

use dx_types::{Bad, NoMemory};
use thiserror::Error;

/// Why a block, or a part of it, is not applied.
#[derive(Clone, Copy, Debug, PartialEq, Eq, Error)]
pub enum BlockFault {
    /// The first bad part of the block.
    #[error("a bad part")]
    Bad(Bad),
    /// There was no memory.
    #[error("no memory for the block")]
    NoMemory,
}

impl From<NoMemory> for BlockFault {
    ghost use Rattle.dx_operations.specs.declared.faults.BlockFault.TheVariants as faults;

    ghost from_gives = { λ _ e. e ≡ faults.NoMemory };

    fn from(_refused: NoMemory) -> BlockFault {
        BlockFault::NoMemory
    }
}
