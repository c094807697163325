use dx_types::NoMemory;
use thiserror::Error;

/// Why nothing is taken.
#[derive(Clone, Copy, Debug, PartialEq, Eq, Error)]
pub enum TakeFault {
    /// The queue would pass its limits: 1,024 operations, or 4,096 fills and offsets together
    /// ("Limits" in docs/RULES.md).
    #[error("the queue is full")]
    Full,
    /// There was no memory.
    #[error("out of memory")]
    NoMemory,
}

impl From<NoMemory> for TakeFault {
    ghost use Rattle.std.specs.Prelude.{◌≡◌};
    ghost use Rattle.dx_match.specs.declared.faults.TakeFault.TheVariants.{NoMemory as MemoryFault};

    ghost from_gives = { λ _ fault. fault ≡ MemoryFault };

    fn from(_refused: NoMemory) -> TakeFault {
        TakeFault::NoMemory
    }
}
