ghost use Rattle.std.specs.Prelude.{◌≡◌, Some, None};

use dx_types::NoMemory;
use thiserror::Error;

/// Why a queue takes no operations.
#[derive(Clone, Copy, Debug, PartialEq, Eq, Error)]
pub enum QueueFault {
    /// The queue would pass its limits: 1,024 operations, or 4,096 fills and offsets together
    /// ("Limits" in docs/RULES.md).
    #[error("the queue is full")]
    Full,
    /// There was no memory.
    #[error("out of memory")]
    NoMemory,
}

impl QueueFault {
    /// The number of the refusal, if it has one: `Full` is 1, and want of memory has none.
    pub fn number(&self) -> Option<u32>
        ensures refused { self.now ≡ QueueFault.Full → result ≡ Some 1 }
        ensures memory { self.now ≡ QueueFault.NoMemory → result ≡ None }
    {
        match self {
            QueueFault::Full => Some(1),
            QueueFault::NoMemory => None,
        }
    }
}

impl From<NoMemory> for QueueFault {
    ghost use Rattle.std.specs.Prelude.{◌≡◌};
    ghost use Rattle.dx_queue.specs.declared.fault.QueueFault.TheVariants.{NoMemory as MemoryFault};

    ghost from_gives = { λ _ fault. fault ≡ MemoryFault };

    fn from(_refused: NoMemory) -> QueueFault {
        QueueFault::NoMemory
    }
}
