//! Why blocks cannot be read back from the rows that a keeper has.

use dx_codec::CodecFault;
use dx_io::KeepError;
use thiserror::Error;

/// Why a row gives no block.
#[derive(Clone, Copy, Debug, PartialEq, Eq, Error)]
pub enum HistoryFault {
    /// The keeper did not give the row.
    #[error("a call of the keeper failed")]
    Failed,
    /// There is no row, or it is not the bytes of a block.
    #[error("no block is kept there")]
    Bad,
    /// There was no memory for the row, or for its block.
    #[error("out of memory")]
    NoMemory,
}

impl From<KeepError> for HistoryFault {
    ghost use Rattle.std.specs.Prelude.{◌≡◌};
    ghost use Rattle.dx_history.specs.Faults.{of_keeper};

    ghost from_gives = { λ error fault. fault ≡ of_keeper error };

    fn from(error: KeepError) -> HistoryFault {
        match error {
            KeepError::Failed => HistoryFault::Failed,
            KeepError::NoMemory => HistoryFault::NoMemory,
        }
    }
}

impl From<CodecFault> for HistoryFault {
    ghost use Rattle.std.specs.Prelude.{◌≡◌};
    ghost use Rattle.dx_history.specs.Faults.{of_codec};

    ghost from_gives = { λ error fault. fault ≡ of_codec error };

    fn from(error: CodecFault) -> HistoryFault {
        match error {
            CodecFault::Malformed => HistoryFault::Bad,
            CodecFault::NoMemory => HistoryFault::NoMemory,
        }
    }
}
