ghost use Rattle.std.specs.Prelude.{◌≡◌, ℕ, IfOk, OnOk, OnErr, option_map};
ghost use Rattle.std.specs.declared.option.Option.{Option};

use dx_types::NoMemory;
use std::alloc::AllocError;
use thiserror::Error;

/// Why a keeper did not do what it was asked for.
#[derive(Clone, Copy, Debug, PartialEq, Eq, Error)]
pub enum KeepError {
    /// The outside did not keep, or did not give, the row.
    #[error("a call of the keeper failed")]
    Failed,
    /// There was no memory to hold a row.
    #[error("out of memory")]
    NoMemory,
}

impl From<NoMemory> for KeepError {
    ghost use Rattle.dx_io.specs.declared.keeper.KeepError.TheVariants as keep;

    ghost from_gives = { λ _ error. error ≡ keep.NoMemory };

    fn from(_wanting: NoMemory) -> KeepError {
        KeepError::NoMemory
    }
}

impl From<AllocError> for KeepError {
    ghost use Rattle.dx_io.specs.declared.keeper.KeepError.TheVariants as keep;

    ghost from_gives = { λ _ error. error ≡ keep.NoMemory };

    fn from(_wanting: AllocError) -> KeepError {
        KeepError::NoMemory
    }
}

/// Where rows of bytes are kept, by node and height.
///
/// # Errors
///
/// Of each call: `Failed` comes only where the count of faults rose. `NoMemory` comes where there
/// is no memory for a row. After either the rows are as before.
pub trait Keeper {
    ghost use Rattle.dx_io.specs.Causes.{KeepCause, KeepsCount};
    ghost use Rattle.dx_io.specs.Rows.{Rows, SameRows, SetsRow, FindsRow, CountsRows};

    // The rows, where the keeper tells them.
    ghost rows: { Self → Option Rows };

    // How many faults there have been. A good answer leaves the count.
    ghost faults: { Self → ℕ };

    /// Sets one row, and leaves all others.
    fn put(&mut self, node: u32, height: u32, bytes: &[u8]) -> Result<(), KeepError>
        ensures set { OnOk result (SetsRow (rows self.old) (rows self.new)
            (record { node = node; height = height }) bytes.now) }
        ensures err { OnErr result (SameRows (rows self.old) (rows self.new)) }
        ensures cause { KeepCause (faults self.old) (faults self.new) result }
        ensures good { KeepsCount (faults self.old) (faults self.new) result };

    /// The bytes of a row, if it is there. The rows stay as they are.
    fn get(&mut self, node: u32, height: u32) -> Result<Option<Vec<u8>>, KeepError>
        ensures found { IfOk result (λ row. FindsRow (rows self.old)
            (record { node = node; height = height }) (option_map (λ bytes. bytes.items) row)) }
        ensures kept { SameRows (rows self.old) (rows self.new) }
        ensures cause { KeepCause (faults self.old) (faults self.new) result }
        ensures good { KeepsCount (faults self.old) (faults self.new) result };

    /// How many rows a node has, or `u32::MAX` where there are more. The rows stay as they are.
    fn count(&mut self, node: u32) -> Result<u32, KeepError>
        ensures count { IfOk result (λ n. CountsRows (rows self.old) node n) }
        ensures kept { SameRows (rows self.old) (rows self.new) }
        ensures cause { KeepCause (faults self.old) (faults self.new) result }
        ensures good { KeepsCount (faults self.old) (faults self.new) result };
}
