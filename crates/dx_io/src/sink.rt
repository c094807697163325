ghost use Rattle.std.specs.Prelude.{ℕ, List};
ghost use Rattle.std.specs.declared.option.Option.{Option};
ghost use Rattle.std.specs.Io.{WritesAtMost};
ghost use Rattle.std.specs.Io.KnownBytes.{WriteAppends};
ghost use Rattle.dx_io.specs.Causes.{WriteCause, WriteKeepsCount};

use thiserror::Error;

/// Why a write to the outside did not happen.
#[derive(Clone, Copy, Debug, PartialEq, Eq, Error)]
pub enum SinkError {
    /// The outside did not take the bytes.
    #[error("a write to the outside failed")]
    Failed,
    /// There was no memory to hold the bytes.
    #[error("out of memory")]
    NoMemory,
}

/// A sink of bytes. Contracts tell by `written` which bytes a call appended, and by `faults` why it failed.
pub trait Sink {
    /// The bytes that have been written, where the sink tells them.
    ghost written: { Self → Option (List ℕ) };

    /// The count of faults, below 2^64. It never falls, a write answers `Failed` only where it rose, and a
    /// good answer leaves it, but for 0 to a piece that is not empty.
    ghost faults: { Self → ℕ };

    /// Appends bytes from the front of `piece`, and answers how many. The answer 0 for a piece
    /// that is not empty is a fault, and raises the count.
    ///
    /// # Errors
    ///
    /// `Failed` comes only where the count of faults rose. `NoMemory` comes where the sink wants
    /// memory. After either nothing is appended.
    fn write(&mut self, piece: &[u8]) -> Result<usize, SinkError>
        ensures bound { WritesAtMost result piece.now }
        ensures bytes { WriteAppends (written self.old) (written self.new) result piece.now }
        ensures cause { WriteCause (faults self.old) (faults self.new) piece.now result }
        ensures good { WriteKeepsCount (faults self.old) (faults self.new) piece.now result };
}
