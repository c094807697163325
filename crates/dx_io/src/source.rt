ghost use Rattle.std.specs.Prelude.{ℕ, ◌<◌, List, length, IfOk};
ghost use Rattle.std.specs.declared.option.Option.{Option};
ghost use Rattle.std.specs.Io.{ReadsAtMost};
ghost use Rattle.std.specs.Io.KnownBytes.{ReadConsumes};
ghost use Rattle.dx_io.specs.Causes.{ReadCause, KeepsCount};
ghost use Rattle.dx_io.specs.Streams.{TellsEnd};

use thiserror::Error;

/// A read from the outside failed. Nothing was read.
#[derive(Clone, Copy, Debug, PartialEq, Eq, Error)]
#[error("a read from the outside failed")]
pub struct Failed;

/// A source of bytes. Contracts tell by `left` which bytes a call read, and by `faults` why it failed.
pub trait Source {
    /// The bytes that have not been read yet, where the source tells them.
    ghost left: { Self → Option (List ℕ) };

    /// The count of faults, below 2^64. It never falls, a read fails only where it rose, and a good
    /// answer leaves it.
    ghost faults: { Self → ℕ };

    /// Reads into the front of `into`, and answers how many bytes. The answer 0 for a buffer that
    /// is not empty is the end of the input.
    ///
    /// # Errors
    ///
    /// `Failed` comes only where the count of faults rose, and reads nothing.
    fn read(&mut self, into: &mut [u8]) -> Result<usize, Failed>
        ensures bound { ReadsAtMost result into.new }
        ensures bytes { ReadConsumes (left self.old) (left self.new) result into.new }
        ensures end { IfOk result (λ n. 0 < length into.new → TellsEnd (left self.old) n) }
        ensures cause { ReadCause (faults self.old) (faults self.new) result }
        ensures good { KeepsCount (faults self.old) (faults self.new) result };
}
