ghost use Rattle.std.specs.Prelude.{◌≡◌, ◌++◌, [], ◌∷◌, Some, Ok, length};
ghost use Rattle.std.specs.Io.{WritesAtMost};
ghost use Rattle.std.specs.Io.KnownBytes.{WriteAppends};
ghost use Rattle.sha2.specs.Sha256.{sha256};
ghost use Rattle.dx_io.specs.Causes.{WriteCause, WriteKeepsCount};
ghost use Rattle.dx_streams.specs.Written.{bytes_of};

use crate::history::History;
use dx_io::{Sink, SinkError};
use sha2::{Digest, Sha256};
use std::marker::Model;
use std::snapshot::Snapshot;

/// A sink that keeps the digest of what is written to it, and none of the bytes before the last. Contracts
/// see the bytes written, which proofs read of `history`.
#[derive(Drop)]
pub struct HashSink {
    hasher: Sha256,
    history: History,
}

impl Model for HashSink {
    ghost use Rattle.std.specs.Prelude.{ℕ, List};
    ghost use Rattle.sha2.specs.Hashers.{Holds256};
    ghost use Rattle.dx_streams.specs.Written.{bytes_of};

    ghost Value = { List ℕ };

    ghost view = { λ s. bytes_of s.history };

    ghost invariant = { λ s. Holds256 s.hasher (bytes_of s.history) };
}

fn note_byte(history: &mut History, byte: u8)
    ensures { bytes_of history.new ≡ bytes_of history.old ++ byte ∷ [] }
{
    *history = History::Then(Snapshot::of(history), byte);
}

/// Notes that a piece was written.
fn note(history: &mut History, piece: &[u8])
    ensures { bytes_of history.new ≡ bytes_of history.old ++ piece.now }
{
    for byte in piece {
        note_byte(history, *byte);
    }
}

impl HashSink {
    /// A sink to which nothing has been written. It takes no memory, also not as it is written to.
    pub fn new() -> HashSink
        ensures empty { result ≡ [] }
        ensures written { ⟦<HashSink as Sink>⟧.written result ≡ Some [] }
        ensures faults { ⟦<HashSink as Sink>⟧.faults result ≡ 0 }
    {
        HashSink {
            hasher: Sha256::new(),
            history: History::Nothing,
        }
    }

    /// The SHA-256 of what has been written.
    pub fn digest(self) -> [u8; 32]
        ensures { result ≡ sha256 self }
    {
        self.hasher.finalize()
    }
}

impl Sink for HashSink {
    ghost written = { λ s. Some s };

    ghost faults = { λ _. 0 };

    fn write(&mut self, piece: &[u8]) -> Result<usize, SinkError>
        ensures bound { WritesAtMost result piece.now }
        ensures bytes { WriteAppends (Some self.old) (Some self.new) result piece.now }
        ensures cause { WriteCause 0 0 piece.now result }
        ensures good { WriteKeepsCount 0 0 piece.now result }

        // It takes the whole piece, and is never refused.
        ensures count { result ≡ Ok (length piece.now) }
    {
        note(&mut self.history, piece);
        self.hasher.update(piece);
        Ok(piece.len())
    }
}
