use std::snapshot::Snapshot;

/// The bytes that were written to a sink, for proofs alone: at run time it is no more than the last byte.
#[derive(Drop)]
pub(crate) enum History {
    /// Nothing was written.
    Nothing,
    /// This byte was written behind those of the snapshot.
    Then(Snapshot<History>, u8),
}
