use dx_maps::MapKey;

/// The place of a row: its node, and its height at the node. Rows are ordered by both.
#[derive(Clone, Copy, Debug, PartialEq, Eq, PartialOrd, Ord)]
pub struct RowKey {
    /// The number of the node.
    pub node: u32,
    /// The height of a kept block; height 0 has a row of its own.
    pub height: u32,
}

impl MapKey for RowKey {
    ghost use Rattle.dx_io.specs.RowKeys.{row_exact};

    ghost exact = { row_exact };
}
