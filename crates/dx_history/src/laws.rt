//! The laws of the rows of a chain.

ghost use Rattle.std.specs.Prelude.{◌≡◌, ℕ, ◌+◌, ◌==◌, false, Ok, List, [], ◌∷◌, ◌++◌, length};
ghost use Rattle.std.specs.FinMap as map;
ghost use Rattle.dx_types.specs.declared.Block.{Block};
ghost use Rattle.dx_types.specs.declared.Genesis.{Genesis};
ghost use Rattle.dx_spec.specs.State.{State};
ghost use Rattle.dx_spec.specs.Blocks.{Applied, fold_blocks, block_step};
ghost use Rattle.dx_io.specs.Rows.{Rows};
ghost use Rattle.dx_codec.specs.Blocks.{block_bytes, FitsBlock};
ghost use Rattle.dx_history.specs.Rows.{place_of};
ghost use Rattle.dx_history.specs.Chains.{AreRowsOf, IsChain, begun, kept};

/// The law of one more row: where the rows of a node are just those of a chain and a block is set at the next
/// height, they are just those of the chain with that block; and the rows of every other node stay those of
/// its own chain.
pub fn rows_grow()
    ensures grown { (rows : Rows) (node : ℕ) (g : Genesis) (bs : List Block) (b : Block) →
        AreRowsOf rows node g bs → b.height ≡ length bs + 1 →
        AreRowsOf (map.insert rows (place_of node b.height) (block_bytes b)) node g (bs ++ b ∷ []) }
    ensures apart { (rows : Rows) (node other height : ℕ) (bytes : List ℕ) (g : Genesis) (bs : List Block) →
        (other == node) ≡ false → AreRowsOf rows other g bs →
        AreRowsOf (map.insert rows (place_of node height) bytes) other g bs }
{}

/// The law of reading a chain: rows of a node that are just those of a chain are read as that chain.
pub fn chain_is_kept()
    ensures { (rows : Rows) (node : ℕ) (g : Genesis) (bs : List Block) →
        IsChain rows node g bs → kept g rows node ≡ Ok bs }
{}

/// The law of a start: where the rows of a node are read as a chain, behind a start they are just those of that
/// chain, also where there were none.
pub fn kept_is_chain()
    ensures { (rows : Rows) (node : ℕ) (g : Genesis) (bs : List Block) →
        kept g rows node ≡ Ok bs → IsChain (begun rows node g) node g bs }
{}

/// The law of a commit: a block that is good behind a chain, set at its height, makes the node's rows just those of
/// the longer chain.
pub fn chain_grows()
    ensures { (rows : Rows) (node : ℕ) (g : Genesis) (bs : List Block) (s : State) (b : Block) (r : Applied) →
        IsChain rows node g bs → fold_blocks g bs ≡ Ok s → block_step s b ≡ Ok r → FitsBlock b →
        IsChain (map.insert rows (place_of node b.height) (block_bytes b)) node g (bs ++ b ∷ []) }
{}

/// The law of other nodes: whatever row of a node is set, those of another one stay a chain, and are read as before.
pub fn others_stay()
    ensures chain { (rows : Rows) (node other height : ℕ) (bytes : List ℕ) (g : Genesis) (bs : List Block) →
        (other == node) ≡ false → IsChain rows other g bs →
        IsChain (map.insert rows (place_of node height) bytes) other g bs }
    ensures kept { (rows : Rows) (node other height : ℕ) (bytes : List ℕ) (g : Genesis) →
        (other == node) ≡ false → kept g (map.insert rows (place_of node height) bytes) other ≡ kept g rows other }
{}
