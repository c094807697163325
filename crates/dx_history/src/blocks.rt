//! One block as a row, and back.

ghost use Rattle.std.specs.Prelude.{◌≡◌, ◌≢◌, ◌≤◌, Some, Err, IfOk, IsErrOf, OnOk, OnErr, option_map};
ghost use Rattle.dx_types.specs.declared.Block.{Block as Content};
ghost use Rattle.dx_io.specs.Causes.{KeepsCount, Rose};
ghost use Rattle.dx_io.specs.Rows.{Rows, SameRows, SetsRow};
ghost use Rattle.dx_codec.specs.Blocks.{block_bytes, FitsBlock};
ghost use Rattle.dx_codec.specs.Reading.{Reads};
ghost use Rattle.dx_history.specs.declared.fault.HistoryFault.TheVariants.{Failed, Bad};
ghost use Rattle.dx_history.specs.Rows.{place_of, IsRowOf, Keeps, block_in, block_of, block_at, Tells};

use crate::fault::HistoryFault;
use dx_codec::{CodecFault, decode_block, encode_block};
use dx_io::{KeepError, Keeper};
use dx_types::Block;
use std::alloc::Global;

/// Sets the row of a node at the block's height to the block's bytes, and leaves all other rows. All memory
/// for the bytes is taken before the keeper is called. A block whose row is set is the one of its bytes.
///
/// # Errors
/// `Failed` only where the keeper's count of faults rose, and `NoMemory` where there is none for the bytes or
/// for the row. After either the rows are as before. A good answer leaves the count.
#[tactic(auto, using(crate::proofs::Reading::same_rows))]
pub fn keep_block<K: Keeper>(keeper: &mut K, node: u32, block: &Block) -> Result<(), KeepError>
    ensures set { OnOk result (SetsRow (K.rows keeper.old) (K.rows keeper.new)
        (place_of node block.now.height) (block_bytes block.now)) }
    ensures fits { OnOk result (FitsBlock block.now) }
    ensures err { OnErr result (SameRows (K.rows keeper.old) (K.rows keeper.new)) }
    ensures good { KeepsCount (K.faults keeper.old) (K.faults keeper.new) result }
    ensures later { K.faults keeper.old ≤ K.faults keeper.new }
    ensures failed { IsErrOf result KeepError.Failed → Rose (K.faults keeper.old) (K.faults keeper.new) }
{
    let bytes = encode_block(block.ops.allocator(), block)?;
    keeper.put(node, block.height, bytes.as_slice())
}

/// The block that has these bytes.
fn read_bytes(alloc: Global, bytes: &[u8]) -> Result<Block, CodecFault>
    ensures found { IfOk result (λ b. FitsBlock b × (bytes.now ≡ block_bytes b)) }
    ensures told { Reads (λ b. b) result (block_in bytes.now) }
{
    decode_block(alloc, bytes)
}

/// The block that a row is the bytes of, if it is there.
fn read_row(row: Option<Vec<u8>>) -> Result<Block, HistoryFault>
    ensures found { IfOk result (IsRowOf (option_map (λ bytes. bytes.items) row)) }
    ensures told { Tells result (block_of (option_map (λ bytes. bytes.items) row)) }
    ensures sure { result ≢ Err Failed }
{
    let Some(bytes) = row else {
        return Err(HistoryFault::Bad);
    };
    Ok(read_bytes(*bytes.allocator(), bytes.as_slice())?)
}

/// The block that is kept for a node at a height: the one whose bytes the row there is. The rows stay as they
/// are.
///
/// # Errors
/// `Bad`, where the keeper answered, exactly where the row is missing or no block has its bytes: where a block
/// is kept the answer is not `Bad`, and where none is there is no good answer. `Failed` only where the keeper's
/// count of faults rose, and `NoMemory` where there is none for the row or the block. A good answer and `Bad` leave
/// the count.
pub fn kept_block<K: Keeper>(keeper: &mut K, node: u32, height: u32) -> Result<Block, HistoryFault>
    ensures found { (rows : Rows) → K.rows keeper.old ≡ Some rows → IfOk result (Keeps rows node height) }
    ensures only { (rows : Rows) → K.rows keeper.old ≡ Some rows →
        (b : Content) → Keeps rows node height b → IfOk result (λ kept. kept ≡ b) }
    ensures bad { (rows : Rows) → K.rows keeper.old ≡ Some rows →
        IsErrOf result Bad → (b : Content) → Keeps rows node height b → ⊥ }
    ensures told { (rows : Rows) → K.rows keeper.old ≡ Some rows → Tells result (block_at rows node height) }
    ensures kept { SameRows (K.rows keeper.old) (K.rows keeper.new) }
    ensures good { KeepsCount (K.faults keeper.old) (K.faults keeper.new) result }
    ensures still { IsErrOf result Bad → K.faults keeper.new ≡ K.faults keeper.old }
    ensures later { K.faults keeper.old ≤ K.faults keeper.new }
    ensures failed { IsErrOf result Failed → Rose (K.faults keeper.old) (K.faults keeper.new) }
{
    let row = keeper.get(node, height)?;
    read_row(row)
}
