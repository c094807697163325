//! What is told of a proposal.

ghost use Rattle.std.specs.Prelude.{◌≡◌};
ghost use Rattle.dx_node.specs.Short.{IsShort};
ghost use Rattle.dx_cluster.specs.World.{proposed};

use dx_operations::fills_of;
use dx_print::Answer;
use dx_types::Block;

/// The height of a proposal, and how many operations, fills and offsets, messages, votes and prices it has.
#[tactic(auto, using(crate::proofs::Counts::few_operations, crate::proofs::Counts::few_fills))]
pub(crate) fn proposed(block: &Block) -> Answer
    requires { IsShort block.now }
    ensures { result ≡ proposed block.now }
{
    Answer::Proposed {
        height: block.height,
        ops: block.ops.len() as u32,
        fills: fills_of(block.ops.as_slice()) as u32,
        msgs: block.msgs.len() as u32,
        votes: block.votes.len() as u32,
        prices: block.prices.len() as u32,
    }
}
