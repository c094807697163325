//! Blocks that are kept and got back, rows that are missing or are no block's, and calls that fail.

use crate::{HistoryFault, keep_block, kept_block};
use dx_io::{KeepError, Keeper, MemKeeper, SureKeeper};
use dx_types::{Block, List, Msg, NoMemory, SubaccountId};
use std::alloc::Global;
use std::test::Fail;

/// A block of one deposit.
fn deposit(alloc: Global, height: u32) -> Result<Block, NoMemory> {
    let mut msgs = List::new(alloc);
    let who = SubaccountId {
        owner: 1,
        number: 0,
    };
    msgs.push(Msg::Deposit { who, amount: 5 })?;
    Ok(Block {
        height,
        time: height,
        ops: List::new(alloc),
        msgs,
        votes: List::new(alloc),
        prices: List::new(alloc),
    })
}

/// Whether just this block is kept at its height.
fn is_kept<K: Keeper>(keeper: &mut K, node: u32, block: &Block) -> bool {
    match kept_block(keeper, node, block.height) {
        Ok(kept) => kept == *block,
        Err(_) => false,
    }
}

/// Why no block is got.
fn fault<K: Keeper>(keeper: &mut K, node: u32, height: u32) -> Option<HistoryFault> {
    kept_block(keeper, node, height).err()
}

#[test]
fn blocks_are_rows(rt: HostRuntime) -> Result<(), Fail> {
    let alloc = rt.alloc();
    let block = deposit(alloc, 7)?;
    let mut sure = SureKeeper::new(alloc);
    assert_eq!(rt; keep_block(&mut sure, 1, &block), Ok(()));
    assert!(rt; is_kept(&mut sure, 1, &block));
    // the calls 6 and 8 of this keeper fail
    let mut listed = MemKeeper::new(alloc, [6, 8].to_vec(alloc)?);
    assert_eq!(rt; keep_block(&mut listed, 1, &block), Ok(()));
    assert!(rt; is_kept(&mut listed, 1, &block));
    // another node, and another height
    assert_eq!(rt; fault(&mut listed, 0, 7), Some(HistoryFault::Bad));
    assert_eq!(rt; fault(&mut listed, 1, 8), Some(HistoryFault::Bad));
    // a row that is no block's bytes
    assert_eq!(rt; listed.put(1, 8, b"\x01"), Ok(()));
    assert_eq!(rt; fault(&mut listed, 1, 8), Some(HistoryFault::Failed));
    assert_eq!(rt; fault(&mut listed, 1, 8), Some(HistoryFault::Bad));
    let later = deposit(alloc, 8)?;
    assert_eq!(rt; keep_block(&mut listed, 1, &later), Err(KeepError::Failed));
    assert_eq!(rt; fault(&mut listed, 1, 8), Some(HistoryFault::Bad));
    assert!(rt; is_kept(&mut listed, 1, &block));
    Ok(())
}
