//! From what a node starts anew.

ghost use Rattle.std.specs.Prelude.{◌≡◌, ◌≢◌, ℕ, ◌-◌, ◌≤◌, suc, Some, None, Ok, Err, OnOk, OnErr, IfOk, IfErr, IfSome, IsErrOf};
ghost use Rattle.std.specs.FinMap.{values, get};
ghost use Rattle.dx_types.specs.declared.Genesis.{Genesis as Beginning};
ghost use Rattle.dx_spec.specs.State.{genesis_state};
ghost use Rattle.dx_spec.specs.Genesis.{IsGenesis};
ghost use Rattle.dx_spec.specs.Blocks.{block_step};
ghost use Rattle.dx_operations.specs.Faults.{Refuses};
ghost use Rattle.dx_io.specs.Rows.{Rows, SameRows, SetsRow, row_count};
ghost use Rattle.dx_io.specs.Causes.{KeepsCount, Rose};
ghost use Rattle.dx_codec.specs.Genesis.{digest_of};
ghost use Rattle.dx_history.specs.Rows.{place_of};
ghost use Rattle.dx_history.specs.Chains.{Unkept, first_fault, first_of, kept_from, kept};
ghost use Rattle.dx_node.specs.declared.faults.RestartFault.TheVariants.{KeepFault};
ghost use Rattle.std.specs.Prelude.{List as Items, Result as Outcome};
ghost use Rattle.dx_types.specs.declared.Block.{Block as Content};
ghost use Rattle.dx_rules.specs.Settled.{IsSettled};
ghost use Rattle.dx_work.specs.Lines.{committed, present, aside_of};
ghost use Rattle.dx_node.specs.Faults.{row_fault, fold_fault};
ghost use Rattle.dx_node.specs.Counts.{RestartLeaves};
ghost use Rattle.dx_node.specs.Starts.{IsUnkept, Adds, LeadsFrom, Begins, AreCounted, IsChainOf, OnlyReads, IsBegun};

use crate::faults::RestartFault;
use dx_codec::genesis_digest;
use dx_history::{HistoryFault, kept_block};
use dx_io::Keeper;
use dx_rules::{Applied, BlockFault, apply_block, genesis_is_settled};
use dx_state::PlainState;
use dx_types::{Block, Genesis, List, NoMemory, Order};
use dx_work::Work;
use std::alloc::Global;

/// What a node starts anew from.
#[derive(Drop)]
pub(crate) struct Start {
    /// The state after its blocks, as both contents.
    pub(crate) work: Work,
    /// The stateful orders of that state, by rising id.
    pub(crate) again: List<Order>,
}

/// Why a row at a height gives no block.
fn no_row(fault: HistoryFault, height: u32) -> RestartFault
    ensures { result ≡ row_fault fault height }
{
    match fault {
        HistoryFault::Failed => RestartFault::KeepFault,
        HistoryFault::Bad => RestartFault::KeptBad { height },
        HistoryFault::NoMemory => RestartFault::NoMemory,
    }
}

/// Why the block of the row at a height is not applied.
fn no_block(fault: BlockFault, height: u32) -> RestartFault
    ensures { result ≡ fold_fault fault height }
{
    match fault {
        BlockFault::Bad(_) => RestartFault::KeptBad { height },
        BlockFault::NoMemory => RestartFault::NoMemory,
    }
}

/// Applies a block to the present content of a work, which is then the committed content too. No map is copied: what
/// the block wrote stays.
///
/// `Bad` with the block's first bad part; `NoMemory` where there is none.
fn apply_and_settle(alloc: Global, work: &mut Work, block: &Block) -> Result<Applied, BlockFault>
    requires settled { IsSettled (present work.old) }
    ensures ok { IfOk result (λ applied. block_step (present work.old) block.now
        ≡ Ok (present work.new, applied.results, applied.triggered)) }
    ensures settled { OnOk result (IsSettled (present work.new)) }
    ensures both { OnOk result (committed work.new ≡ present work.new) }
    ensures nothing { OnOk result (aside_of work.new ≡ None) }
    ensures bad { IfErr result (λ fault. Refuses fault (block_step (present work.old) block.now)) }
{
    match apply_block(alloc, work, block) {
        Ok(applied) => {
            work.keep();
            Ok(applied)
        }
        Err(fault) => Err(fault),
    }
}

/// Applies the block of a node's row at a height to the present content of a work, which is then the committed content
/// too.
///
/// `KeptBad` with the height exactly where the row is missing, or is no block that is good on the content.
fn next_block<K: Keeper>(
    alloc: Global,
    keeper: &mut K,
    number: u32,
    height: u32,
    work: &mut Work,
) -> Result<(), RestartFault>
    requires settled { IsSettled (present work.old) }
    ensures settled { OnOk result (IsSettled (present work.new)) }
    ensures both { OnOk result (committed work.new ≡ present work.new) }
    ensures nothing { OnOk result (aside_of work.new ≡ None) }
    ensures ok { OnOk result (Adds (K.rows keeper.old) number height (present work.old) (present work.new)) }
    ensures refused { (rows : Rows) → K.rows keeper.old ≡ Some rows → (g : Beginning) → (more : ℕ) →
        IfErr result (IsUnkept g (kept_from (present work.old) rows number height (suc more))) }
    ensures read { OnlyReads (K.rows keeper.old) (K.rows keeper.new)
        (K.faults keeper.old) (K.faults keeper.new) result }
    ensures good { KeepsCount (K.faults keeper.old) (K.faults keeper.new) result }
    ensures still { IfErr result (RestartLeaves (K.faults keeper.old) (K.faults keeper.new)) }
{
    let block = match kept_block(keeper, number, height) {
        Ok(block) => block,
        Err(fault) => return Err(no_row(fault, height)),
    };
    match apply_and_settle(alloc, work, &block) {
        Ok(_) => Ok(()),
        Err(fault) => Err(no_block(fault, height)),
    }
}

/// Applies the blocks of a node's rows from a height on, and below a count, to a work whose two contents are the state
/// before the first one. Behind each block both contents are the state after it.
///
/// `KeptBad` with the first height at which there is no block, or none that is good behind those before it.
fn fold_rows<K: Keeper>(
    alloc: Global,
    keeper: &mut K,
    number: u32,
    first: u32,
    count: u32,
    work: &mut Work,
) -> Result<(), RestartFault>
    requires settled { IsSettled (present work.old) }
    requires both { committed work.old ≡ present work.old }
    requires nothing { aside_of work.old ≡ None }
    requires some { first ≤ count }
    ensures settled { OnOk result (IsSettled (present work.new)) }
    ensures both { OnOk result (committed work.new ≡ present work.new) }
    ensures nothing { OnOk result (aside_of work.new ≡ None) }
    ensures ok { OnOk result (LeadsFrom (K.rows keeper.old) number first (count - first)
        (present work.old) (present work.new)) }
    ensures refused { (rows : Rows) → K.rows keeper.old ≡ Some rows → (g : Beginning) →
        IfErr result (IsUnkept g (kept_from (present work.old) rows number first (count - first))) }
    ensures read { OnlyReads (K.rows keeper.old) (K.rows keeper.new)
        (K.faults keeper.old) (K.faults keeper.new) result }
    ensures good { KeepsCount (K.faults keeper.old) (K.faults keeper.new) result }
    ensures still { IfErr result (RestartLeaves (K.faults keeper.old) (K.faults keeper.new)) }
{
    for height in first..count {
        next_block(alloc, keeper, number, height, work)?;
    }
    Ok(())
}

/// What a node starts from whose work has one content: its stateful orders are listed from a copy. `NoMemory` where
/// there is none for them.
fn start_with(work: Work) -> Result<Start, NoMemory>
    ensures same { IfOk result (λ start. start.work ≡ work) }
    ensures again { IfOk result (λ start. start.again ≡ values (committed work).stateful) }
{
    let state = work.committed_copy()?;
    let again = state.stateful_orders()?;
    Ok(Start { work, again })
}

/// Applies the blocks of a node's rows from a height on, and below a count, to the state before the first one, each
/// before the next row is read. They are folded over one journal, so no map is copied between them.
///
/// `KeptBad` with the first height at which there is no block, or none that is good behind those before it. `KeepFault`
/// only where the keeper's count of faults rose, and `NoMemory` where there is none.
pub(crate) fn start_behind<K: Keeper>(
    alloc: Global,
    keeper: &mut K,
    number: u32,
    first: u32,
    count: u32,
    state: PlainState,
) -> Result<Start, RestartFault>
    requires settled { IsSettled state }
    requires some { first ≤ count }
    ensures leads { IfOk result (λ start.
        LeadsFrom (K.rows keeper.old) number first (count - first) state (committed start.work)) }
    ensures settled { IfOk result (λ start. IsSettled (committed start.work)) }
    ensures speculative { IfOk result (λ start. present start.work ≡ committed start.work) }
    ensures nothing { IfOk result (λ start. aside_of start.work ≡ None) }
    ensures again { IfOk result (λ start. start.again ≡ values (committed start.work).stateful) }
    ensures refused { (rows : Rows) → K.rows keeper.old ≡ Some rows → (g : Beginning) →
        IfErr result (IsUnkept g (kept_from state rows number first (count - first))) }
    ensures read { OnlyReads (K.rows keeper.old) (K.rows keeper.new)
        (K.faults keeper.old) (K.faults keeper.new) result }
    ensures good { KeepsCount (K.faults keeper.old) (K.faults keeper.new) result }
    ensures still { IfErr result (RestartLeaves (K.faults keeper.old) (K.faults keeper.new)) }
{
    let mut work = Work::new(alloc, state)?;
    match fold_rows(alloc, keeper, number, first, count, &mut work) {
        Ok(()) => {}
        Err(fault) => return Err(fault),
    }
    Ok(start_with(work)?)
}

/// Tests bytes against the digest of a genesis.
///
/// `KeptOther` where they are 32 other bytes, and `KeptBad` where they are not 32.
fn check_bytes(bytes: &[u8], ours: &[u8; 32]) -> Result<(), RestartFault>
    ensures ok { OnOk result ((g : Beginning) → ours.now ≡ digest_of g → first_fault g (Some bytes.now) ≡ None) }
    ensures refused { (g : Beginning) → ours.now ≡ digest_of g → (above : Outcome (Items Content) Unkept) →
        IfErr result (IsUnkept g (first_of (first_fault g (Some bytes.now)) above)) }
    ensures sure { result ≢ Err KeepFault }
{
    if bytes == ours.as_slice() {
        return Ok(());
    }
    if bytes.len() != 32 {
        return Err(RestartFault::KeptBad { height: 0 });
    }
    let mut kept = [0; 32];
    kept.copy_from_slice(bytes);
    Err(RestartFault::KeptOther { kept, ours: *ours })
}

/// Tests the row of a node at height 0 against the digest of its genesis.
///
/// `KeptOther` where it is 32 other bytes, and `KeptBad` where it is missing or is not 32 bytes.
pub(crate) fn check_first<K: Keeper>(
    keeper: &mut K,
    number: u32,
    ours: &[u8; 32],
) -> Result<(), RestartFault>
    ensures ok { OnOk result ((g : Beginning) → ours.now ≡ digest_of g →
        IfSome (K.rows keeper.old) (λ rows. first_fault g (get rows (place_of number 0)) ≡ None)) }
    ensures refused { (rows : Rows) → K.rows keeper.old ≡ Some rows → (g : Beginning) → ours.now ≡ digest_of g →
        (above : Outcome (Items Content) Unkept) →
        IfErr result (IsUnkept g (first_of (first_fault g (get rows (place_of number 0))) above)) }
    ensures read { OnlyReads (K.rows keeper.old) (K.rows keeper.new)
        (K.faults keeper.old) (K.faults keeper.new) result }
    ensures good { KeepsCount (K.faults keeper.old) (K.faults keeper.new) result }
    ensures still { IfErr result (RestartLeaves (K.faults keeper.old) (K.faults keeper.new)) }
{
    let Some(row) = keeper.get(number, 0)? else {
        return Err(RestartFault::KeptBad { height: 0 });
    };
    check_bytes(row.as_slice(), ours)
}

/// What a node of a state between blocks starts from. `NoMemory` where there is none for it.
fn start_at(alloc: Global, state: PlainState) -> Result<Start, NoMemory>
    ensures committed { IfOk result (λ start. committed start.work ≡ state) }
    ensures speculative { IfOk result (λ start. present start.work ≡ state) }
    ensures nothing { IfOk result (λ start. aside_of start.work ≡ None) }
    ensures again { IfOk result (λ start. start.again ≡ values state.stateful) }
{
    let again = state.stateful_orders()?;
    let work = Work::new(alloc, state)?;
    Ok(Start { work, again })
}

/// Sets the first row of a node to a digest. The rows are as before at a refusal.
fn set_first<K: Keeper>(keeper: &mut K, number: u32, digest: &[u8; 32]) -> Result<(), RestartFault>
    ensures refused { (g : Beginning) → (told : Outcome (Items Content) Unkept) → IfErr result (IsUnkept g told) }
    ensures set { OnOk result (SetsRow (K.rows keeper.old) (K.rows keeper.new) (place_of number 0) digest.now) }
    ensures rows { OnErr result (SameRows (K.rows keeper.old) (K.rows keeper.new)) }
    ensures good { KeepsCount (K.faults keeper.old) (K.faults keeper.new) result }
    ensures still { IfErr result (RestartLeaves (K.faults keeper.old) (K.faults keeper.new)) }
    ensures later { K.faults keeper.old ≤ K.faults keeper.new }
    ensures failed { IsErrOf result RestartFault.KeepFault → Rose (K.faults keeper.old) (K.faults keeper.new) }
{
    keeper.put(number, 0, digest)?;
    Ok(())
}

/// Sets the first row of a node that has none, once there is memory for all from which the node starts.
///
/// `KeepFault` only where the keeper's count of faults rose, and `NoMemory` where there is none. The rows are then as
/// before.
fn begin<K: Keeper>(
    alloc: Global,
    keeper: &mut K,
    number: u32,
    g: &Genesis,
) -> Result<Start, RestartFault>
    requires { IsGenesis g.now }
    ensures committed { IfOk result (λ start. committed start.work ≡ genesis_state g.now) }
    ensures settled { IfOk result (λ start. IsSettled (committed start.work)) }
    ensures speculative { IfOk result (λ start. present start.work ≡ committed start.work) }
    ensures nothing { IfOk result (λ start. aside_of start.work ≡ None) }
    ensures again { IfOk result (λ start. start.again ≡ values (committed start.work).stateful) }
    ensures refused { (told : Outcome (Items Content) Unkept) → IfErr result (IsUnkept g.now told) }
    ensures set { OnOk result (SetsRow (K.rows keeper.old) (K.rows keeper.new) (place_of number 0) (digest_of g.now)) }
    ensures rows { OnErr result (SameRows (K.rows keeper.old) (K.rows keeper.new)) }
    ensures good { KeepsCount (K.faults keeper.old) (K.faults keeper.new) result }
    ensures still { IfErr result (RestartLeaves (K.faults keeper.old) (K.faults keeper.new)) }
    ensures later { K.faults keeper.old ≤ K.faults keeper.new }
    ensures failed { IsErrOf result RestartFault.KeepFault → Rose (K.faults keeper.old) (K.faults keeper.new) }
{
    genesis_is_settled();
    let digest = genesis_digest(alloc, g)?;
    let state = PlainState::genesis(alloc, g)?;
    let start = start_at(alloc, state)?;
    match set_first(keeper, number, &digest) {
        Ok(()) => Ok(start),
        Err(fault) => Err(fault),
    }
}

/// Reads the rows of a node that has some: all that are counted, by rising height.
///
/// `KeptOther` and `KeptBad` by the first row that is none of a chain. `KeepFault` only where the keeper's count of
/// faults rose, and `NoMemory` where there is none.
fn go_on<K: Keeper>(
    alloc: Global,
    keeper: &mut K,
    number: u32,
    count: u32,
    g: &Genesis,
) -> Result<Start, RestartFault>
    requires genesis { IsGenesis g.now }
    requires some { 1 ≤ count }
    ensures begins { IfOk result (λ start.
        Begins g.now (AreCounted (K.rows keeper.old) g.now number count) (committed start.work)) }
    ensures settled { IfOk result (λ start. IsSettled (committed start.work)) }
    ensures speculative { IfOk result (λ start. present start.work ≡ committed start.work) }
    ensures nothing { IfOk result (λ start. aside_of start.work ≡ None) }
    ensures again { IfOk result (λ start. start.again ≡ values (committed start.work).stateful) }
    ensures refused { (rows : Rows) → K.rows keeper.old ≡ Some rows → count ≡ row_count rows number →
        IfErr result (IsUnkept g.now (kept g.now rows number)) }
    ensures read { OnlyReads (K.rows keeper.old) (K.rows keeper.new)
        (K.faults keeper.old) (K.faults keeper.new) result }
    ensures good { KeepsCount (K.faults keeper.old) (K.faults keeper.new) result }
    ensures still { IfErr result (RestartLeaves (K.faults keeper.old) (K.faults keeper.new)) }
{
    genesis_is_settled();
    let ours = genesis_digest(alloc, g)?;
    check_first(keeper, number, &ours)?;
    let state = PlainState::genesis(alloc, g)?;
    start_behind(alloc, keeper, number, 1, count, state)
}

/// Reads the rows of a node of a genesis by rising height, applies each block before the next row is read, and sets the
/// first row of a node that has none. All memory is taken before that.
///
/// `KeptOther` and `KeptBad` by the first row that is none of a chain. `KeepFault` only where the keeper's count of
/// faults rose, and `NoMemory` where there is none. The rows are then as before.
pub(crate) fn start_anew<K: Keeper>(
    alloc: Global,
    keeper: &mut K,
    number: u32,
    g: &Genesis,
) -> Result<Start, RestartFault>
    requires { IsGenesis g.now }
    ensures begins { IfOk result (λ start.
        Begins g.now (IsChainOf (K.rows keeper.old) g.now number) (committed start.work)) }
    ensures settled { IfOk result (λ start. IsSettled (committed start.work)) }
    ensures speculative { IfOk result (λ start. present start.work ≡ committed start.work) }
    ensures nothing { IfOk result (λ start. aside_of start.work ≡ None) }
    ensures again { IfOk result (λ start. start.again ≡ values (committed start.work).stateful) }
    ensures refused { (rows : Rows) → K.rows keeper.old ≡ Some rows →
        IfErr result (IsUnkept g.now (kept g.now rows number)) }
    ensures begun { OnOk result (IsBegun (K.rows keeper.old) (K.rows keeper.new) g.now number) }
    ensures rows { OnErr result (SameRows (K.rows keeper.old) (K.rows keeper.new)) }
    ensures good { KeepsCount (K.faults keeper.old) (K.faults keeper.new) result }
    ensures still { IfErr result (RestartLeaves (K.faults keeper.old) (K.faults keeper.new)) }
    ensures later { K.faults keeper.old ≤ K.faults keeper.new }
    ensures failed { IsErrOf result RestartFault.KeepFault → Rose (K.faults keeper.old) (K.faults keeper.new) }
{
    let count = keeper.count(number)?;
    if count == 0 {
        return begin(alloc, keeper, number, g);
    }
    go_on(alloc, keeper, number, count, g)
}
