//! One state as a row, and back.

ghost use Rattle.std.specs.Prelude.{◌≡◌, ◌≢◌, ◌<◌, ◌≤◌, ◌++◌, if◌then◌else◌, Some, None, Ok, Err, IfOk, IfErr, IfSome, IsErrOf, OnOk, OnErr, option_map};
ghost use Rattle.dx_spec.specs.Genesis.{IsGenesis};
ghost use Rattle.dx_io.specs.Causes.{KeepsCount, Rose};
ghost use Rattle.dx_io.specs.Rows.{Rows, SameRows, SetsRow};
ghost use Rattle.dx_codec.specs.Building.{IsStateOf};
ghost use Rattle.dx_codec.specs.States.{FitsNames};
ghost use Rattle.dx_codec.specs.Reading.{Reads};
ghost use Rattle.dx_snapshot.specs.declared.fault.SnapFault.TheVariants.{Failed};
ghost use Rattle.dx_snapshot.specs.Faults.{SnapLeaves};
ghost use Rattle.dx_snapshot.specs.States.{state_in};
ghost use Rattle.dx_snapshot.specs.Snapshots.{snapshot_place, state_digest, snapshot_bytes, front_of as bytes_before, is_sealed, snapshot_in, snapshot_of, snapshot_at, Causes, Tells};

use crate::fault::SnapFault;
use dx_codec::{CodecFault, decode_state, encode_state};
use dx_io::{KeepError, Keeper};
use dx_ledger::Ledger;
use dx_state::PlainState;
use dx_types::{Genesis, List, NoMemory};
use sha2::{Digest, Sha256};
use std::alloc::{AllocError, Global};

/// The number at which the snapshots of node 0 stand; those of the others follow.
const FIRST_NUMBER: u32 = 1_000;

/// The bytes of a state with their digest behind them. `AllocError` where there is no memory for it.
fn sealed(bytes: List<u8>, digest: &[u8; 32]) -> Result<Vec<u8>, AllocError>
    ensures { IfOk result (λ row. row.items ≡ bytes ++ digest.now) }
{
    let mut row = bytes.into_vec();
    row.extend_from_slice(digest)?;
    Ok(row)
}

/// Sets the row of a node's snapshot at the state's height to the state's bytes and their SHA-256, and leaves all other
/// rows. The answer is that SHA-256. All memory for the bytes is taken before the keeper is called.
///
/// # Errors
/// `Failed` only where the keeper's count of faults rose, and `NoMemory` where there is none for the bytes or
/// for the row. After either the rows are as before. A good answer leaves the count.
#[tactic(auto, using(dx_history::proofs::Reading::same_rows))]
pub fn keep_snapshot<K: Keeper>(
    keeper: &mut K,
    node: u32,
    s: &PlainState,
) -> Result<[u8; 32], KeepError>
    requires { node < 16 }
    ensures digest { IfOk result (λ digest. digest ≡ state_digest s.now) }
    ensures set { OnOk result (SetsRow (K.rows keeper.old) (K.rows keeper.new)
        (snapshot_place node s.now.clock.height) (snapshot_bytes s.now)) }
    ensures fits { OnOk result (FitsNames s.now) }
    ensures err { OnErr result (SameRows (K.rows keeper.old) (K.rows keeper.new)) }
    ensures good { KeepsCount (K.faults keeper.old) (K.faults keeper.new) result }
    ensures later { K.faults keeper.old ≤ K.faults keeper.new }
    ensures failed { IsErrOf result KeepError.Failed → Rose (K.faults keeper.old) (K.faults keeper.new) }
{
    let alloc = s.genesis().params.markets.allocator();
    let bytes = encode_state(alloc, s)?;
    let digest = Sha256::digest(bytes.as_slice());
    let row = sealed(bytes, &digest)?;
    keeper.put(FIRST_NUMBER + node, s.clock().height, row.as_slice())?;
    Ok(digest)
}

/// The bytes of a row before its last 32, where these are their SHA-256.
#[tactic(auto, unfolding(crate::specs::Snapshots::is_sealed))]
fn front_of(row: &[u8]) -> Option<&[u8]>
    ensures { option_map (λ front. front.now) result
        ≡ (if is_sealed row.now then Some (bytes_before row.now) else None) }
{
    if row.len() < 32 {
        return None;
    }
    let (front, seal) = row.split_at(row.len() - 32);
    if seal != Sha256::digest(front).as_slice() {
        return None;
    }
    Some(front)
}

/// A state whose names are seen to fit their bytes. `NoMemory` where there is none to write them.
fn fitting(alloc: Global, s: PlainState) -> Result<PlainState, NoMemory>
    ensures same { IfOk result (λ t. t ≡ s) }
    ensures fits { IfOk result FitsNames }
{
    encode_state(alloc, &s)?;
    Ok(s)
}

/// The balanced and sound state of a genesis that bytes are read as.
fn read_state(bytes: &[u8], g: &Genesis) -> Result<PlainState, CodecFault>
    requires { IsGenesis g.now }
    ensures { Reads (λ s. s) result (state_in g.now bytes.now) }
{
    let alloc = g.params.markets.allocator();
    match decode_state(alloc, bytes, g) {
        Ok(s) => Ok(fitting(alloc, s)?),
        Err(fault) => Err(fault),
    }
}

/// The state that a row is the snapshot of.
#[tactic(auto, unfolding(crate::specs::Snapshots::snapshot_in))]
fn read_row(row: &[u8], height: u32, g: &Genesis) -> Result<PlainState, SnapFault>
    requires { IsGenesis g.now }
    ensures read { IfOk result (λ s. snapshot_in g.now height row.now ≡ Ok s) }
    ensures refused { IfErr result (Causes (snapshot_in g.now height row.now)) }
    ensures sure { result ≢ Err Failed }
{
    let Some(front) = front_of(row) else {
        return Err(SnapFault::Digest);
    };
    let s = read_state(front, g)?;
    let has = s.clock().height;
    if has != height {
        return Err(SnapFault::OtherHeight { has });
    }
    Ok(s)
}

/// The state that a row is the snapshot of, if the row is there.
fn read_found(
    row: Option<Vec<u8>>,
    height: u32,
    g: &Genesis,
) -> Result<Option<PlainState>, SnapFault>
    requires { IsGenesis g.now }
    ensures told { Tells result (snapshot_of g.now height (option_map (λ bytes. bytes.items) row)) }
    ensures state { IfOk result (λ found. IfSome found (IsStateOf g.now)) }
    ensures sure { result ≢ Err Failed }
{
    let Some(bytes) = row else {
        return Ok(None);
    };
    match read_row(bytes.as_slice(), height, g) {
        Ok(s) => Ok(Some(s)),
        Err(fault) => Err(fault),
    }
}

/// The state whose snapshot is kept for a node at a height, and `None` exactly where there is no row: a balanced and sound
/// state of the genesis, whatever the keeper tells. The rows stay as they are.
///
/// # Errors
/// Of a row that the keeper gave, in this order: `Digest` exactly where it is shorter than 32 bytes, or its last 32 are
/// not the SHA-256 of those before them; `Malformed` exactly where those before them are no balanced and sound state
/// of the genesis; `OtherHeight` exactly where that state has another height. `Failed` only where the keeper's count
/// of faults rose, and `NoMemory` where there is none for the row or the state; every other answer leaves the count.
#[tactic(auto, using(crate::proofs::Leaving::all_leave))]
pub fn read_snapshot<K: Keeper>(
    keeper: &mut K,
    node: u32,
    height: u32,
    g: &Genesis,
) -> Result<Option<PlainState>, SnapFault>
    requires few { node < 16 }
    requires genesis { IsGenesis g.now }
    ensures told { (rows : Rows) → K.rows keeper.old ≡ Some rows
        → Tells result (snapshot_at g.now rows node height) }
    ensures state { IfOk result (λ found. IfSome found (IsStateOf g.now)) }
    ensures kept { SameRows (K.rows keeper.old) (K.rows keeper.new) }
    ensures good { KeepsCount (K.faults keeper.old) (K.faults keeper.new) result }
    ensures still { IfErr result (SnapLeaves (K.faults keeper.old) (K.faults keeper.new)) }
    ensures later { K.faults keeper.old ≤ K.faults keeper.new }
    ensures failed { IsErrOf result Failed → Rose (K.faults keeper.old) (K.faults keeper.new) }
{
    let row = keeper.get(FIRST_NUMBER + node, height)?;
    read_found(row, height, g)
}
