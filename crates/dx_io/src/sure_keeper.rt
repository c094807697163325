ghost use Rattle.std.specs.Prelude.{◌≡◌, ◌==◌, Ok, Some, IfOk, IfErr, OnOk, OnErr, length, filter, option_map};
ghost use Rattle.std.specs.FinMap as map;
ghost use Rattle.std.specs.BTreeMap.{keys, IsOrdered};
ghost use Rattle.dx_maps.specs.Tables.{map_of};
ghost use Rattle.dx_io.specs.Causes.{KeepCause, KeepsCount};
ghost use Rattle.dx_io.specs.RowKeys.{row_cmp};
ghost use Rattle.dx_io.specs.Rows.{SameRows, SetsRow, FindsRow, CountsRows, row_count};

use crate::keeper::{KeepError, Keeper};
use crate::row_key::RowKey;
use dx_types::List;
use std::alloc::{AllocError, Global};
use std::collections::BTreeMap;
use std::marker::Model;

/// Rows in memory, without a fault. Contracts see the finite map of the rows.
#[derive(Drop)]
pub struct SureKeeper {
    rows: BTreeMap<RowKey, List<u8>>,
    alloc: Global,
}

impl Model for SureKeeper {
    ghost use Rattle.dx_maps.specs.Tables.{map_of};
    ghost use Rattle.dx_io.specs.RowKeys.{row_cmp};
    ghost use Rattle.dx_io.specs.Rows.{Rows, coded_rows};

    ghost Value = { Rows };

    ghost coded = { coded_rows };

    ghost view = { λ k. map_of row_cmp k.rows };
}

/// The bytes as a row of their own.
fn row_from(alloc: Global, bytes: &[u8]) -> Result<List<u8>, AllocError>
    ensures { IfOk result (λ row. row ≡ bytes.now) }
{
    Ok(List::from_vec(Vec::from_slice(alloc, bytes)?))
}

/// How many entries a node has. The keys rise, so each is a row.
fn entry_count(rows: &BTreeMap<RowKey, List<u8>>, node: u32) -> usize
    ensures count { result ≡ length (filter (λ key. key.node == node) (keys rows.now)) }
    ensures ordered { IsOrdered row_cmp rows.now }
{
    rows.keys().filter(|key| key.node == node).count()
}

/// How many rows a node has, or `u32::MAX` where there are more.
fn row_count(rows: &BTreeMap<RowKey, List<u8>>, node: u32) -> u32
    ensures { result ≡ row_count (map_of row_cmp rows.now) node }
{
    entry_count(rows, node).min(u32::MAX as usize) as u32
}

impl SureKeeper {
    /// A keeper without rows. It takes memory as rows are put.
    pub fn new(alloc: Global) -> SureKeeper
        ensures empty { result ≡ map.empty }
        ensures rows { ⟦<SureKeeper as Keeper>⟧.rows result ≡ Some map.empty }
        ensures faults { ⟦<SureKeeper as Keeper>⟧.faults result ≡ 0 }
    {
        SureKeeper {
            rows: BTreeMap::new(alloc),
            alloc,
        }
    }
}

impl Keeper for SureKeeper {
    ghost rows = { λ k. Some k };

    ghost faults = { λ _. 0 };

    fn put(&mut self, node: u32, height: u32, bytes: &[u8]) -> Result<(), KeepError>
        ensures set { OnOk result (SetsRow (Some self.old) (Some self.new)
            (record { node = node; height = height }) bytes.now) }
        ensures err { OnErr result (SameRows (Some self.old) (Some self.new)) }
        ensures cause { KeepCause 0 0 result }
        ensures good { KeepsCount 0 0 result }

        // It never fails, and is refused only for memory.
        ensures sure { IfErr result (λ error. error ≡ KeepError.NoMemory) }
    {
        let row = row_from(self.alloc, bytes)?;
        dx_maps::insert(&mut self.rows, RowKey { node, height }, row)?;
        Ok(())
    }

    fn get(&mut self, node: u32, height: u32) -> Result<Option<Vec<u8>>, KeepError>
        ensures found { IfOk result (λ row. FindsRow (Some self.old)
            (record { node = node; height = height }) (option_map (λ bytes. bytes.items) row)) }
        ensures kept { SameRows (Some self.old) (Some self.new) }
        ensures cause { KeepCause 0 0 result }
        ensures good { KeepsCount 0 0 result }

        // It never fails, and is refused only for memory.
        ensures sure { IfErr result (λ error. error ≡ KeepError.NoMemory) }
    {
        let Some(row) = dx_maps::get(&self.rows, RowKey { node, height }) else {
            return Ok(None);
        };
        let copy = row.try_clone()?;
        Ok(Some(copy.into_vec()))
    }

    fn count(&mut self, node: u32) -> Result<u32, KeepError>
        ensures count { IfOk result (λ n. CountsRows (Some self.old) node n) }
        ensures kept { SameRows (Some self.old) (Some self.new) }
        ensures cause { KeepCause 0 0 result }
        ensures good { KeepsCount 0 0 result }

        // It is never refused.
        ensures sure { result ≡ Ok (row_count self.old node) }
    {
        Ok(row_count(&self.rows, node))
    }
}
