ghost use Rattle.std.specs.Prelude.{◌≡◌, ◌≤◌, ◌<◌, ◌^◌, ◌↔◌, Some, IfOk, IsErr, IsErrOf, IsTrue, OnOk, OnErr, option_map};
ghost use Rattle.std.specs.FinMap as map;
ghost use Rattle.dx_io.specs.Causes.{KeepCause, KeepsCount};
ghost use Rattle.dx_io.specs.Plans.{is_next_listed as is_listed, after_call};
ghost use Rattle.dx_io.specs.Rows.{SameRows, SetsRow, FindsRow, CountsRows};
ghost use Rattle.dx_books.specs.Books.{SameBooks, SetsLines, CutsLines, FindsLines, LeavesRows};

use crate::line_keeper::LineKeeper;
use crate::lists::{cut_after, entries_of};
use dx_io::{KeepError, Keeper, MemKeeper, RowKey};
use dx_lines::{Entry, Line};
use dx_types::{List, SubaccountId};
use std::alloc::Global;
use std::collections::BTreeMap;
use std::marker::Model;

/// Rows and lists of lines in memory, with faults at listed calls; the calls of both traits are numbered together.
/// Contracts see the keeper of the rows, and the lists.
#[derive(Drop)]
pub struct MemBooks {
    keeper: MemKeeper,
    books: BTreeMap<RowKey, List<Line>>,
    alloc: Global,
}

impl Model for MemBooks {
    ghost use Rattle.dx_maps.specs.Tables.{map_of};
    ghost use Rattle.dx_io.specs.RowKeys.{row_cmp};
    ghost use Rattle.dx_books.specs.States.{BooksState, coded_state};

    ghost Value = { BooksState };

    ghost coded = { coded_state };

    ghost view = { λ b. record { kept = b.keeper; books = map_of row_cmp b.books } };
}

/// Counts one more call of the keeper, and answers whether it fails. The rows stay as they are.
#[tactic(auto, using(crate::proofs::Listing::same_test))]
fn count_call(keeper: &mut MemKeeper) -> bool
    ensures fails { result ≡ is_listed keeper.old.plan }
    ensures rows { keeper.new.rows ≡ keeper.old.rows }
    ensures counts { keeper.new.plan ≡ after_call keeper.old.plan }
    ensures later { keeper.old.plan.faults ≤ keeper.new.plan.faults }
    ensures in_range { keeper.new.plan.faults < 2 ^ 64 }
{
    keeper.count(0).is_err()
}

impl MemBooks {
    /// Books without lists, over the rows of a keeper, with the calls that it lists. They take memory as lists are
    /// put.
    pub fn new(alloc: Global, keeper: MemKeeper) -> MemBooks
        ensures fresh { result ≡ record { kept = keeper; books = map.empty } }
        ensures books { ⟦<MemBooks as LineKeeper>⟧.books result ≡ Some map.empty }
        ensures rows { ⟦<MemBooks as Keeper>⟧.rows result ≡ Some keeper.rows }
        ensures faults { ⟦<MemBooks as Keeper>⟧.faults result ≡ keeper.plan.faults }
    {
        MemBooks {
            keeper,
            books: BTreeMap::new(alloc),
            alloc,
        }
    }
}

impl Keeper for MemBooks {
    ghost rows = { λ b. Some b.kept.rows };

    ghost faults = { λ b. b.kept.plan.faults };

    fn put(&mut self, node: u32, height: u32, bytes: &[u8]) -> Result<(), KeepError>
        ensures set { OnOk result (SetsRow (Some self.old.kept.rows) (Some self.new.kept.rows)
            (record { node = node; height = height }) bytes.now) }
        ensures err { OnErr result (SameRows (Some self.old.kept.rows) (Some self.new.kept.rows)) }
        ensures cause { KeepCause self.old.kept.plan.faults self.new.kept.plan.faults result }
        ensures good { KeepsCount self.old.kept.plan.faults self.new.kept.plan.faults result }

        // It fails exactly at the listed calls, and leaves the lists.
        ensures fails { IsErrOf result KeepError.Failed ↔ IsTrue (is_listed self.old.kept.plan) }
        ensures counts { self.new.kept.plan ≡ after_call self.old.kept.plan }
        ensures books { self.new.books ≡ self.old.books }
    {
        self.keeper.put(node, height, bytes)
    }

    fn get(&mut self, node: u32, height: u32) -> Result<Option<Vec<u8>>, KeepError>
        ensures found { IfOk result (λ row. FindsRow (Some self.old.kept.rows)
            (record { node = node; height = height }) (option_map (λ bytes. bytes.items) row)) }
        ensures kept { SameRows (Some self.old.kept.rows) (Some self.new.kept.rows) }
        ensures cause { KeepCause self.old.kept.plan.faults self.new.kept.plan.faults result }
        ensures good { KeepsCount self.old.kept.plan.faults self.new.kept.plan.faults result }

        // It fails exactly at the listed calls, and leaves the lists.
        ensures fails { IsErrOf result KeepError.Failed ↔ IsTrue (is_listed self.old.kept.plan) }
        ensures counts { self.new.kept.plan ≡ after_call self.old.kept.plan }
        ensures books { self.new.books ≡ self.old.books }
    {
        self.keeper.get(node, height)
    }

    fn count(&mut self, node: u32) -> Result<u32, KeepError>
        ensures count { IfOk result (λ n. CountsRows (Some self.old.kept.rows) node n) }
        ensures kept { SameRows (Some self.old.kept.rows) (Some self.new.kept.rows) }
        ensures cause { KeepCause self.old.kept.plan.faults self.new.kept.plan.faults result }
        ensures good { KeepsCount self.old.kept.plan.faults self.new.kept.plan.faults result }

        // It fails exactly at the listed calls, and leaves the lists.
        ensures fails { IsErr result ↔ IsTrue (is_listed self.old.kept.plan) }
        ensures counts { self.new.kept.plan ≡ after_call self.old.kept.plan }
        ensures books { self.new.books ≡ self.old.books }
    {
        self.keeper.count(node)
    }
}

impl LineKeeper for MemBooks {
    ghost books = { λ b. Some b.books };

    fn put_lines(&mut self, node: u32, height: u32, lines: &List<Line>) -> Result<(), KeepError>
        ensures set { OnOk result (SetsLines (Some self.old.books) (Some self.new.books)
            (record { node = node; height = height }) lines.now) }
        ensures err { OnErr result (SameBooks (Some self.old.books) (Some self.new.books)) }
        ensures rows { LeavesRows (Some self.old.books) (Some self.old.kept.rows) (Some self.new.kept.rows) }
        ensures cause { KeepCause self.old.kept.plan.faults self.new.kept.plan.faults result }
        ensures good { KeepsCount self.old.kept.plan.faults self.new.kept.plan.faults result }

        // It fails exactly at the listed calls.
        ensures fails { IsErrOf result KeepError.Failed ↔ IsTrue (is_listed self.old.kept.plan) }
        ensures counts { self.new.kept.plan ≡ after_call self.old.kept.plan }
    {
        if count_call(&mut self.keeper) {
            return Err(KeepError::Failed);
        }
        let copy = lines.try_clone()?;
        dx_maps::insert(&mut self.books, RowKey { node, height }, copy)?;
        Ok(())
    }

    fn cut_lines(&mut self, node: u32, height: u32) -> Result<(), KeepError>
        ensures cut { OnOk result (CutsLines (Some self.old.books) (Some self.new.books) node height) }
        ensures err { OnErr result (SameBooks (Some self.old.books) (Some self.new.books)) }
        ensures rows { LeavesRows (Some self.old.books) (Some self.old.kept.rows) (Some self.new.kept.rows) }
        ensures cause { KeepCause self.old.kept.plan.faults self.new.kept.plan.faults result }
        ensures good { KeepsCount self.old.kept.plan.faults self.new.kept.plan.faults result }

        // It fails exactly at the listed calls, and is refused for nothing else.
        ensures fails { IsErr result ↔ IsTrue (is_listed self.old.kept.plan) }
        ensures counts { self.new.kept.plan ≡ after_call self.old.kept.plan }
    {
        if count_call(&mut self.keeper) {
            return Err(KeepError::Failed);
        }
        cut_after(&mut self.books, node, height);
        Ok(())
    }

    fn lines_of(&mut self, node: u32, who: SubaccountId) -> Result<List<Entry>, KeepError>
        ensures found { IfOk result (λ entries. FindsLines (Some self.old.books) node who entries) }
        ensures kept { SameBooks (Some self.old.books) (Some self.new.books) }
        ensures rows { LeavesRows (Some self.old.books) (Some self.old.kept.rows) (Some self.new.kept.rows) }
        ensures cause { KeepCause self.old.kept.plan.faults self.new.kept.plan.faults result }
        ensures good { KeepsCount self.old.kept.plan.faults self.new.kept.plan.faults result }

        // It fails exactly at the listed calls.
        ensures fails { IsErrOf result KeepError.Failed ↔ IsTrue (is_listed self.old.kept.plan) }
        ensures counts { self.new.kept.plan ≡ after_call self.old.kept.plan }
    {
        if count_call(&mut self.keeper) {
            return Err(KeepError::Failed);
        }
        let entries = entries_of(self.alloc, &self.books, node, who)?;
        Ok(entries)
    }
}
