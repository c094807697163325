ghost use Rattle.std.specs.Prelude.{◌≡◌, ◌↔◌, Some, IfOk, IsErr, IsErrOf, IsTrue, OnOk, OnErr, option_map};
ghost use Rattle.std.specs.FinMap as map;
ghost use Rattle.dx_io.specs.Causes.{KeepCause, KeepsCount};
ghost use Rattle.dx_io.specs.Plans.{fresh_plan, is_next_listed, after_call};
ghost use Rattle.dx_io.specs.Rows.{SameRows, SetsRow, FindsRow, CountsRows};

use crate::fault_plan::FaultPlan;
use crate::keeper::{KeepError, Keeper};
use crate::sure_keeper::SureKeeper;
use std::alloc::Global;
use std::marker::Model;

/// Rows in memory, with faults at listed calls; `put`, `get` and `count` are numbered together.
/// Contracts see the rows, the numbers of the failing calls, and the counts of calls and faults.
#[derive(Drop)]
pub struct MemKeeper {
    keeper: SureKeeper,
    plan: FaultPlan,
}

impl Model for MemKeeper {
    ghost use Rattle.dx_io.specs.States.{KeeperState, coded_keeper};

    ghost Value = { KeeperState };

    ghost coded = { coded_keeper };

    ghost view = { λ k. record { rows = k.keeper; plan = k.plan } };
}

impl MemKeeper {
    /// A keeper without rows, whose calls with the numbers of `fails` fail, counted from 1. It
    /// takes memory as rows are put.
    pub fn new(alloc: Global, fails: Vec<u64>) -> MemKeeper
        ensures fresh { result ≡ record { rows = map.empty; plan = fresh_plan fails.items } }
        ensures rows { ⟦<MemKeeper as Keeper>⟧.rows result ≡ Some map.empty }
        ensures faults { ⟦<MemKeeper as Keeper>⟧.faults result ≡ 0 }
    {
        MemKeeper {
            keeper: SureKeeper::new(alloc),
            plan: FaultPlan::new(fails),
        }
    }

    /// A keeper of the same rows, whose calls are numbered anew from 1 and fail at the numbers of
    /// `fails`. It takes no memory.
    pub fn again(self, fails: Vec<u64>) -> MemKeeper
        ensures again { result ≡ record { rows = self.rows; plan = fresh_plan fails.items } }
        ensures rows { ⟦<MemKeeper as Keeper>⟧.rows result ≡ Some self.rows }
        ensures faults { ⟦<MemKeeper as Keeper>⟧.faults result ≡ 0 }
    {
        let MemKeeper { keeper, plan: _ } = self;
        MemKeeper {
            keeper,
            plan: FaultPlan::new(fails),
        }
    }
}

impl Keeper for MemKeeper {
    ghost rows = { λ k. Some k.rows };

    ghost faults = { λ k. k.plan.faults };

    fn put(&mut self, node: u32, height: u32, bytes: &[u8]) -> Result<(), KeepError>
        ensures set { OnOk result (SetsRow (Some self.old.rows) (Some self.new.rows)
            (record { node = node; height = height }) bytes.now) }
        ensures err { OnErr result (SameRows (Some self.old.rows) (Some self.new.rows)) }
        ensures cause { KeepCause self.old.plan.faults self.new.plan.faults result }
        ensures good { KeepsCount self.old.plan.faults self.new.plan.faults result }

        // It fails exactly at the listed calls.
        ensures fails { IsErrOf result KeepError.Failed ↔ IsTrue (is_next_listed self.old.plan) }
        ensures counts { self.new.plan ≡ after_call self.old.plan }
    {
        if self.plan.count_call() {
            return Err(KeepError::Failed);
        }
        self.keeper.put(node, height, bytes)
    }

    fn get(&mut self, node: u32, height: u32) -> Result<Option<Vec<u8>>, KeepError>
        ensures found { IfOk result (λ row. FindsRow (Some self.old.rows)
            (record { node = node; height = height }) (option_map (λ bytes. bytes.items) row)) }
        ensures kept { SameRows (Some self.old.rows) (Some self.new.rows) }
        ensures cause { KeepCause self.old.plan.faults self.new.plan.faults result }
        ensures good { KeepsCount self.old.plan.faults self.new.plan.faults result }

        // It fails exactly at the listed calls.
        ensures fails { IsErrOf result KeepError.Failed ↔ IsTrue (is_next_listed self.old.plan) }
        ensures counts { self.new.plan ≡ after_call self.old.plan }
    {
        if self.plan.count_call() {
            return Err(KeepError::Failed);
        }
        self.keeper.get(node, height)
    }

    fn count(&mut self, node: u32) -> Result<u32, KeepError>
        ensures count { IfOk result (λ n. CountsRows (Some self.old.rows) node n) }
        ensures kept { SameRows (Some self.old.rows) (Some self.new.rows) }
        ensures cause { KeepCause self.old.plan.faults self.new.plan.faults result }
        ensures good { KeepsCount self.old.plan.faults self.new.plan.faults result }

        // It fails exactly at the listed calls, and is refused for nothing else.
        ensures fails { IsErr result ↔ IsTrue (is_next_listed self.old.plan) }
        ensures counts { self.new.plan ≡ after_call self.old.plan }
    {
        if self.plan.count_call() {
            return Err(KeepError::Failed);
        }
        self.keeper.count(node)
    }
}
