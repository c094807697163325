ghost use Rattle.std.specs.Prelude.{◌≡◌, ◌≤◌, ◌<◌, ◌^◌};
ghost use Rattle.dx_io.specs.Plans.{fresh_plan, is_next_listed, after_call};

use crate::faults::faults_after;
use std::marker::Model;

/// Which calls fail, and how many calls and faults there have been. Contracts see the three.
#[derive(Drop)]
pub struct FaultPlan {
    fails: Vec<u64>,
    calls: u64,
    faults: u64,
}

impl Model for FaultPlan {
    ghost use Rattle.dx_io.specs.Plans.{Plan};

    ghost Value = { Plan };

    ghost view = { λ p. record { fails = p.fails.items; calls = p.calls; faults = p.faults } };
}

impl FaultPlan {
    /// The calls with these numbers fail, counted from 1.
    pub fn new(fails: Vec<u64>) -> FaultPlan
        ensures { result ≡ fresh_plan fails.items }
    {
        FaultPlan {
            fails,
            calls: 0,
            faults: 0,
        }
    }

    /// Whether the next call fails. A call past the 2^64 − 1st has no number and does not.
    fn is_next_listed(&self) -> bool
        ensures { result ≡ is_next_listed self.now }
    {
        match self.calls.checked_add(1) {
            Some(number) => self.fails.as_slice().contains(&number),
            None => false,
        }
    }

    /// Counts one more call, and a fault if it is listed. Answers whether it is.
    pub fn count_call(&mut self) -> bool
        ensures fails { result ≡ is_next_listed self.old }
        ensures counts { self.new ≡ after_call self.old }
        ensures later { self.old.faults ≤ self.new.faults }
        ensures in_range { self.new.faults < 2 ^ 64 }
    {
        let fails = self.is_next_listed();
        self.calls = self.calls.saturating_add(1);
        self.faults = faults_after(self.faults, fails);
        fails
    }
}
