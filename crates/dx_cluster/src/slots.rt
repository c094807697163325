//! The blocks that were put into slots.

ghost use Rattle.std.specs.Prelude.{◌≡◌, OnOk, OnErr, option_copied};
ghost use Rattle.std.specs.FinMap as finite;

use dx_types::{Block, NoMemory};
use std::alloc::Global;
use std::collections::BTreeMap;
use std::marker::Model;

/// The blocks in the slots. Contracts see the finite map of them.
#[derive(Drop)]
pub struct Slots {
    blocks: BTreeMap<u32, Block>,
}

impl Model for Slots {
    ghost use Rattle.std.specs.Ordering.{nat_cmp};
    ghost use Rattle.dx_maps.specs.Tables.{map_of};
    ghost use Rattle.dx_cluster.specs.Stored.{Stored, coded_stored};

    ghost Value = { Stored };

    ghost coded = { coded_stored };

    ghost view = { λ s. map_of nat_cmp s.blocks };
}

impl Slots {
    /// No slot is filled.
    pub fn new(alloc: Global) -> Slots
        ensures { result ≡ finite.empty }
    {
        Slots {
            blocks: BTreeMap::new(alloc),
        }
    }

    /// Puts a block into a slot, in place of what was there. `NoMemory` where there is none for a new slot:
    /// the slots are then as they were.
    pub fn fill(&mut self, slot: u32, block: Block) -> Result<(), NoMemory>
        ensures ok { OnOk result (self.new ≡ finite.insert self.old slot block) }
        ensures err { OnErr result (self.new ≡ self.old) }
    {
        dx_maps::insert(&mut self.blocks, slot, block)?;
        Ok(())
    }

    /// The block of a slot, if it was filled.
    pub fn block(&self, slot: u32) -> Option<&Block>
        ensures { option_copied result ≡ finite.get self.now slot }
    {
        dx_maps::get(&self.blocks, slot)
    }
}
