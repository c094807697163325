//! A list that follows changes.

ghost use Rattle.std.specs.Prelude.{◌≡◌, ◌↔◌, [], IsTrue, Err, is_ok, if◌then◌else◌};
ghost use Rattle.dx_feed.specs.Lists.{NamesOnce};
ghost use Rattle.dx_feed.specs.Following.{lacks, repeats, list_after};

use crate::Change;
use crate::fault::FollowFault;
use crate::listing::Listing;
use dx_types::{List, OrderId, Shown};
use std::alloc::Global;
use std::marker::Model;

/// A list of resting orders that follows changes. Contracts see the list.
#[derive(Debug, Drop)]
pub struct Follower {
    held: Listing,
}

impl Model for Follower {
    ghost use Rattle.std.specs.Prelude.{List as Items};
    ghost use Rattle.dx_types.specs.declared.Shown.{Shown as AnyShown};

    ghost Value = { Items AnyShown };

    ghost view = { λ f. f.held };
}

/// Whether a change is of an id that is not held.
fn lacks(held: &Listing, change: &Change) -> bool
    ensures { result ≡ lacks held.now change.now }
{
    match change {
        Change::Clear => false,
        Change::Gone(id) => held.find(*id).is_none(),
        Change::Left { id, .. } => held.find(*id).is_none(),
        Change::Add(_) => false,
    }
}

/// Whether a change adds an order of an id that is held.
fn repeats(held: &Listing, change: &Change) -> bool
    ensures { result ≡ repeats held.now change.now }
{
    match change {
        Change::Clear => false,
        Change::Gone(_) => false,
        Change::Left { .. } => false,
        Change::Add(shown) => held.find(shown.order.id).is_some(),
    }
}

impl Follower {
    /// A follower whose list is empty. It takes no memory.
    pub fn new(alloc: Global) -> Follower
        ensures { result ≡ [] }
    {
        Follower {
            held: Listing::new(alloc),
        }
    }

    /// Takes a change on, or leaves the list as it is.
    ///
    /// # Errors
    ///
    /// `NoSuch` exactly where an order has gone, or another amount is left of it, whose id is not held; `Held`
    /// exactly where an order came whose id is held; `NoMemory` where there is no memory for an order that came.
    pub fn apply(&mut self, change: &Change) -> Result<(), FollowFault>
        ensures no_such { (result ≡ Err FollowFault.NoSuch) ↔ IsTrue (lacks self.old change.now) }
        ensures held { (result ≡ Err FollowFault.Held) ↔ IsTrue (repeats self.old change.now) }
        ensures list { self.new ≡ (if is_ok result then list_after self.old change.now else self.old) }
    {
        if lacks(&self.held, change) {
            return Err(FollowFault::NoSuch);
        }
        if repeats(&self.held, change) {
            return Err(FollowFault::Held);
        }
        match change {
            Change::Clear => self.held = Listing::new(self.held.allocator()),
            Change::Gone(id) => self.held.remove(*id),
            Change::Left { id, left } => self.held.set_left(*id, *left),
            Change::Add(shown) => self.held.push(*shown)?,
        }
        Ok(())
    }

    /// The list, lent. It takes no memory.
    pub fn list(&self) -> &List<Shown>
        ensures list { result.now ≡ self.now }
        ensures once { NamesOnce self.now }
    {
        self.held.list()
    }
}
