//! What changed from one list to the next.

ghost use Rattle.std.specs.Prelude.{◌≡◌, [], ◌++◌, Ok, IfOk, OnOk, is_ok, if◌then◌else◌};
ghost use Rattle.dx_feed.specs.Lists.{MayFollow, new_ones};
ghost use Rattle.dx_feed.specs.Changes.{gone_from, left_now, left_in, left_of, all_added, changes as changes_of};
ghost use Rattle.dx_feed.specs.Following.{follow_all};

use crate::Change;
use crate::listing::Listing;
use dx_orders::is_same_order;
use dx_types::{List, NoMemory, Shown};
use std::alloc::Global;
use std::marker::Model;

/// Tells what changes in a list of resting orders from step to step. Contracts see the list of the last
/// step, which is empty at first.
#[derive(Debug, Drop)]
pub struct Feeder {
    before: Listing,
}

impl Model for Feeder {
    ghost use Rattle.std.specs.Prelude.{List as Items};
    ghost use Rattle.dx_types.specs.declared.Shown.{Shown as AnyShown};

    ghost Value = { Items AnyShown };

    ghost view = { λ f. f.before };
}

/// Tells of each order of a list that the other one does not hold as it is that it has gone.
fn push_gone(told: &mut List<Change>, old: &[Shown], now: &Listing) -> Result<(), NoMemory>
    ensures { OnOk result (told.new ≡ told.old ++ gone_from old.now now.now) }
{
    for shown in old {
        if !now.holds(&shown.order) {
            told.push(Change::Gone(shown.order.id))?;
        }
    }
    Ok(())
}

/// What is left now of an order, where it is the same order and another amount.
fn left_now(shown: &Shown, now: &Shown) -> Option<Change>
    ensures { result ≡ left_now shown.now now.now }
{
    if is_same_order(&now.order, &shown.order) && now.left != shown.left {
        return Some(Change::Left {
            id: shown.order.id,
            left: now.left,
        });
    }
    None
}

/// The same of what a list shows under its id.
fn left_in(now: &Listing, shown: &Shown) -> Option<Change>
    ensures { result ≡ left_in now.now shown.now }
{
    left_now(shown, &now.find(shown.order.id)?)
}

/// Tells of each order that both lists hold as it is what is left of it, where that is another amount.
fn push_left(told: &mut List<Change>, old: &[Shown], now: &Listing) -> Result<(), NoMemory>
    ensures { OnOk result (told.new ≡ told.old ++ left_of old.now now.now) }
{
    for shown in old {
        if let Some(change) = left_in(now, shown) {
            told.push(change)?;
        }
    }
    Ok(())
}

/// Tells of each order of a list that the other one does not hold as it is that it came.
fn push_new(told: &mut List<Change>, old: &Listing, now: &[Shown]) -> Result<(), NoMemory>
    ensures { OnOk result (told.new ≡ told.old ++ all_added (new_ones old.now now.now)) }
{
    for shown in now {
        if !old.holds(&shown.order) {
            told.push(Change::Add(*shown))?;
        }
    }
    Ok(())
}

/// Tells of each order of a list that it came.
fn push_all(told: &mut List<Change>, now: &[Shown]) -> Result<(), NoMemory>
    ensures { OnOk result (told.new ≡ told.old ++ all_added now.now) }
{
    for shown in now {
        told.push(Change::Add(*shown))?;
    }
    Ok(())
}

/// The changes from one list to the next; where it was cleared, the whole list anew.
#[tactic(auto, unfolding(crate::specs::Changes::changes))]
fn changes(cleared: bool, old: &Listing, now: &Listing) -> Result<List<Change>, NoMemory>
    ensures { IfOk result (λ told. told ≡ changes_of cleared old.now now.now) }
{
    let mut told = List::new(now.allocator());
    if cleared {
        told.push(Change::Clear)?;
        push_all(&mut told, now.list().as_slice())?;
        return Ok(told);
    }
    push_gone(&mut told, old.list().as_slice(), now)?;
    push_left(&mut told, old.list().as_slice(), now)?;
    push_new(&mut told, old, now.list().as_slice())?;
    Ok(told)
}

impl Feeder {
    /// A feeder whose list is empty. It takes no memory.
    pub fn new(alloc: Global) -> Feeder
        ensures { result ≡ [] }
    {
        Feeder {
            before: Listing::new(alloc),
        }
    }

    /// The changes from the list of the last step to this one, which is the feeder's list then. Where the list
    /// was cleared in between, they are the whole list anew.
    ///
    /// Whoever follows them from the last list on has this one. `NoMemory` where there is no memory for them;
    /// the feeder is then as before.
    pub fn step(&mut self, now: &List<Shown>, cleared: bool) -> Result<List<Change>, NoMemory>
        requires { MayFollow cleared self.old now.now }
        ensures changes { IfOk result (λ told. told ≡ changes_of cleared self.old now.now) }
        ensures list { self.new ≡ (if is_ok result then now.now else self.old) }
        ensures followed { IfOk result (λ told. follow_all told self.old ≡ Ok now.now) }
    {
        self.before.names_once();
        let after = Listing::of(now)?;
        let told = changes(cleared, &self.before, &after)?;
        self.before = after;
        Ok(told)
    }
}
