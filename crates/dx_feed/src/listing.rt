//! A list of resting orders, in which the place of an id is found by hash.

ghost use Rattle.std.specs.Prelude.{◌≡◌, ◌<◌, [], ◌∷◌, ◌++◌, None, IfOk, is_ok, if◌then◌else◌, length, MatchOption};
ghost use Rattle.std.specs.List.{remove};
ghost use Rattle.dx_feed.specs.Lists.{NamesOnce, shown_of, holds};
ghost use Rattle.dx_feed.specs.Following.{without, with_left};
ghost use Rattle.dx_feed.specs.Keys.{left_at, IsPlaceOf};

use crate::key::IdKey;
use dx_orders::is_same_order;
use dx_types::{List, NoMemory, Order, OrderId, Shown};
use indexmap::IndexSet;
use std::alloc::Global;
use std::marker::Model;
use std::mem;

/// Resting orders in a list that names no id twice. Contracts see the list.
#[derive(Debug, Drop)]
pub(crate) struct Listing {
    list: List<Shown>,
    /// The ids of the list, in its order.
    keys: IndexSet<IdKey>,
}

impl Model for Listing {
    ghost use Rattle.std.specs.Prelude.{List as Items};
    ghost use Rattle.dx_types.specs.declared.Shown.{Shown as AnyShown};

    ghost Value = { Items AnyShown };

    ghost use Rattle.dx_feed.specs.Keys.{IsKept};

    ghost view = { λ l. l.list };

    ghost invariant = { λ l. IsKept l.list l.keys.keys };
}

/// Takes the element of a place out of a list.
fn remove_at(list: &mut List<Shown>, place: usize)
    requires { place < length list.old }
    ensures { list.new ≡ remove list.old place }
{
    let alloc = list.allocator();
    let mut items = mem::replace(list, List::new(alloc)).into_vec();
    items.remove(place);
    *list = List::from_vec(items);
}

/// Sets what is left of the order at a place of a list.
fn set_left_at(list: &mut List<Shown>, place: usize, left: u64)
    requires { place < length list.old }
    ensures { list.new ≡ left_at list.old place left }
{
    let alloc = list.allocator();
    let mut items = mem::replace(list, List::new(alloc)).into_vec();
    items[place].left = left;
    *list = List::from_vec(items);
}

impl Listing {
    /// The empty list. It takes no memory.
    pub(crate) fn new(alloc: Global) -> Listing
        ensures { result ≡ [] }
    {
        Listing {
            list: List::new(alloc),
            keys: IndexSet::new(alloc),
        }
    }

    /// The listing of a list. `NoMemory` where there is no memory for it.
    pub(crate) fn of(list: &List<Shown>) -> Result<Listing, NoMemory>
        requires { NamesOnce list.now }
        ensures { IfOk result (λ listing. listing ≡ list.now) }
    {
        let mut listing = Listing::new(list.allocator());
        for shown in list.as_slice() {
            listing.push(*shown)?;
        }
        Ok(listing)
    }

    /// The list, lent.
    pub(crate) fn list(&self) -> &List<Shown>
        ensures list { result.now ≡ self.now }
        ensures once { NamesOnce self.now }
    {
        &self.list
    }

    /// No id is named twice.
    pub(crate) fn names_once(&self)
        ensures { NamesOnce self.now }
    {
        let _list = self.list.as_slice();
    }

    /// The allocator that it keeps.
    pub(crate) fn allocator(&self) -> Global {
        self.list.allocator()
    }

    /// The place of the order of an id, if the id is named.
    pub(crate) fn place_of(&self, id: OrderId) -> Option<usize>
        ensures { MatchOption result (shown_of self.now id ≡ None) (IsPlaceOf self.now id) }
    {
        self.keys.get_index_of(&IdKey::of(id))
    }

    /// What it shows under an id, if the id is named.
    pub(crate) fn find(&self, id: OrderId) -> Option<Shown>
        ensures { result ≡ shown_of self.now id }
    {
        match self.place_of(id) {
            Some(place) => self.list.get(place).copied(),
            None => None,
        }
    }

    /// Whether it holds an order as it is.
    pub(crate) fn holds(&self, order: &Order) -> bool
        ensures { result ≡ holds self.now order.now }
    {
        match self.find(order.id) {
            Some(shown) => is_same_order(&shown.order, order),
            None => false,
        }
    }

    /// Puts an order whose id is not named behind all others. `NoMemory` where there is no memory for it; the
    /// listing is then as before.
    pub(crate) fn push(&mut self, shown: Shown) -> Result<(), NoMemory>
        requires { shown_of self.old shown.order.id ≡ None }
        ensures { self.new ≡ (if is_ok result then self.old ++ shown ∷ [] else self.old) }
    {
        self.keys.reserve(1)?;
        self.list.push(shown)?;
        self.keys.insert(IdKey::of(shown.order.id)).unwrap();
        Ok(())
    }

    /// Takes the order of an id out, if the id is named.
    #[tactic(auto, using(crate::proofs::Places::none_removed))]
    pub(crate) fn remove(&mut self, id: OrderId)
        ensures { self.new ≡ without self.old id }
    {
        match self.place_of(id) {
            Some(place) => {
                remove_at(&mut self.list, place);
                self.keys.shift_remove_index(place);
            }
            None => {}
        }
    }

    /// Sets what is left of the order of an id, if the id is named.
    #[tactic(auto, using(crate::proofs::Places::none_left))]
    pub(crate) fn set_left(&mut self, id: OrderId, left: u64)
        ensures { self.new ≡ with_left self.old id left }
    {
        match self.place_of(id) {
            Some(place) => set_left_at(&mut self.list, place, left),
            None => {}
        }
    }
}
