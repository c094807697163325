ghost use Rattle.std.specs.Prelude.{◌≡◌};
ghost use Rattle.dx_queue.specs.Keys.{key_to, id_to};

use dx_types::{OrderId, SubaccountId};

/// An order's id as a key that can be hashed.
#[derive(Clone, Copy, Debug, PartialEq, Eq, Hash)]
pub struct IdKey {
    owner: u32,
    number: u32,
    client: u32,
    flags: u32,
    market: u32,
}

impl IdKey {
    /// The key of an id.
    pub(crate) fn of(id: OrderId) -> IdKey
        ensures { result ≡ key_to id }
    {
        IdKey {
            owner: id.who.owner,
            number: id.who.number,
            client: id.client,
            flags: id.flags,
            market: id.market,
        }
    }

    /// The id of a key.
    pub(crate) fn id(self) -> OrderId
        ensures { result ≡ id_to self }
    {
        OrderId {
            who: SubaccountId {
                owner: self.owner,
                number: self.number,
            },
            client: self.client,
            flags: self.flags,
            market: self.market,
        }
    }
}
