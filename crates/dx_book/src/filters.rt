//! The tests by which a book is read.

ghost use Rattle.std.specs.Prelude.{◌≡◌};

use dx_types::Order;

/// A test of orders, for [`Book::retain`](crate::Book::retain).
pub trait OrderTest {
    ghost use Rattle.std.specs.Prelude.{Bool, ◌≡◌};
    ghost use Rattle.dx_types.specs.declared.Order.{Order as AnyOrder};

    /// Whether an order passes.
    ghost passes: { Self → AnyOrder → Bool };

    /// Whether an order passes.
    fn passes(&self, order: &Order) -> bool
        ensures { result ≡ passes self.now order.now };
}
