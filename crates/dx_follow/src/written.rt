//! Writes held orders.

ghost use Rattle.std.specs.Prelude.{◌≡◌, ◌++◌, OnOk, flat_map};
ghost use Rattle.std.specs.Fmt.{decimal};
ghost use Rattle.dx_spec.specs.Orders.{byte_of_kind};
ghost use Rattle.dx_print.specs.Numbers.{spaced};
ghost use Rattle.dx_follow.specs.Books.{order_numbers, held_line, book_lines};

use dx_print::{push_number, push_text};
use dx_types::{Kind, NoMemory, Order, Shown};

/// Puts a number behind the others.
fn push_first(out: &mut Vec<u8>, number: u32) -> Result<(), NoMemory>
    ensures { OnOk result (out.new.items ≡ out.old.items ++ decimal number) }
{
    let text = number.to_string(*out.allocator())?;
    push_text(out, text.as_str())
}

/// Puts numbers behind the others, each behind a space.
fn push_numbers(out: &mut Vec<u8>, numbers: &[u64]) -> Result<(), NoMemory>
    ensures { OnOk result (out.new.items ≡ out.old.items ++ flat_map spaced numbers.now) }
{
    for number in numbers {
        push_number(out, *number)?;
    }
    Ok(())
}

/// The number of a kind.
fn number_of(kind: Kind) -> u64
    ensures { result ≡ byte_of_kind kind }
{
    match kind {
        Kind::Gtc => 0,
        Kind::Ioc => 1,
        Kind::PostOnly => 2,
        Kind::ReduceIoc => 3,
    }
}

/// Puts the ten numbers of an order behind the others, each behind a space.
fn push_order(out: &mut Vec<u8>, o: &Order) -> Result<(), NoMemory>
    ensures { OnOk result (out.new.items ≡ out.old.items ++ flat_map spaced (order_numbers o.now)) }
{
    let id = o.id;
    let numbers = [
        u64::from(id.who.owner),
        u64::from(id.who.number),
        u64::from(id.client),
        u64::from(id.flags),
        u64::from(id.market),
        u64::from(o.buy),
        o.size,
        o.subticks,
        u64::from(o.until),
        number_of(o.kind),
    ];
    push_numbers(out, &numbers)
}

/// Puts the line of a held order behind the others: its node, its ten numbers and what is left of it, in base quantums.
pub fn push_held(out: &mut Vec<u8>, node: u32, shown: &Shown) -> Result<(), NoMemory>
    ensures { OnOk result (out.new.items ≡ out.old.items ++ held_line node shown.now) }
{
    push_first(out, node)?;
    push_order(out, &shown.order)?;
    push_number(out, shown.left)?;
    out.push(b'\n')?;
    Ok(())
}

/// Puts the lines of a book behind the others, in its order.
pub fn push_book(out: &mut Vec<u8>, node: u32, book: &[Shown]) -> Result<(), NoMemory>
    ensures { OnOk result (out.new.items ≡ out.old.items ++ book_lines node book.now) }
{
    for shown in book {
        push_held(out, node, shown)?;
    }
    Ok(())
}
