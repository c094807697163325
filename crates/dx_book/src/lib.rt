//! The orders of one node: [`Book`], a list in order of arrival with at most one order per id.
//!
//! It stands on `dx_types` for orders, on `dx_arena` for the nodes that they stand in, and on `dx_node_spec`,
//! whose `Book` says what the orders of a side are and which is the best of them.
//!
//! Contracts see a book as its list, the key of each order, and the number of orders for which room is made.
//! The list may be read by id, by side and price, by account and by end, and each of these ways is a filter of
//! the list. An [`OrderKey`] names one order until that order is removed. Each order is one node of an arena,
//! linked with its neighbours in three chains, each in order of arrival: the orders of its market, side and
//! price, those of its account, and those of its flags and end ([`Book::arena`]). The ends of the chains stand
//! in tables by rising names. Each order has a number of arrival, by which its place among all orders is found by
//! halves: no removal and no search goes through all orders. Memory is taken by [`Book::reserve`], which makes
//! room for one order more, and by the copy that [`Book::orders`] gives, and by nothing else.
//!
//! [`Book::first`], [`Book::next`], [`Book::order`], [`Book::add`] and [`Book::remove`] say how many nodes they
//! visit at most; [`uncounted`] has them for those who count nothing.
#![tactic(auto)]

mod arrivals;
mod best;
mod book;
mod ending;
mod ends;
mod fault;
mod filters;
mod key;
mod linking;
mod names;
mod parts;
mod reading;
mod retaining;
mod table;
#[cfg(test)]
mod tests;
pub mod uncounted;

pub use book::Book;
pub use fault::BookFault;
pub use filters::OrderTest;
pub use key::OrderKey;
