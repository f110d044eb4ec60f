//! The book of one ledger, with its total as a number.

ghost use Rattle.std.specs.Prelude.{◌≡◌, ◌+◌, ◌≤◌, ◌<◌, true, min};
ghost use Rattle.zs_books.specs.Callers.{all_parts, most};

use crate::tally::Tally;
use std::marker::Model;
use std::sync::ledger::{Book, Ledger};

/// The book of a ledger, with its total as a number of the running program. Contracts see the total however large it is;
/// the number stands still at the end of its type.
#[derive(Drop)]
pub struct Account<L: Ledger> {
    total: u64,
    book: Book<L>,
}

impl<L: Ledger> Model for Account<L> {
    ghost use Rattle.std.specs.Prelude.{◌≡◌, min};
    ghost use Rattle.zs_books.specs.Callers.{AccountSeen, most};

    ghost Value = { AccountSeen };

    ghost view = { λ a. record { total = a.book.total } };

    ghost invariant = { λ a. a.total ≡ min a.book.total most };
}

impl<L: Ledger> Account<L> {
    // An account of a new book.
    pub(crate) fn new(book: Book<L>) -> Account<L>
        requires { book.total ≡ 0 }
        ensures { result ≡ record { total = 0 } }
    {
        Account { total: 0, book }
    }

    /// Adds to a share and to the total.
    pub fn add(&mut self, tally: &mut Tally<L>, amount: u64)
        ensures total { self.new ≡ record { total = self.old.total + amount } }
        ensures count { tally.new ≡ record tally.old { count = tally.old.count + amount } }
    {
        tally.add(&mut self.book, amount);
        self.total = self.total.saturating_add(amount);
    }

    /// Whether a share has the total as its amount. It changes nothing. No share has more, and the share that has all parts
    /// has it.
    pub fn is_all(&mut self, tally: &mut Tally<L>) -> bool
        ensures same { self.new ≡ self.old }
        ensures tally { tally.new ≡ tally.old }
        ensures bound { tally.old.count ≤ self.old.total }
        ensures whole { tally.old.parts ≡ all_parts → tally.old.count ≡ self.old.total }
        ensures all { tally.old.count ≡ self.old.total → result ≡ true }
        ensures small { self.old.total < most → result ≡ true → tally.old.count ≡ self.old.total }
    {
        tally.audit(&mut self.book);
        tally.count() == self.total
    }
}
