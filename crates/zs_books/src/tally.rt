//! A share of one ledger, with its parts and its amount as numbers.

ghost use Rattle.std.specs.Prelude.{◌≡◌, ◌+◌, ◌<◌, ◌≤◌, min};
ghost use Rattle.zs_books.specs.Callers.{all_parts, most};

use std::marker::{Model, PhantomData};
use std::sync::ledger::{Book, Ledger, Share};

// A ledger that is cut into all parts of a session's.
#[derive(Drop)]
struct Cut<L: Ledger> {
    of: PhantomData<L>,
    ghost is: { L.parts ≡ 4294967296 },
}

impl<L: Ledger> Cut<L> {
    /// Says in how many parts the ledger is cut: in 4294967296, those of a session. It does nothing when it runs.
    fn tell(&self)
        ensures { L.parts ≡ 4294967296 }
    {}

    /// The same fact for another share of the ledger.
    fn again(&self) -> Cut<L> {
        self.tell();
        Cut { of: PhantomData }
    }
}

/// A share of a ledger, with its parts and its amount as numbers of the running program. Contracts see the amount however
/// large it is; the number stands still at the end of its type.
#[derive(Drop)]
pub struct Tally<L: Ledger> {
    parts: u64,
    count: u64,
    share: Share<L>,
    cut: Cut<L>,
}

impl<L: Ledger> Model for Tally<L> {
    ghost use Rattle.std.specs.Prelude.{◌≡◌, ◌<◌, min};
    ghost use Rattle.zs_books.specs.Callers.{TallySeen, most};

    ghost Value = { TallySeen };

    ghost view = { λ t. record { parts = t.share.parts; count = t.share.amount } };

    ghost invariant = { λ t. (t.parts ≡ t.share.parts) × (t.count ≡ min t.share.amount most) × (0 < t.share.parts) };
}

impl<L: Ledger> Tally<L> {
    // The share that has all parts of a ledger.
    pub(crate) fn new(share: Share<L>) -> Tally<L>
        requires cut { L.parts ≡ 4294967296 }
        requires parts { share.parts ≡ L.parts }
        requires amount { share.amount ≡ 0 }
        ensures { result ≡ record { parts = all_parts; count = 0 } }
    {
        Tally {
            parts: 4294967296,
            count: 0,
            share,
            cut: Cut { of: PhantomData },
        }
    }

    /// How many parts it has.
    pub fn parts(&self) -> u64
        ensures { result ≡ self.now.parts }
    {
        self.parts
    }

    /// Its amount.
    pub fn count(&self) -> u64
        ensures { result ≡ min self.now.count most }
    {
        self.count
    }

    /// A share with some of the parts, and no amount.
    pub fn split(&mut self, parts: u64) -> Tally<L>
        requires { (0 < parts) × (parts < self.old.parts) }
        ensures other { result ≡ record { parts = parts; count = 0 } }
        ensures parts { self.new.parts + parts ≡ self.old.parts }
        ensures count { self.new.count ≡ self.old.count }
    {
        let share = self.share.split_off(parts, 0);
        self.parts -= parts;
        Tally {
            parts,
            count: 0,
            share,
            cut: self.cut.again(),
        }
    }

    /// Both shares in one.
    pub fn join(self, other: Tally<L>) -> Tally<L>
        ensures { result ≡ record { parts = self.parts + other.parts; count = self.count + other.count } }
    {
        let Tally {
            parts,
            count,
            mut share,
            cut,
        } = self;
        let Tally {
            parts: more_parts,
            count: more,
            share: other,
            cut: _,
        } = other;
        cut.tell();
        share.merge(other);
        Tally {
            parts: parts + more_parts,
            count: count.saturating_add(more),
            share,
            cut,
        }
    }

    // Raises the amount, and the total of the book with it.
    pub(crate) fn add(&mut self, book: &mut Book<L>, amount: u64)
        ensures total { book.new.total ≡ book.old.total + amount }
        ensures count { self.new ≡ record self.old { count = self.old.count + amount } }
    {
        book.add(&mut self.share, amount);
        self.count = self.count.saturating_add(amount);
    }

    // Changes nothing, and tells how the amount stands to the total of the book.
    pub(crate) fn audit(&mut self, book: &mut Book<L>)
        ensures total { book.new.total ≡ book.old.total }
        ensures same { self.new ≡ self.old }
        ensures bound { self.old.count ≤ book.old.total }
        ensures whole { self.old.parts ≡ all_parts → self.old.count ≡ book.old.total }
    {
        self.cut.tell();
        book.audit(&mut self.share);
    }
}
