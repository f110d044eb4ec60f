//! Whoever steps a session: shares in its ledgers, and the last receipt.

ghost use Rattle.std.specs.Prelude.{◌≡◌, ◌+◌, ◌<◌, true, Some, None, min};
ghost use Rattle.std.specs.Option.{option_copied};
ghost use Rattle.zs_books.specs.Callers.{most, all_parts, with_parts, joined, IsWithin, IsAll};

use crate::account::Account;
use crate::books::Books;
use crate::tally::Tally;
use std::marker::Model;

/// Whoever steps a session: a share in each of its three ledgers, and the receipt of the last event that the session took
/// from here. Contracts see the parts, the three amounts and the receipt.
///
/// Its counts are exact to contracts; the numbers that the running program reads stand still at the end of their type.
#[derive(Drop)]
pub struct Caller<B: Books, T> {
    entries: Tally<B::Entries>,
    sent: Tally<B::Sent>,
    drained: Tally<B::Drained>,
    last: Option<T>,
}

impl<B: Books, T> Model for Caller<B, T> {
    ghost use Rattle.std.specs.Prelude.{◌≡◌, ◌<◌};
    ghost use Rattle.zs_books.specs.Callers.{CallerSeen};

    ghost Value = { CallerSeen T };

    ghost view = { λ c. record { parts = c.entries.parts; count = c.entries.count; sent = c.sent.count; drained = c.drained.count; last = c.last } };

    ghost invariant = { λ c. (c.sent.parts ≡ c.entries.parts) × (c.drained.parts ≡ c.entries.parts) × (0 < c.entries.parts) };
}

impl<B: Books, T: Drop> Caller<B, T> {
    // A caller without a receipt.
    pub(crate) fn new(
        entries: Tally<B::Entries>,
        sent: Tally<B::Sent>,
        drained: Tally<B::Drained>,
    ) -> Caller<B, T>
        requires { (sent.parts ≡ entries.parts) × (drained.parts ≡ entries.parts) × (0 < entries.parts) }
        ensures { result ≡ record { parts = entries.parts; count = entries.count; sent = sent.count; drained = drained.count; last = None } }
    {
        Caller {
            entries,
            sent,
            drained,
            last: None,
        }
    }

    /// Another caller, with some of the parts, that counts nothing yet.
    pub fn split(&mut self, parts: u64) -> Caller<B, T>
        requires { (0 < parts) × (parts < self.old.parts) }
        ensures other { result ≡ record { parts = parts; count = 0; sent = 0; drained = 0; last = None } }
        ensures parts { self.new.parts + parts ≡ self.old.parts }
        ensures rest { self.new ≡ with_parts self.new.parts self.old }
    {
        let entries = self.entries.split(parts);
        let sent = self.sent.split(parts);
        let drained = self.drained.split(parts);
        Caller::new(entries, sent, drained)
    }

    /// Both callers in one, which keeps the receipt of the first.
    pub fn join(self, other: Caller<B, T>) -> Caller<B, T>
        ensures { result ≡ joined self other }
    {
        let Caller {
            entries,
            sent,
            drained,
            last,
        } = self;
        let Caller {
            entries: more_entries,
            sent: more_sent,
            drained: more_drained,
            last: other,
        } = other;
        drop(other);
        Caller {
            entries: entries.join(more_entries),
            sent: sent.join(more_sent),
            drained: drained.join(more_drained),
            last,
        }
    }

    /// How many parts it has of each ledger.
    pub fn parts(&self) -> u64
        ensures { result ≡ self.now.parts }
    {
        self.entries.parts()
    }

    /// How many events the session took from here.
    pub fn count(&self) -> u64
        ensures { result ≡ min self.now.count most }
    {
        self.entries.count()
    }

    /// How many messages these events sent.
    pub fn sent(&self) -> u64
        ensures { result ≡ min self.now.sent most }
    {
        self.sent.count()
    }

    /// How many messages were drained from here.
    pub fn drained(&self) -> u64
        ensures { result ≡ min self.now.drained most }
    {
        self.drained.count()
    }

    /// The receipt of the last event that the session took from here.
    pub fn last(&self) -> Option<&T>
        ensures { option_copied result ≡ self.now.last }
    {
        self.last.as_ref()
    }

    /// Keeps a receipt in place of the last one.
    pub fn keep(&mut self, receipt: T)
        ensures { self.new ≡ record self.old { last = Some receipt } }
    {
        let last = self.last.replace(receipt);
        drop(last);
    }

    // Counts one event more, and the messages that it sent, in both books.
    pub(crate) fn add_entry(
        &mut self,
        entries: &mut Account<B::Entries>,
        sent: &mut Account<B::Sent>,
        messages: u64,
    )
        ensures entries { entries.new ≡ record { total = entries.old.total + 1 } }
        ensures sent { sent.new ≡ record { total = sent.old.total + messages } }
        ensures caller { self.new ≡ record self.old { count = self.old.count + 1; sent = self.old.sent + messages } }
    {
        entries.add(&mut self.entries, 1);
        sent.add(&mut self.sent, messages);
    }

    // Counts messages that were drained, in the book too.
    pub(crate) fn add_drained(&mut self, drained: &mut Account<B::Drained>, messages: u64)
        ensures drained { drained.new ≡ record { total = drained.old.total + messages } }
        ensures caller { self.new ≡ record self.old { drained = self.old.drained + messages } }
    {
        drained.add(&mut self.drained, messages);
    }

    // Whether it counts what the books do. It changes nothing.
    pub(crate) fn is_all(
        &mut self,
        entries: &mut Account<B::Entries>,
        sent: &mut Account<B::Sent>,
        drained: &mut Account<B::Drained>,
    ) -> bool
        ensures entries { entries.new ≡ entries.old }
        ensures sent { sent.new ≡ sent.old }
        ensures drained { drained.new ≡ drained.old }
        ensures same { self.new ≡ self.old }
        ensures within { IsWithin self.old record { entries = entries.old.total; sent = sent.old.total; drained = drained.old.total } }
        ensures whole { self.old.parts ≡ all_parts → IsAll self.old record { entries = entries.old.total; sent = sent.old.total; drained = drained.old.total } }
        ensures all { IsAll self.old record { entries = entries.old.total; sent = sent.old.total; drained = drained.old.total } → result ≡ true }
        ensures small { entries.old.total < most → result ≡ true → self.old.count ≡ entries.old.total }
        ensures small_sent { sent.old.total < most → result ≡ true → self.old.sent ≡ sent.old.total }
        ensures small_drained { drained.old.total < most → result ≡ true → self.old.drained ≡ drained.old.total }
    {
        let entries = entries.is_all(&mut self.entries);
        let sent = sent.is_all(&mut self.sent);
        let drained = drained.is_all(&mut self.drained);
        entries && sent && drained
    }
}
