//! The books of the three ledgers of a session.

ghost use Rattle.std.specs.Prelude.{◌≡◌, ◌+◌, ◌<◌, true};
ghost use Rattle.zs_books.specs.Callers.{all_parts, most, new_caller, no_entries, IsWithin, IsAll};

use crate::account::Account;
use crate::books::Books;
use crate::caller::Caller;
use crate::tally::Tally;
use std::marker::Model;
use std::sync::ledger::Blank;

/// The books of the three ledgers of a session.
#[derive(Drop)]
pub struct Accounts<B: Books> {
    entries: Account<B::Entries>,
    sent: Account<B::Sent>,
    drained: Account<B::Drained>,
}

impl<B: Books> Model for Accounts<B> {
    ghost use Rattle.zs_books.specs.Callers.{AccountsSeen};

    ghost Value = { AccountsSeen };

    ghost view = { λ a. record { entries = a.entries.total; sent = a.sent.total; drained = a.drained.total } };
}

impl<B: Books> Accounts<B> {
    /// Three empty books, and the caller that has all parts of them.
    pub fn open<T: Drop>(entries: Blank, sent: Blank, drained: Blank) -> (Accounts<B>, Caller<B, T>)
        requires entries { (entries.name ≡ B.Entries.name) × (entries.parts ≡ B.Entries.parts) × (B.Entries.parts ≡ 4294967296) }
        requires sent { (sent.name ≡ B.Sent.name) × (sent.parts ≡ B.Sent.parts) × (B.Sent.parts ≡ 4294967296) }
        requires drained { (drained.name ≡ B.Drained.name) × (drained.parts ≡ B.Drained.parts) × (B.Drained.parts ≡ 4294967296) }
        ensures accounts { result.0 ≡ no_entries }
        ensures caller { result.1 ≡ new_caller }
    {
        let (entries, entries_share) = entries.open::<B::Entries>();
        let (sent, sent_share) = sent.open::<B::Sent>();
        let (drained, drained_share) = drained.open::<B::Drained>();
        let accounts = Accounts {
            entries: Account::new(entries),
            sent: Account::new(sent),
            drained: Account::new(drained),
        };
        let caller = Caller::new(
            Tally::new(entries_share),
            Tally::new(sent_share),
            Tally::new(drained_share),
        );
        (accounts, caller)
    }

    /// Counts one event more, and the messages that it sent.
    pub fn add_entry<T: Drop>(&mut self, caller: &mut Caller<B, T>, messages: u64)
        ensures accounts { self.new ≡ record self.old { entries = self.old.entries + 1; sent = self.old.sent + messages } }
        ensures caller { caller.new ≡ record caller.old { count = caller.old.count + 1; sent = caller.old.sent + messages } }
    {
        caller.add_entry(&mut self.entries, &mut self.sent, messages);
    }

    /// Counts messages that were drained.
    pub fn add_drained<T: Drop>(&mut self, caller: &mut Caller<B, T>, messages: u64)
        ensures accounts { self.new ≡ record self.old { drained = self.old.drained + messages } }
        ensures caller { caller.new ≡ record caller.old { drained = caller.old.drained + messages } }
    {
        caller.add_drained(&mut self.drained, messages);
    }

    /// Whether the caller counts what the books do. It changes nothing. No caller counts more, and the caller that has all
    /// parts counts the same.
    pub fn are_all<T: Drop>(&mut self, caller: &mut Caller<B, T>) -> bool
        ensures same { self.new ≡ self.old }
        ensures caller { caller.new ≡ caller.old }
        ensures within { IsWithin caller.old self.old }
        ensures whole { caller.old.parts ≡ all_parts → IsAll caller.old self.old }
        ensures all { IsAll caller.old self.old → result ≡ true }
        ensures small { self.old.entries < most → result ≡ true → caller.old.count ≡ self.old.entries }
        ensures small_sent { self.old.sent < most → result ≡ true → caller.old.sent ≡ self.old.sent }
        ensures small_drained { self.old.drained < most → result ≡ true → caller.old.drained ≡ self.old.drained }
    {
        caller.is_all(&mut self.entries, &mut self.sent, &mut self.drained)
    }
}
