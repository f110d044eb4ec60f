//! A session's cell with its books.
ghost use Rattle.std.specs.Prelude.{◌≡◌, ◌↔◌, ◌<◌, ◌+◌, [], ◌++◌, None, Some, true, IsTrue, IfSome, IfNone, IsSome, is_some, length, map, option_map, IfOk, IfErr, OnErr};
ghost use Rattle.std.specs.Arc.{arc_value};
ghost use Rattle.std.specs.Option.{option_to_list};
ghost use Rattle.zs_core.specs.Settings.{is_valid};
ghost use Rattle.zs_turns.specs.Gates.{takes_handler};
ghost use Rattle.zs_posts.specs.Settled.{all_given_back, held_at, taken_out};
ghost use Rattle.zs_posts.specs.Calls.{call_seen, all_lents};
ghost use Rattle.zs_hands.specs.Answers.{AreOfRoom, ran_lents, reports_of};
ghost use Rattle.zs_exchange.specs.Exchange.{IsNew};
ghost use Rattle.zs_exchange.specs.Ends.{IsIdle, GivesOut, AreOf};
ghost use Rattle.zs_session_cell.specs.Journals.{Advances, Follows, IsOverdrawn, closed_in, taken_in, handler_back};
ghost use Rattle.zs_books.specs.Callers.{all_parts, most, new_caller};
ghost use Rattle.zs_held.specs.Messages.{turn_messages, messages_of};
ghost use Rattle.zs_held.specs.Receipts.{asked_of};
ghost use Rattle.zs_held.specs.Held.{held_with, AreFew, receipt_of, entered, counted, drained_by, CountsAll};

use crate::asked::Asked;
use crate::entries::Entries;
use crate::messages::{count_messages, count_of};
pub use receipt::Receipt;
use std::alloc::{AllocError, Global};
use std::marker::{Model, PhantomData};
use std::sync::Arc;
use std::sync::ledger::Blank;
use zs_books::{Accounts, Books};
use zs_core::Settings;
use zs_events::{Event, Turn};
use zs_gate::NoPass;
use zs_hands::{Closing, Ending, Handed, Ran};
use zs_posts::{Key, Room};
use zs_session_cell::{Entry, Handing, NotTaken, SessionCell};
use zs_shared::Shared;
use zs_turns::Item;
use zs_wire::Message;

mod receipt;

type Caller<B> = zs_books::Caller<B, Receipt<B>>;

/// A session's cell with the books of its three ledgers. Contracts see the session, and how many of its messages were drained.
///
/// Its settings are those of the ledger of entries, and the books count the entries of its journal, the messages that their
/// turns sent, and those that were drained: what waits to be drained is all but these.
pub struct Held<H, B: Books> {
    cell: SessionCell<H>,
    accounts: Accounts<B>,
}

impl<H: Drop, B: Books> Drop for Held<H, B> {
    /// Lets go of the session, and then of the books that counted it.
    fn drop(self) {
        let Held { cell, accounts } = self;
        drop(cell);
        drop(accounts);
    }
}

impl<H, B: Books> Model for Held<H, B> {
    ghost use Rattle.zs_held.specs.Held.{HeldSeen, IsBooked};

    ghost Value = { HeldSeen H };

    ghost view = { λ h. record { session = h.cell; drained = h.accounts.drained } };

    ghost invariant = { λ h. IsBooked B.Entries.settings h.cell h.accounts };
}

// Counts the event that a session has taken last, with its turn: the receipt for it.
fn enter<H: Drop, B: Books>(
    cell: &SessionCell<H>,
    accounts: &mut Accounts<B>,
    event: Shared<Event>,
    came: bool,
    turn: Shared<Turn>,
    caller: &mut Caller<B>,
) -> Receipt<B>
    requires { accounts.old.entries + 1 ≡ length cell.now.journal }
    ensures accounts { accounts.new ≡ record accounts.old { entries = accounts.old.entries + 1; sent = accounts.old.sent + length (turn_messages turn) } }
    ensures receipt { result ≡ record { place = length cell.now.journal; count = caller.old.count + 1; event = event; came = came; turn = turn; asked = None } }
    ensures caller { caller.new ≡ entered turn caller.old }
{
    accounts.add_entry(caller, count_messages(turn.get()));
    accounts.are_all(caller);
    Receipt {
        place: cell.journal().len() as u64,
        count: caller.count(),
        event,
        came,
        turn,
        asked: None,
        of: PhantomData,
    }
}

// An event that finds no memory, with its handler.
fn no_memory<H>(event: Shared<Event>, handler: Option<Arc<H>>) -> NotTaken<H>
    ensures { result ≡ record { why = NoPass.NoMemory; event = event; handler = handler } }
{
    NotTaken {
        why: NoPass::NoMemory,
        event,
        handler,
    }
}

// An event that wasn't taken, of which the copy goes.
fn give_up<H>(kept: Shared<Event>, refused: NotTaken<H>) -> NotTaken<H>
    ensures { result ≡ refused }
{
    drop(kept);
    refused
}

// Counts the event that a session has taken last, and whose turn was handed out: the receipt for it.
fn receive<H: Drop, B: Books, D: Drop>(
    cell: &SessionCell<H>,
    accounts: &mut Accounts<B>,
    event: Shared<Event>,
    came: bool,
    handing: &mut Handing<H, D>,
    caller: &mut Caller<B>,
) -> Receipt<B>
    requires entries { accounts.old.entries + 1 ≡ length cell.now.journal }
    requires spare { handing.old.spare ≡ Some handing.old.turn }
    ensures accounts { accounts.new ≡ counted handing.old.turn accounts.old }
    ensures receipt { result ≡ record { place = length cell.now.journal; count = caller.old.count + 1; event = event; came = came; turn = handing.old.turn; asked = None } }
    ensures caller { caller.new ≡ entered handing.old.turn caller.old }
    ensures handing { handing.new ≡ record handing.old { spare = None } }
{
    let Some(turn) = handing.spare_turn() else {
        unreachable!()
    };
    enter(cell, accounts, event, came, turn, caller)
}

// Takes an event into a session and its books, with a copy of it: the receipt.
fn take_kept<H: Drop, B: Books, D: Drop>(
    cell: &mut SessionCell<H>,
    accounts: &mut Accounts<B>,
    kept: Shared<Event>,
    event: Shared<Event>,
    handler: Option<Arc<H>>,
    caller: &mut Caller<B>,
) -> Result<(Handing<H, D>, Receipt<B>), NotTaken<H>>
    requires kept { kept ≡ event }
    requires handler { is_some handler ≡ true → takes_handler event ≡ true }
    requires entries { accounts.old.entries ≡ length cell.old.journal }
    ensures ok { IfOk result (λ given. Advances event (option_map arc_value handler) cell.old given.0.turn (map call_seen given.0.calls) cell.new) }
    ensures accounts { IfOk result (λ given. accounts.new ≡ counted given.0.turn accounts.old) }
    ensures refused { IfOk result (λ given. given.0.back ≡ handler_back given.0.turn (option_map arc_value handler)) }
    ensures lents { IfOk result (λ given. AreOfRoom cell.old.exchange.posts.room (all_lents (map call_seen given.0.calls))) }
    ensures room { cell.new.exchange.posts.room ≡ cell.old.exchange.posts.room }
    ensures receipt { IfOk result (λ given. given.1 ≡ receipt_of event (is_some handler) given.0.turn (length cell.old.journal) caller.old.count) }
    ensures caller { IfOk result (λ given. caller.new ≡ entered given.0.turn caller.old) }
    ensures back { IfErr result (λ refused. (refused.event ≡ event) × (refused.handler ≡ handler)) }
    ensures full { IfErr result (λ refused. refused.why ≡ NoPass.Full → IsOverdrawn event (option_map arc_value handler) cell.old) }
    ensures err { OnErr result (cell.new ≡ cell.old) }
    ensures books { OnErr result (accounts.new ≡ accounts.old) }
    ensures kept { OnErr result (caller.new ≡ caller.old) }
{
    let came = handler.is_some();
    match cell.take(event, handler) {
        Ok(mut handing) => {
            let receipt = receive(cell, accounts, kept, came, &mut handing, caller);
            Ok((handing, receipt))
        }
        Err(refused) => Err(give_up(kept, refused)),
    }
}

// Takes an event into a session and its books: the receipt for it.
fn take_parts<H: Drop, B: Books, D: Drop>(
    cell: &mut SessionCell<H>,
    accounts: &mut Accounts<B>,
    event: Shared<Event>,
    handler: Option<Arc<H>>,
    caller: &mut Caller<B>,
) -> Result<(Handing<H, D>, Receipt<B>), NotTaken<H>>
    requires handler { is_some handler ≡ true → takes_handler event ≡ true }
    requires entries { accounts.old.entries ≡ length cell.old.journal }
    ensures ok { IfOk result (λ given. Advances event (option_map arc_value handler) cell.old given.0.turn (map call_seen given.0.calls) cell.new) }
    ensures accounts { IfOk result (λ given. accounts.new ≡ counted given.0.turn accounts.old) }
    ensures refused { IfOk result (λ given. given.0.back ≡ handler_back given.0.turn (option_map arc_value handler)) }
    ensures lents { IfOk result (λ given. AreOfRoom cell.old.exchange.posts.room (all_lents (map call_seen given.0.calls))) }
    ensures room { cell.new.exchange.posts.room ≡ cell.old.exchange.posts.room }
    ensures receipt { IfOk result (λ given. given.1 ≡ receipt_of event (is_some handler) given.0.turn (length cell.old.journal) caller.old.count) }
    ensures caller { IfOk result (λ given. caller.new ≡ entered given.0.turn caller.old) }
    ensures back { IfErr result (λ refused. (refused.event ≡ event) × (refused.handler ≡ handler)) }
    ensures full { IfErr result (λ refused. refused.why ≡ NoPass.Full → IsOverdrawn event (option_map arc_value handler) cell.old) }
    ensures err { OnErr result (cell.new ≡ cell.old) }
    ensures books { OnErr result (accounts.new ≡ accounts.old) }
    ensures kept { OnErr result (caller.new ≡ caller.old) }
{
    match event.try_clone() {
        Ok(kept) => take_kept(cell, accounts, kept, event, handler, caller),
        Err(_) => Err(no_memory(event, handler)),
    }
}

impl<H: Drop, B: Books> Held<H, B> {
    /// A new session, in which nothing is declared, and the caller that has all parts of its ledgers.
    ///
    /// # Errors
    ///
    /// Want of memory alone.
    pub fn new(
        alloc: Global,
        settings: &Settings,
        entries: Blank,
        sent: Blank,
        drained: Blank,
    ) -> Result<(Held<H, B>, Caller<B>), AllocError>
        requires valid { IsTrue (is_valid settings.now) }
        requires settings { settings.now ≡ B.Entries.settings }
        requires entries { (entries.name ≡ B.Entries.name) × (entries.parts ≡ B.Entries.parts) × (B.Entries.parts ≡ 4294967296) }
        requires sent { (sent.name ≡ B.Sent.name) × (sent.parts ≡ B.Sent.parts) × (B.Sent.parts ≡ 4294967296) }
        requires drained { (drained.name ≡ B.Drained.name) × (drained.parts ≡ B.Drained.parts) × (B.Drained.parts ≡ 4294967296) }
        ensures settings { IfOk result (λ made. made.0.session.settings ≡ settings.now) }
        ensures journal { IfOk result (λ made. made.0.session.journal ≡ []) }
        ensures exchange { IfOk result (λ made. IsNew settings.now.tag true made.0.session.exchange) }
        ensures drained { IfOk result (λ made. made.0.drained ≡ 0) }
        ensures caller { IfOk result (λ made. made.1 ≡ new_caller) }
    {
        let cell = SessionCell::new(alloc, settings, true)?;
        let (accounts, caller) = Accounts::open(entries, sent, drained);
        Ok((Held { cell, accounts }, caller))
    }

    /// Takes an event, with the handler of what it declares or asks, as the cell does, and counts it for the caller, also where
    /// it is refused. What takes memory comes first, so an event that isn't taken changes nothing.
    ///
    /// # Errors
    ///
    /// `Full` where the calls of the turn need more passes of some gate than it has left, else want of memory.
    pub fn take<D: Drop>(
        &mut self,
        event: Shared<Event>,
        handler: Option<Arc<H>>,
        caller: &mut Caller<B>,
    ) -> Result<(Handing<H, D>, Receipt<B>), NotTaken<H>>
        requires { is_some handler ≡ true → takes_handler event ≡ true }
        ensures ok { IfOk result (λ given. Advances event (option_map arc_value handler) self.old.session given.0.turn (map call_seen given.0.calls) self.new.session) }
        ensures drained { self.new.drained ≡ self.old.drained }
        ensures refused { IfOk result (λ given. given.0.back ≡ handler_back given.0.turn (option_map arc_value handler)) }
        ensures lents { IfOk result (λ given. AreOfRoom self.old.session.exchange.posts.room (all_lents (map call_seen given.0.calls))) }
        ensures room { self.new.session.exchange.posts.room ≡ self.old.session.exchange.posts.room }
        ensures receipt { IfOk result (λ given. given.1 ≡ receipt_of event (is_some handler) given.0.turn (length self.old.session.journal) caller.old.count) }
        ensures caller { IfOk result (λ given. caller.new ≡ entered given.0.turn caller.old) }
        ensures back { IfErr result (λ refused. (refused.event ≡ event) × (refused.handler ≡ handler)) }
        ensures full { IfErr result (λ refused. refused.why ≡ NoPass.Full → IsOverdrawn event (option_map arc_value handler) self.old.session) }
        ensures err { OnErr result (self.new ≡ self.old) }
        ensures kept { OnErr result (caller.new ≡ caller.old) }
    {
        let Held { cell, accounts } = self;
        take_parts(cell, accounts, event, handler, caller)
    }

    /// Takes the message that was sent first of those that weren't drained yet, and counts it for the caller. A caller that has
    /// all parts of the ledgers finds none exactly where it counts as many drained messages as sent ones.
    pub fn drain(&mut self, caller: &mut Caller<B>) -> Option<Shared<Message>>
        ensures first { option_to_list result ++ self.new.session.exchange.outbox ≡ self.old.session.exchange.outbox }
        ensures rest { self.new.session ≡ record self.old.session { exchange = record self.old.session.exchange { outbox = self.new.session.exchange.outbox } } }
        ensures drained { self.new.drained ≡ self.old.drained + length (option_to_list result) }
        ensures none { IfNone result (self.old.session.exchange.outbox ≡ []) }
        ensures caller { caller.new ≡ drained_by (length (option_to_list result)) caller.old }
        ensures all { caller.old.parts ≡ all_parts → (result ≡ None) ↔ (caller.old.sent ≡ caller.old.drained) }
    {
        let Held { cell, accounts } = self;
        accounts.are_all(caller);
        let message = cell.drain();
        accounts.add_drained(caller, count_of(&message));
        message
    }

    /// How many events the session took, if the caller counts the same, as many sent messages and as many drained ones as the
    /// session does: always, where it has all parts of the ledgers.
    pub fn entries(&mut self, all: &mut Caller<B>) -> Option<u64>
        ensures same { self.new ≡ self.old }
        ensures caller { all.new ≡ all.old }
        ensures len { IfSome result (λ n. (n ≡ all.old.count) × (n ≡ length self.old.session.journal)) }
        ensures whole { all.old.parts ≡ all_parts → result ≡ Some all.old.count }
        ensures all { CountsAll all.old self.old → IsSome result }
        ensures only { AreFew self.old → IfSome result (λ _. CountsAll all.old self.old) }
        ensures counts { all.old.parts ≡ all_parts → CountsAll all.old self.old }
    {
        let count = self.cell.journal().len() as u64;
        if self.accounts.are_all(all) {
            Some(count)
        } else {
            None
        }
    }

    /// A copy of the journal, where `entries` tells how many there are.
    ///
    /// # Errors
    ///
    /// Want of memory alone.
    pub fn copy(
        &mut self,
        alloc: Global,
        all: &mut Caller<B>,
    ) -> Result<Option<Entries>, AllocError>
        ensures same { self.new ≡ self.old }
        ensures caller { all.new ≡ all.old }
        ensures entries { IfOk result (λ found. IfSome found (λ entries. entries ≡ self.old.session.journal)) }
        ensures turns { IfOk result (λ found. IfSome found (λ entries. Follows B.Entries.settings [] entries)) }
        ensures len { IfOk result (λ found. IfSome found (λ entries. length entries ≡ all.old.count)) }
        ensures whole { all.old.parts ≡ all_parts → IfOk result (λ found. IsSome found) }
        ensures all { CountsAll all.old self.old → IfOk result (λ found. IsSome found) }
        ensures only { AreFew self.old → IfOk result (λ found. IfSome found (λ _. CountsAll all.old self.old)) }
        ensures sent { all.old.parts ≡ all_parts → IfOk result (λ found. IfSome found (λ entries. length (messages_of entries) ≡ all.old.sent)) }
        ensures few { IfOk result (λ found. IfSome found (λ entries. length (messages_of entries) < most → length (messages_of entries) ≡ all.old.sent)) }
    {
        match self.entries(all) {
            Some(_) => {
                let entries = Entries::copy(alloc, self.journal())?;
                Ok(Some(entries))
            }
            None => Ok(None),
        }
    }

    /// All events that the session took, with their turns, the oldest first.
    pub fn journal(&self) -> &[Entry]
        ensures all { result.now ≡ self.now.session.journal }
        ensures turns { Follows B.Entries.settings [] self.now.session.journal }
    {
        self.cell.journal()
    }

    /// The room of all passes: those that were lent here come back here.
    ///
    /// # Errors
    ///
    /// Want of memory alone.
    pub fn room(&self) -> Result<Room, AllocError>
        ensures { IfOk result (λ room. room ≡ self.now.session.exchange.posts.room) }
    {
        self.cell.room()
    }

    /// Whether the session was closed.
    pub fn is_closed(&self) -> bool
        ensures { result ≡ closed_in self.now.session }
    {
        self.cell.is_closed()
    }

    /// Whether that cancellation token was taken: a cancel named it, while the session was open.
    pub fn is_taken(&self, token: u32) -> bool
        ensures { result ≡ taken_in self.now.session token }
    {
        self.cell.is_taken(token)
    }

    /// Takes the passes of calls that ran back, and tells what became of each item, in order.
    pub fn give_back<D: Drop>(&mut self, ran: Ran<Item, D>) -> Vec<Handed<Item, D>>
        requires { AreOfRoom self.old.session.exchange.posts.room (ran_lents ran.ran.items) }
        ensures reports { result.items ≡ reports_of ran.ran.items }
        ensures posts { self.new ≡ held_with (all_given_back (ran_lents ran.ran.items) self.old.session.exchange.posts) self.old }
        ensures room { self.new.session.exchange.posts.room ≡ self.old.session.exchange.posts.room }
    {
        self.cell.give_back(ran)
    }

    /// Gives out a gate that was ended and has no pass out, with its handler, if it is a handler's: the first to be so first.
    pub fn ending(&mut self) -> Option<Ending<H>>
        ensures some { IfSome result (λ ending. GivesOut self.old.session.exchange.posts (option_map arc_value ending.handler) ending.drained self.new.session.exchange.posts) }
        ensures none { IfNone result (IsIdle self.old.session.exchange.posts × (self.new.session.exchange.posts ≡ self.old.session.exchange.posts)) }
        ensures rest { self.new ≡ held_with self.new.session.exchange.posts self.old }
        ensures room { self.new.session.exchange.posts.room ≡ self.old.session.exchange.posts.room }
    {
        self.cell.ending()
    }

    /// Marks the gate of a key and gives it out, with its handler, if it is a handler's, whether or not passes of it are out. The
    /// receipt, which said of no gate, tells of it from then on: no gate is given out in any other way.
    pub fn drain_for(&mut self, key: Key, receipt: &mut Receipt<B>) -> Option<Closing<H>>
        requires { receipt.old.asked ≡ None }
        ensures some { IfSome result (λ closing. AreOf (held_at key self.old.session.exchange.posts) (option_map arc_value closing.handler) closing.draining.gate) }
        ensures none { (result ≡ None) ↔ (held_at key self.old.session.exchange.posts ≡ None) }
        ensures posts { self.new ≡ held_with (taken_out key self.old.session.exchange.posts) self.old }
        ensures receipt { receipt.new ≡ record receipt.old { asked = asked_of (Some key) (is_some result) } }
    {
        let closing = self.cell.drain_of(key);
        let held = closing.is_some();
        receipt.asked = Some(Asked { key, held });
        closing
    }

    /// Whether the gate of a key is held: from the event that opens it until it is given out.
    pub fn holds(&self, key: Key) -> bool
        ensures { result ≡ is_some (held_at key self.now.session.exchange.posts) }
    {
        self.cell.holds(key)
    }
}
