//! A cell without a journal.
ghost use Rattle.std.specs.Prelude.{◌≡◌, ◌↔◌, [], ◌++◌, None, is_some, length, map, option_map, slice_get, IsTrue, IfOk, IfSome, IfNone, OnOk, OnErr};
ghost use Rattle.std.specs.Option.{option_copied, option_to_list};
ghost use Rattle.std.specs.Arc.{arc_value};
ghost use Rattle.zs_posts.specs.Calls.{call_seen, all_lents};
ghost use Rattle.zs_posts.specs.Settled.{all_given_back, held_at, taken_out};
ghost use Rattle.zs_hands.specs.Answers.{AreOfRoom, ran_lents, reports_of};
ghost use Rattle.zs_exchange.specs.Exchange.{IsNew};
ghost use Rattle.zs_exchange.specs.Ends.{IsIdle, GivesOut, AreOf};
ghost use Rattle.zs_core.specs.Settings.{is_valid};
ghost use Rattle.zs_core.specs.Plans.{Plans};
ghost use Rattle.zs_exchange.specs.Handlers.{AreBare, AreGates, NoneHeld};
ghost use Rattle.zs_session_cell.specs.Core.{StandsFor, WasClosed, WasTaken};
ghost use Rattle.zs_session_cell.specs.Cells.{Takes, IsFull, with_posts};

use std::alloc::{AllocError, Global};
use std::marker::Model;
use std::sync::Arc;
use zs_core::{Change, SessionState, Settings};
use zs_events::{Event, Turn};
use zs_exchange::Exchange;
use zs_gate::NoPass;
use zs_hands::{Closing, Ending, Handed, Hands, Ran};
use zs_posts::{Key, Room};
use zs_shared::Shared;
use zs_turns::Item;
use zs_wire::Message;

/// A session's core with what stands between it and its callers. It keeps no journal, so it doesn't grow with every event.
pub struct CellState<H> {
    alloc: Global,
    core: SessionState,
    exchange: Exchange<H>,
}

impl<H: Drop> Drop for CellState<H> {
    /// Lets go of the core, and then of the handlers, gates and messages of the exchange.
    fn drop(self) {
        let CellState {
            alloc: _,
            core,
            exchange,
        } = self;
        drop(core);
        drop(exchange);
    }
}

impl<H> Model for CellState<H> {
    ghost use Rattle.zs_session_cell.specs.Cells.{CellSeen};

    ghost Value = { CellSeen H };

    ghost view = { λ c. record { world = c.core; exchange = c.exchange } };
}

// What the core makes of an event: the turn, thrice in one place, and the change.
#[derive(Drop)]
struct Planned {
    turn: Shared<Turn>,
    copy: Shared<Turn>,
    spare: Shared<Turn>,
    change: Change,
}

// The same turn twice more.
fn copies(turn: &Shared<Turn>) -> Result<(Shared<Turn>, Shared<Turn>), AllocError>
    ensures { IfOk result (λ copies. (copies.0 ≡ turn.now) × (copies.1 ≡ turn.now)) }
{
    let copy = turn.try_clone()?;
    match turn.try_clone() {
        Ok(spare) => Ok((copy, spare)),
        Err(why) => {
            drop(copy);
            Err(why)
        }
    }
}

// What the core would make of an event.
fn plan(alloc: Global, core: &SessionState, event: &Event) -> Result<Planned, AllocError>
    ensures plans { IfOk result (λ planned. Plans core.now event.now record { turn = planned.turn; change = planned.change }) }
    ensures copy { IfOk result (λ planned. planned.copy ≡ planned.turn) }
    ensures spare { IfOk result (λ planned. planned.spare ≡ planned.turn) }
{
    let decision = core.plan(event)?;
    let (turn, change) = decision.into_parts();
    let turn = match Shared::new(alloc, turn) {
        Ok(turn) => turn,
        Err(why) => {
            drop(change);
            return Err(why);
        }
    };
    match copies(&turn) {
        Ok(both) => {
            let (copy, spare) = both;
            Ok(Planned {
                turn,
                copy,
                spare,
                change,
            })
        }
        Err(why) => {
            drop(turn);
            drop(change);
            Err(why)
        }
    }
}

/// What an event was answered: its turn, and the calls that are to be made. It can't be let go: who has one runs the calls.
pub struct Taken<H, D> {
    pub turn: Shared<Turn>,
    /// The same turn, in the same place: for a journal.
    pub copy: Shared<Turn>,
    /// And once more: for whoever tells of it later.
    pub spare: Shared<Turn>,
    pub hands: Hands<H, Item, D>,
}

impl<H: Drop> CellState<H> {
    /// Of a new session, in which nothing is declared. Messages are kept for `drain`, or not at all.
    ///
    /// # Errors
    ///
    /// Want of memory alone.
    pub fn new(alloc: Global, settings: &Settings, keeps: bool) -> Result<CellState<H>, AllocError>
        requires { IsTrue (is_valid settings.now) }
        ensures core { IfOk result (λ new. StandsFor new.world settings.now []) }
        ensures exchange { IfOk result (λ new. IsNew settings.now.tag keeps new.exchange) }
        ensures gates { IfOk result (λ new. AreGates new.exchange.posts.rows) }
        ensures waiting { IfOk result (λ new. AreBare new.exchange.posts.ready) }
    {
        let core = SessionState::new(alloc, settings)?;
        let exchange = Exchange::new(alloc, settings.tag, keeps)?;
        Ok(CellState {
            alloc,
            core,
            exchange,
        })
    }

    /// Takes one event, with the handler of what it declares or asks, if it wants one. What takes memory comes first, so at
    /// an `Err` nothing has changed. The place is the caller's word for the moment: gates that are opened by the event
    /// keep it.
    ///
    /// # Errors
    ///
    /// `Full` where the calls of the turn need more passes of some gate than it has left, else want of memory.
    pub fn take<D: Drop>(
        &mut self,
        event: &Event,
        handler: &Option<Arc<H>>,
        place: u64,
    ) -> Result<Taken<H, D>, NoPass>
        ensures ok { IfOk result (λ taken. Takes event.now (option_map arc_value handler.now) place self.old taken.turn (map call_seen taken.hands.calls.items) self.new) }
        ensures copy { IfOk result (λ taken. taken.copy ≡ taken.turn) }
        ensures spare { IfOk result (λ taken. taken.spare ≡ taken.turn) }
        ensures lents { IfOk result (λ taken. AreOfRoom self.old.exchange.posts.room (all_lents (map call_seen taken.hands.calls.items))) }
        ensures none { IfOk result (λ taken. NoneHeld (option_map arc_value handler.now) self.old.exchange.posts → taken.hands.calls.items ≡ []) }
        ensures gates { OnOk result (NoneHeld (option_map arc_value handler.now) self.old.exchange.posts → AreGates self.new.exchange.posts.rows) }
        ensures waiting { OnOk result (NoneHeld (option_map arc_value handler.now) self.old.exchange.posts → AreBare self.old.exchange.posts.ready → AreBare self.new.exchange.posts.ready) }
        ensures room { self.new.exchange.posts.room ≡ self.old.exchange.posts.room }
        ensures full { result ≡ Err NoPass.Full → IsFull event.now (option_map arc_value handler.now) place self.old }
        ensures held { result ≡ Err NoPass.Full → NoneHeld (option_map arc_value handler.now) self.old.exchange.posts → ⊥ }
        ensures err { OnErr result (self.new ≡ self.old) }
    {
        let Ok(planned) = plan(self.alloc, &self.core, event) else {
            return Err(NoPass::NoMemory);
        };
        let Planned {
            turn,
            copy,
            spare,
            change,
        } = planned;
        let made = match self.exchange.prepare(event, turn.get(), handler, place) {
            Ok(made) => made,
            Err(why) => {
                drop(turn);
                drop(copy);
                drop(spare);
                drop(change);
                return Err(why);
            }
        };
        match self.core.apply(change) {
            Ok(()) => {
                let hands = self.exchange.finish(made);
                Ok(Taken {
                    turn,
                    copy,
                    spare,
                    hands,
                })
            }
            Err(_) => {
                self.exchange.undo(made);
                drop(turn);
                drop(copy);
                drop(spare);
                Err(NoPass::NoMemory)
            }
        }
    }

    /// The room of all passes: those that were lent here come back here.
    ///
    /// # Errors
    ///
    /// Want of memory alone.
    pub fn room(&self) -> Result<Room, AllocError>
        ensures { IfOk result (λ room. room ≡ self.now.exchange.posts.room) }
    {
        self.exchange.room()
    }

    /// Whether the session was closed.
    pub fn is_closed(&self) -> bool
        ensures { WasClosed self.now.world result }
    {
        self.core.is_closed()
    }

    /// Whether that cancellation token was taken: a cancel named it, while the session was open.
    pub fn is_taken(&self, token: u32) -> bool
        ensures { WasTaken self.now.world token result }
    {
        self.core.is_taken(token)
    }

    /// The message that was sent first of those that weren't taken yet. It stays.
    pub fn first(&self) -> Option<&Shared<Message>>
        ensures { option_copied result ≡ slice_get self.now.exchange.outbox 0 }
    {
        self.exchange.first()
    }

    /// How many messages weren't taken yet.
    pub fn waiting(&self) -> usize
        ensures { result ≡ length self.now.exchange.outbox }
    {
        self.exchange.waiting()
    }

    /// Takes the message that was sent first of those that weren't taken yet.
    pub fn drain(&mut self) -> Option<Shared<Message>>
        ensures first { option_to_list result ++ self.new.exchange.outbox ≡ self.old.exchange.outbox }
        ensures none { IfNone result (self.old.exchange.outbox ≡ []) }
        ensures rest { self.new ≡ record self.old { exchange = record self.old.exchange { outbox = self.new.exchange.outbox } } }
    {
        self.exchange.drain()
    }

    /// Takes the passes of calls that ran back, and tells what became of each item, in order.
    pub fn give_back<D: Drop>(&mut self, ran: Ran<Item, D>) -> Vec<Handed<Item, D>>
        requires { AreOfRoom self.old.exchange.posts.room (ran_lents ran.ran.items) }
        ensures reports { result.items ≡ reports_of ran.ran.items }
        ensures posts { self.new ≡ with_posts (all_given_back (ran_lents ran.ran.items) self.old.exchange.posts) self.old }
        ensures room { self.new.exchange.posts.room ≡ self.old.exchange.posts.room }
    {
        self.exchange.give_back(ran)
    }

    /// Gives out a gate that was ended and has no pass out, with its handler, if it is a handler's: the first to be so first.
    /// `None` where there is no such gate.
    pub fn ending(&mut self) -> Option<Ending<H>>
        ensures some { IfSome result (λ ending. GivesOut self.old.exchange.posts (option_map arc_value ending.handler) ending.drained self.new.exchange.posts) }
        ensures none { IfNone result (IsIdle self.old.exchange.posts × (self.new.exchange.posts ≡ self.old.exchange.posts)) }
        ensures rest { self.new ≡ with_posts self.new.exchange.posts self.old }
        ensures room { self.new.exchange.posts.room ≡ self.old.exchange.posts.room }
    {
        self.exchange.ending()
    }

    /// Marks the gate of a key and gives it out, with its handler, if it is a handler's, whether or not passes of it are out.
    pub fn drain_of(&mut self, key: Key) -> Option<Closing<H>>
        ensures some { IfSome result (λ closing. AreOf (held_at key self.old.exchange.posts) (option_map arc_value closing.handler) closing.draining.gate) }
        ensures none { (result ≡ None) ↔ (held_at key self.old.exchange.posts ≡ None) }
        ensures posts { self.new ≡ with_posts (taken_out key self.old.exchange.posts) self.old }
    {
        self.exchange.drain_of(key)
    }

    /// Whether the gate of a key is held: from the event that opens it until it is given out.
    pub fn holds(&self, key: Key) -> bool
        ensures { result ≡ is_some (held_at key self.now.exchange.posts) }
    {
        self.exchange.holds(key)
    }
}
