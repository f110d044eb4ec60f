//! What stands between a session's core and those who take what comes of its events.
ghost use Rattle.std.specs.Prelude.{◌≡◌, ◌↔◌, ◌≤◌, ℕ, [], ◌++◌, None, is_some, length, map, option_map, slice_get, IfOk, IfSome, IfNone, OnErr, Option};
ghost use Rattle.std.specs.Arc.{arc_value};
ghost use Rattle.std.specs.Option.{option_copied, option_to_list};
ghost use Rattle.zs_events.specs.declared.event.Event.{Event as AnEvent};
ghost use Rattle.zs_events.specs.declared.turn.Turn.{Turn as ATurn};
ghost use Rattle.std.specs.Vec.{vec_len, vec_capacity};
ghost use Rattle.zs_posts.specs.Settled.{IsSettled, all_given_back, held_at, taken_out};
ghost use Rattle.zs_hands.specs.Answers.{AreOfRoom, ran_lents, reports_of};
ghost use Rattle.zs_exchange.specs.Ends.{IsIdle, GivesOut, AreOf};
ghost use Rattle.zs_posts.specs.Lending.{returned_all};
ghost use Rattle.zs_posts.specs.Calls.{call_seen, all_lents};
ghost use Rattle.zs_exchange.specs.Begun.{ended_all};
ghost use Rattle.zs_exchange.specs.Handlers.{AreBare, AreGates};
ghost use Rattle.zs_exchange.specs.Exchange.{ExchangeSeen, Prepares, Overdrawn, IsNew};

use crate::beginning::{TurnCalls, begin, end_all, undo};
use crate::outbox::send_all;
use std::alloc::{AllocError, Global};
use std::collections::VecDeque;
use std::marker::Model;
use std::sync::Arc;
use zs_events::{Event, Turn};
use zs_gate::NoPass;
use zs_hands::{Closing, Ending, Handed, Hands, HandsRoom, Ran};
use zs_posts::{Call, Key, Name, Posts, Room};
use zs_shared::Shared;
use zs_turns::{Item, opened_name, turn_ends};
use zs_wire::Message;

/// The gates of a session with the handlers behind them, and the messages that are to be sent. Contracts see both, the
/// session's tag, and whether messages are kept.
pub struct Exchange<H> {
    alloc: Global,
    tag: u64,
    posts: Posts<H>,
    outbox: VecDeque<Shared<Message>>,
    keeps: bool,
}

impl<H: Drop> Drop for Exchange<H> {
    /// Lets go of the gates with the handlers behind them, and of the messages that were still to be sent.
    fn drop(self) {
        let Exchange {
            alloc: _,
            tag: _,
            posts,
            outbox,
            keeps: _,
        } = self;
        drop(posts);
        drop(outbox);
    }
}

impl<H> Model for Exchange<H> {
    ghost use Rattle.zs_exchange.specs.Handlers.{AreGates};
    ghost use Rattle.zs_exchange.specs.Exchange.{ExchangeSeen};

    ghost Value = { ExchangeSeen H };

    ghost view = { λ x. record { posts = x.posts; outbox = x.outbox.items; tag = x.tag; keeps = x.keeps } };
}

/// What was prepared for an event: the gate that it opens, the calls that are to be made with room for what they tell, how
/// many messages were there before, and the gates that it ends.
#[derive(Drop)]
pub struct Prepared<H, D> {
    name: Option<Name>,
    calls: Vec<Call<H, Item>>,
    room: HandsRoom<Item, D>,
    before: usize,
    ends: Vec<Key>,
    ghost wide: { (vec_len calls ≤ vec_capacity room.ran) × (vec_len calls ≤ vec_capacity room.reports) },
}

impl<H: Drop> Exchange<H> {
    /// That of a new session with that tag: the session's gate alone, and no message. Messages are kept, or not.
    ///
    /// # Errors
    ///
    /// Want of memory alone.
    pub fn new(alloc: Global, tag: u64, keeps: bool) -> Result<Exchange<H>, AllocError>
        ensures new { IfOk result (λ new. IsNew tag keeps new) }
        ensures gates { IfOk result (λ new. AreGates new.posts.rows) }
        ensures waiting { IfOk result (λ new. AreBare new.posts.ready) }
    {
        let mut posts = Posts::new(alloc)?;
        let name = Name {
            key: Key::Session,
            parent: None,
            token: None,
            place: 0,
        };
        match posts.open(alloc, name, &None) {
            Ok(()) => Ok(Exchange {
                alloc,
                tag,
                posts,
                outbox: VecDeque::new(alloc),
                keeps,
            }),
            Err(_) => Err(AllocError),
        }
    }

    /// The room of all passes: those that were lent here come back here.
    ///
    /// # Errors
    ///
    /// Want of memory alone.
    pub fn room(&self) -> Result<Room, AllocError>
        ensures { IfOk result (λ room. room ≡ self.now.posts.room) }
    {
        self.posts.room()
    }

    /// Opens the gate of the event, whose turn it is, lends the passes of the turn's calls, and adds its messages. At `Err`
    /// nothing has changed.
    ///
    /// # Errors
    ///
    /// `Full` where the calls need more passes of some gate than it has left, else want of memory.
    pub fn prepare<D: Drop>(
        &mut self,
        event: &Event,
        turn: &Turn,
        handler: &Option<Arc<H>>,
        place: u64,
    ) -> Result<Prepared<H, D>, NoPass>
        ensures ok { IfOk result (λ made. Prepares event.now turn.now (option_map arc_value handler.now) place self.old made.name (map call_seen made.calls.items) made.before made.ends.items self.new) }
        ensures full { result ≡ Err NoPass.Full → Overdrawn event.now turn.now (option_map arc_value handler.now) place self.old }
        ensures err { OnErr result (self.new ≡ self.old) }
    {
        let name = opened_name(handler.is_some(), event, place, turn.answer);
        let Ok(ends) = turn_ends(self.alloc, event, turn) else {
            return Err(NoPass::NoMemory);
        };
        let before = self.outbox.len();
        let begun = begin(
            &mut self.posts,
            self.alloc,
            name,
            handler,
            self.tag,
            turn.effects.as_slice(),
        );
        let TurnCalls { calls, room } = match begun {
            Ok(begun) => begun,
            Err(why) => return Err(why),
        };
        match send_all(self.keeps, turn.effects.as_slice(), &mut self.outbox) {
            Ok(()) => Ok(Prepared {
                name,
                calls,
                room,
                before,
                ends,
            }),
            Err(_) => {
                undo(&mut self.posts, name, calls);
                Err(NoPass::NoMemory)
            }
        }
    }

    /// Takes back what was prepared.
    pub fn undo<D: Drop>(&mut self, made: Prepared<H, D>)
        requires of_room { AreOfRoom self.old.posts.room (all_lents (map call_seen made.calls.items)) }
        requires settled { IsSettled (returned_all (all_lents (map call_seen made.calls.items)) self.old.posts.rows) self.old.posts.ready }
        ensures { (e : AnEvent) (turn : ATurn) (handler : Option H) (place : ℕ) (first : ExchangeSeen H) → Prepares e turn handler place first made.name (map call_seen made.calls.items) made.before made.ends.items self.old → self.new ≡ first }
    {
        let Prepared {
            name,
            calls,
            room,
            before,
            ends,
        } = made;
        drop(room);
        drop(ends);
        undo(&mut self.posts, name, calls);
        self.outbox.truncate(before);
    }

    /// Ends the gates that the event ends: the calls that are to be made.
    pub fn finish<D: Drop>(&mut self, made: Prepared<H, D>) -> Hands<H, Item, D>
        ensures calls { result.calls ≡ made.calls }
        ensures ends { self.new ≡ record self.old { posts = ended_all made.ends.items self.old.posts } }
    {
        let Prepared {
            name: _,
            calls,
            room,
            before: _,
            ends,
        } = made;
        end_all(&mut self.posts, ends);
        Hands::of(calls, room)
    }

    /// The message that was sent first of those that weren't taken yet. It stays.
    pub fn first(&self) -> Option<&Shared<Message>>
        ensures { option_copied result ≡ slice_get self.now.outbox 0 }
    {
        self.outbox.front()
    }

    /// How many messages weren't taken yet.
    pub fn waiting(&self) -> usize
        ensures { result ≡ length self.now.outbox }
    {
        self.outbox.len()
    }

    /// Takes the message that was sent first of those that weren't taken yet.
    pub fn drain(&mut self) -> Option<Shared<Message>>
        ensures first { option_to_list result ++ self.new.outbox ≡ self.old.outbox }
        ensures none { IfNone result (self.old.outbox ≡ []) }
        ensures rest { self.new ≡ record self.old { outbox = self.new.outbox } }
    {
        self.outbox.pop_front()
    }

    /// Takes the passes of calls that ran back, and tells what became of each item, in order.
    pub fn give_back<D: Drop>(&mut self, ran: Ran<Item, D>) -> Vec<Handed<Item, D>>
        requires { AreOfRoom self.old.posts.room (ran_lents ran.ran.items) }
        ensures reports { result.items ≡ reports_of ran.ran.items }
        ensures posts { self.new ≡ record self.old { posts = all_given_back (ran_lents ran.ran.items) self.old.posts } }
        ensures room { self.new.posts.room ≡ self.old.posts.room }
    {
        ran.give_back(&mut self.posts)
    }

    /// Gives out a gate that was ended and has no pass out, with its handler, if it is a handler's: the first to be so first.
    pub fn ending(&mut self) -> Option<Ending<H>>
        ensures some { IfSome result (λ ending. GivesOut self.old.posts (option_map arc_value ending.handler) ending.drained self.new.posts) }
        ensures none { IfNone result (IsIdle self.old.posts × (self.new.posts ≡ self.old.posts)) }
        ensures rest { self.new ≡ record self.old { posts = self.new.posts } }
        ensures room { self.new.posts.room ≡ self.old.posts.room }
    {
        match self.posts.next_ended() {
            Some(post) => Some(Ending::of(post)),
            None => None,
        }
    }

    /// Marks the gate of a key and gives it out, with its handler, if it is a handler's, whether or not passes of it are out.
    pub fn drain_of(&mut self, key: Key) -> Option<Closing<H>>
        ensures some { IfSome result (λ closing. AreOf (held_at key self.old.posts) (option_map arc_value closing.handler) closing.draining.gate) }
        ensures none { (result ≡ None) ↔ (held_at key self.old.posts ≡ None) }
        ensures posts { self.new ≡ record self.old { posts = taken_out key self.old.posts } }
    {
        match self.posts.take_out(key) {
            Some(post) => Some(Closing::of(post)),
            None => None,
        }
    }

    /// Whether the gate of a key is held: from the event that opens it until it is given out.
    pub fn holds(&self, key: Key) -> bool
        ensures { result ≡ is_some (held_at key self.now.posts) }
    {
        self.posts.holds(key)
    }
}
