//! Two linked sessions with a store each.

ghost use Rattle.std.specs.Prelude.{◌≡◌, [], ◌∷◌, false, IsTrue, IfOk, OnOk, codes};
ghost use Rattle.std.specs.List.{AllByRecursion};
ghost use Rattle.std.specs.String.{string_bytes};
ghost use Rattle.zs_core.specs.Settings.{is_valid};
ghost use Rattle.zs_delivery.specs.Links.{is_net};
ghost use Rattle.zs_delivery.specs.Linked.{Take};
ghost use Rattle.zs_keeping.specs.Answering.{answers_to};
ghost use Rattle.zs_printing.specs.Printing.{line};
ghost use Rattle.zs_replica_lines.specs.Lines.{refusal_name};
ghost use Rattle.zs_replica_lines.specs.Shown.{ends_text, store_text};
ghost use Rattle.zs_replica.specs.Sides.{AreBehind, store_in, kept_in, kept_delivered, TakesEvent, DeliversOldest, Becomes};
ghost use Rattle.zs_replica.specs.Told.{first_links, answerer, keeping, answering, letter, opposite, store_at, with_link, with_text, with_taken, with_all, with_answers, with_effects_told, with_turn, with_said, with_delivered, with_oldest, with_many, with_moved};

use std::alloc::{AllocError, Global};
use zs_core::Settings;
use zs_events::{Chan, Effects, Event, KeyArg, Turn};
use zs_keeping::{answers_to, take_effects};
use zs_link::{Delivered, LinkSide, LinkWorld};
use zs_replica_lines::{ReplicaRefusal, append_ends, append_store, refusal_name};
use zs_sample::{Locality, Text};
use zs_shared::Shared;
use zs_side_lines::{append_answer, append_count, append_ok, append_refused};
use zs_store::Store;

/// The number of the subscriber that each side declares first: what it is handed fills the side's store.
const KEEPER: u32 = 2;

/// The number of the queryable that each side declares then: what it is handed is answered from the side's store.
const ANSWERER: u32 = 3;

/// Two linked sessions, each with a store that what its subscriber is handed fills, and from which its queryable answers.
#[derive(Drop)]
pub struct Sides {
    alloc: Global,
    world: LinkWorld,
    a: Store,
    b: Store,
    /// The text of the line so far; its memory outlives the lines.
    printed: String,
}

/// The letter of a side.
fn letter(side: LinkSide) -> &'static str
    ensures { result.now ≡ letter side }
{
    match side {
        LinkSide::A => "a",
        LinkSide::B => "b",
    }
}

/// The side that a message of this one goes to.
fn opposite(side: LinkSide) -> LinkSide
    ensures { result ≡ opposite side }
{
    match side {
        LinkSide::A => LinkSide::B,
        LinkSide::B => LinkSide::A,
    }
}

/// The subscriber that each side declares.
fn keeping(alloc: Global) -> Result<Event, AllocError>
    ensures { IfOk result (λ event. event ≡ keeping) }
{
    let key = Text::of(alloc, "r/**")?;
    Ok(Event::Sub {
        origin: Locality::Any,
        key: KeyArg::Text(key),
        to: Chan::Print,
    })
}

/// The queryable that each side declares.
fn answering(alloc: Global) -> Result<Event, AllocError>
    ensures { IfOk result (λ event. event ≡ answering) }
{
    let key = Text::of(alloc, "r/**")?;
    Ok(Event::Queryable {
        origin: Locality::Any,
        complete: true,
        key: KeyArg::Text(key),
    })
}

impl Sides {
    /// Two new sides, each of which has declared its subscriber and its queryable.
    pub(crate) fn new(alloc: Global, settings: &Settings) -> Result<Sides, AllocError>
        requires { IsTrue (is_valid settings.now) }
        ensures { IfOk result (λ made. AreBehind made settings.now first_links) }
    {
        let world = LinkWorld::new(alloc, settings)?;
        let mut sides = Sides {
            alloc,
            world,
            a: Store::new(alloc),
            b: Store::new(alloc),
            printed: String::new(alloc),
        };
        match sides.declare_all() {
            Ok(()) => Ok(sides),
            Err(why) => {
                drop(sides);
                Err(why)
            }
        }
    }

    /// Each side declares its subscriber and its queryable, the first side before the second.
    fn declare_all(&mut self) -> Result<(), AllocError>
        ensures { OnOk result ((s : Settings) → AreBehind self.old s [] → AreBehind self.new s first_links) }
    {
        self.declare(LinkSide::A)?;
        self.declare(LinkSide::B)
    }

    /// A side declares its subscriber and its queryable.
    fn declare(&mut self, side: LinkSide) -> Result<(), AllocError>
        ensures { OnOk result (Becomes (λ s t. with_link (Take side answering) (with_link (Take side keeping) t)) self.old self.new) }
    {
        let keeping = keeping(self.alloc)?;
        let kept = self.take(side, &keeping);
        drop(keeping);
        let kept = kept?;
        drop(kept);
        let answering = answering(self.alloc)?;
        let answered = self.take(side, &answering);
        drop(answering);
        let answered = answered?;
        drop(answered);
        Ok(())
    }

    /// A side takes an event of its application; what its subscriber is handed fills its store.
    fn take(&mut self, side: LinkSide, event: &Event) -> Result<Shared<Turn>, AllocError>
        requires { is_net event.now ≡ false }
        ensures { IfOk result (λ turn. TakesEvent side event.now self.old turn self.new) }
    {
        let turn = self.world.take(side, event)?;
        match self.keep(side, &turn.get().effects) {
            Ok(()) => Ok(turn),
            Err(why) => {
                drop(turn);
                Err(why)
            }
        }
    }

    /// The store of a side takes what effects hand to its subscriber.
    fn keep(&mut self, side: LinkSide, effects: &Effects) -> Result<(), AllocError>
        ensures { OnOk result (self.new ≡ kept_in side effects.now self.old) }
    {
        match side {
            LinkSide::A => take_effects(self.alloc, &mut self.a, KEEPER, effects),
            LinkSide::B => take_effects(self.alloc, &mut self.b, KEEPER, effects),
        }
    }

    /// The oldest message of a side is delivered; what that hands to the other side's subscriber fills its store.
    fn deliver(&mut self, from: LinkSide) -> Result<Delivered, AllocError>
        ensures { IfOk result (λ delivered. DeliversOldest from self.old delivered self.new) }
    {
        let delivered = self.world.deliver(from)?;
        match self.keep_delivered(opposite(from), &delivered) {
            Ok(()) => Ok(delivered),
            Err(why) => {
                drop(delivered);
                Err(why)
            }
        }
    }

    /// A side's store takes what a delivered message hands to its subscriber. One that was dropped hands nothing.
    fn keep_delivered(&mut self, side: LinkSide, delivered: &Delivered) -> Result<(), AllocError>
        ensures { OnOk result (self.new ≡ kept_delivered side delivered.now self.old) }
    {
        match delivered {
            Delivered::Taken(turn) => self.keep(side, &turn.get().effects),
            Delivered::Nothing => Ok(()),
            Delivered::Dropped => Ok(()),
        }
    }

    /// What a side's gets got of effects is printed.
    fn tell_ends(
        &mut self,
        number: u64,
        side: LinkSide,
        effects: &Effects,
    ) -> Result<(), AllocError>
        ensures { OnOk result (Becomes (λ s t. with_text (ends_text number (letter side) effects.now) t) self.old self.new) }
    {
        append_ends(&mut self.printed, number, letter(side), effects)
    }

    /// A side takes an event, and what its gets got is printed.
    fn take_told(&mut self, number: u64, side: LinkSide, event: &Event) -> Result<(), AllocError>
        requires { is_net event.now ≡ false }
        ensures { OnOk result (Becomes (λ s t. with_taken s number side event.now t) self.old self.new) }
    {
        let turn = self.take(side, event)?;
        let told = self.tell_ends(number, side, &turn.get().effects);
        drop(turn);
        told
    }

    /// A side takes events in order, and what its gets got of each is printed. It stops at want of memory.
    fn take_all(&mut self, number: u64, side: LinkSide, events: &[Event]) -> Result<(), AllocError>
        requires { AllByRecursion (λ event. is_net event ≡ false) events.now }
        ensures { OnOk result (Becomes (λ s t. with_all s number side events.now t) self.old self.new) }
    {
        for event in events {
            self.take_told(number, side, event)?;
        }
        Ok(())
    }

    /// The events by which a side answers the queries among effects.
    fn answers(&self, side: LinkSide, effects: &Effects) -> Result<Vec<Event>, AllocError>
        ensures { IfOk result (λ events. events.items ≡ answers_to answerer (store_in side self.now) effects.now) }
    {
        match side {
            LinkSide::A => answers_to(self.alloc, &self.a, ANSWERER, effects),
            LinkSide::B => answers_to(self.alloc, &self.b, ANSWERER, effects),
        }
    }

    /// A side answers the queries among effects.
    fn answer(&mut self, number: u64, side: LinkSide, effects: &Effects) -> Result<(), AllocError>
        ensures { OnOk result (Becomes (λ s t. with_answers s number side effects.now t) self.old self.new) }
    {
        let events = self.answers(side, effects)?;
        let told = self.take_all(number, side, &events);
        drop(events);
        told
    }

    /// What a side's gets got of effects is printed, and the queries among them are answered.
    fn tell(&mut self, number: u64, side: LinkSide, effects: &Effects) -> Result<(), AllocError>
        ensures { OnOk result (Becomes (λ s t. with_effects_told s number side effects.now t) self.old self.new) }
    {
        self.tell_ends(number, side, effects)?;
        self.answer(number, side, effects)
    }

    /// The same of a turn, behind its answer.
    fn tell_turn(&mut self, number: u64, side: LinkSide, turn: &Turn) -> Result<(), AllocError>
        ensures { OnOk result (Becomes (λ s t. with_turn s number side turn.now t) self.old self.new) }
    {
        append_answer(&mut self.printed, number, &turn.answer)?;
        self.tell(number, side, &turn.effects)
    }

    /// A side takes the event of a line.
    pub(crate) fn take_said(
        &mut self,
        number: u64,
        side: LinkSide,
        event: &Event,
    ) -> Result<(), AllocError>
        requires { is_net event.now ≡ false }
        ensures { OnOk result (Becomes (λ s t. with_said s number side event.now t) self.old self.new) }
    {
        let turn = self.take(side, event)?;
        let told = self.tell_turn(number, side, turn.get());
        drop(turn);
        told
    }

    /// What came of a delivery is told at the side that took the message. One that was dropped is not told.
    fn tell_delivered(
        &mut self,
        number: u64,
        from: LinkSide,
        delivered: &Delivered,
    ) -> Result<(), AllocError>
        ensures { OnOk result (Becomes (λ s t. with_delivered s number from delivered.now t) self.old self.new) }
    {
        match delivered {
            Delivered::Taken(turn) => self.tell(number, opposite(from), &turn.get().effects),
            Delivered::Nothing => Ok(()),
            Delivered::Dropped => Ok(()),
        }
    }

    /// The oldest message of a side is delivered, and what came of it is told.
    fn deliver_oldest(&mut self, number: u64, from: LinkSide) -> Result<(), AllocError>
        ensures { OnOk result (Becomes (λ s t. with_oldest s number from t) self.old self.new) }
    {
        let delivered = self.deliver(from)?;
        let told = self.tell_delivered(number, from, &delivered);
        drop(delivered);
        told
    }

    /// So many messages of a side are delivered, in the order in which they were sent.
    fn deliver_many(&mut self, number: u64, from: LinkSide, count: usize) -> Result<(), AllocError>
        ensures { OnOk result (Becomes (λ s t. with_many s number from count t) self.old self.new) }
    {
        for _ in 0..count {
            self.deliver_oldest(number, from)?;
        }
        Ok(())
    }

    /// All messages of a side that wait are delivered.
    pub(crate) fn deliver_all(&mut self, number: u64, from: LinkSide) -> Result<(), AllocError>
        ensures { OnOk result (Becomes (λ s t. with_moved s number from t) self.old self.new) }
    {
        let count = self.world.waiting(from);
        append_count(&mut self.printed, number, count)?;
        self.deliver_many(number, from, count)
    }

    /// A line is refused.
    pub(crate) fn refuse(&mut self, number: u64, refusal: ReplicaRefusal) -> Result<(), AllocError>
        ensures { OnOk result (Becomes (λ s t. with_text (line number (codes "refused" ∷ refusal_name refusal ∷ [])) t) self.old self.new) }
    {
        append_refused(&mut self.printed, number, refusal_name(refusal))
    }

    /// The store of a side is shown.
    pub(crate) fn dump(&mut self, number: u64, side: LinkSide) -> Result<(), AllocError>
        ensures { OnOk result (Becomes (λ s t. with_text (store_text number (letter side) (store_at s side t.links)) (with_text (line number (codes "ok" ∷ [])) t)) self.old self.new) }
    {
        append_ok(&mut self.printed, number)?;
        match side {
            LinkSide::A => append_store(&mut self.printed, number, "a", &self.a),
            LinkSide::B => append_store(&mut self.printed, number, "b", &self.b),
        }
    }

    /// Whose memory it takes.
    pub(crate) fn alloc(&self) -> Global {
        self.alloc
    }

    /// The text of a new line is still empty.
    pub(crate) fn clear(&mut self)
        ensures rest { self.new ≡ record self.old { printed = self.new.printed } }
        ensures text { string_bytes self.new.printed ≡ [] }
    {
        self.printed.clear();
    }

    /// The text of the line so far.
    pub(crate) fn printed(&self) -> &str
        ensures { result.now ≡ string_bytes self.now.printed }
    {
        self.printed.as_str()
    }

    /// Both sides close, the first before the second.
    pub(crate) fn close(&mut self) -> Result<(), AllocError> {
        let close = Event::Close;
        let closed = self.close_both(&close);
        drop(close);
        closed
    }

    /// Each session takes that event, and what comes of it is let go: no store takes it, and no end is told.
    fn close_both(&mut self, close: &Event) -> Result<(), AllocError>
        requires { is_net close.now ≡ false }
    {
        let first = self.world.take(LinkSide::A, close)?;
        drop(first);
        let second = self.world.take(LinkSide::B, close)?;
        drop(second);
        Ok(())
    }
}
