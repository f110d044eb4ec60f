//! Two linked sessions with a membership each.

ghost use Rattle.std.specs.Prelude.{◌≡◌, [], ◌∷◌, false, IsTrue, IfOk, OnOk, codes, encode_utf8_all};
ghost use Rattle.std.specs.String.{string_bytes};
ghost use Rattle.zs_core.specs.Settings.{is_valid};
ghost use Rattle.zs_delivery.specs.Links.{is_net};
ghost use Rattle.zs_delivery.specs.Linked.{Take, Deliver};
ghost use Rattle.zs_printing.specs.Printing.{line};
ghost use Rattle.zs_group_lines.specs.Tokens.{oldest};
ghost use Rattle.zs_group_lines.specs.Membership.{view_of};
ghost use Rattle.zs_group_lines.specs.Shown.{answer_fields, not_member, view_text};
ghost use Rattle.zs_groups.specs.Sides.{AreBehind, member_in, noted_in, heard_in, heard_delivered, TakesEvent, DeliversOldest, Becomes};
ghost use Rattle.zs_groups.specs.Told.{first_links, hearing, joining, leaving, letter, opposite, membership_at, with_link, with_text, with_answer, with_taken, with_left, with_leave, with_view, with_many, with_moved};

use std::alloc::{AllocError, Global};
use zs_core::Settings;
use zs_events::{Effects, EntityKind, Event, KeyArg, Turn};
use zs_group_lines::{Membership, append_answer, append_not_member, append_view};
use zs_link::{Delivered, LinkSide, LinkWorld};
use zs_members::View;
use zs_sample::Text;
use zs_shared::Shared;
use zs_side_lines::{append_count, append_ok};

/// Two linked sessions, each with what it has of the group.
#[derive(Drop)]
pub struct Sides {
    alloc: Global,
    world: LinkWorld,
    a: Membership,
    b: Membership,
    /// The text of the line so far; its memory outlives the lines.
    printed: String,
}

/// The letter of a side.
fn letter(side: LinkSide) -> &'static str
    ensures { result.now ≡ letter side }
{
    match side {
        LinkSide::A => "a",
        LinkSide::B => "b",
    }
}

/// The side that a message of this one goes to.
fn opposite(side: LinkSide) -> LinkSide
    ensures { result ≡ opposite side }
{
    match side {
        LinkSide::A => LinkSide::B,
        LinkSide::B => LinkSide::A,
    }
}

/// The liveliness subscriber that each side declares.
fn hearing(alloc: Global) -> Result<Event, AllocError>
    ensures { IfOk result (λ event. event ≡ hearing) }
{
    let key = Text::of(alloc, "group/*")?;
    Ok(Event::Lsub {
        history: true,
        key: KeyArg::Text(key),
    })
}

/// What a side that joins takes.
fn joining(alloc: Global, key: &Text) -> Result<Event, AllocError>
    ensures { IfOk result (λ event. event ≡ joining key.now) }
{
    let key = key.try_clone(alloc)?;
    Ok(Event::Token {
        key: KeyArg::Text(key),
    })
}

/// What a side whose token has that number takes where it leaves.
fn leaving(id: u32) -> Event
    ensures { result ≡ leaving id }
{
    Event::Undeclare {
        kind: EntityKind::Token,
        id,
    }
}

impl Sides {
    /// Two new sides, each of which has declared its liveliness subscriber.
    pub(crate) fn new(alloc: Global, settings: &Settings) -> Result<Sides, AllocError>
        requires { IsTrue (is_valid settings.now) }
        ensures { IfOk result (λ made. AreBehind made settings.now first_links) }
    {
        let world = LinkWorld::new(alloc, settings)?;
        let mut sides = Sides {
            alloc,
            world,
            a: Membership::new(alloc),
            b: Membership::new(alloc),
            printed: String::new(alloc),
        };
        match sides.declare_all() {
            Ok(()) => Ok(sides),
            Err(why) => {
                drop(sides);
                Err(why)
            }
        }
    }

    /// Each side declares its liveliness subscriber, the first side before the second.
    fn declare_all(&mut self) -> Result<(), AllocError>
        ensures { OnOk result ((s : Settings) → AreBehind self.old s [] → AreBehind self.new s first_links) }
    {
        self.declare(LinkSide::A)?;
        self.declare(LinkSide::B)
    }

    /// A side declares its liveliness subscriber.
    fn declare(&mut self, side: LinkSide) -> Result<(), AllocError>
        ensures { OnOk result (Becomes (λ s t. with_link (Take side hearing) t) self.old self.new) }
    {
        let hearing = hearing(self.alloc)?;
        let taken = self.take(side, &hearing);
        drop(hearing);
        let turn = taken?;
        drop(turn);
        Ok(())
    }

    /// A side takes an event of its application, and its membership notes that.
    fn take(&mut self, side: LinkSide, event: &Event) -> Result<Shared<Turn>, AllocError>
        requires { is_net event.now ≡ false }
        ensures { IfOk result (λ turn. TakesEvent side event.now self.old turn self.new) }
    {
        let turn = self.world.take(side, event)?;
        match self.note(side, event, turn.get()) {
            Ok(()) => Ok(turn),
            Err(why) => {
                drop(turn);
                Err(why)
            }
        }
    }

    /// The membership of a side notes what an event of its application came to, by its turn.
    fn note(&mut self, side: LinkSide, event: &Event, turn: &Turn) -> Result<(), AllocError>
        ensures { OnOk result (self.new ≡ noted_in side event.now turn.now self.old) }
    {
        match side {
            LinkSide::A => self.a.note(event, turn),
            LinkSide::B => self.b.note(event, turn),
        }
    }

    /// The oldest message of a side is delivered; the other side's membership hears what that hands to its subscriber.
    fn deliver(&mut self, from: LinkSide) -> Result<Delivered, AllocError>
        ensures { IfOk result (λ delivered. DeliversOldest from self.old delivered self.new) }
    {
        let delivered = self.world.deliver(from)?;
        match self.hear_delivered(opposite(from), &delivered) {
            Ok(()) => Ok(delivered),
            Err(why) => {
                drop(delivered);
                Err(why)
            }
        }
    }

    /// A side's membership hears of a message that its session took. One that was dropped says nothing of the group.
    fn hear_delivered(&mut self, side: LinkSide, delivered: &Delivered) -> Result<(), AllocError>
        ensures { OnOk result (self.new ≡ heard_delivered side delivered.now self.old) }
    {
        match delivered {
            Delivered::Taken(turn) => self.hear(side, &turn.get().effects),
            Delivered::Nothing => Ok(()),
            Delivered::Dropped => Ok(()),
        }
    }

    /// The membership of a side hears what effects hand to its liveliness subscriber.
    fn hear(&mut self, side: LinkSide, effects: &Effects) -> Result<(), AllocError>
        ensures { OnOk result (self.new ≡ heard_in side effects.now self.old) }
    {
        match side {
            LinkSide::A => self.a.hear(effects),
            LinkSide::B => self.b.hear(effects),
        }
    }

    /// The answer of a turn is printed.
    fn tell_answer(&mut self, number: u64, turn: &Turn) -> Result<(), AllocError>
        ensures { OnOk result (Becomes (λ s t. with_answer number turn.now t) self.old self.new) }
    {
        append_answer(&mut self.printed, number, &turn.answer)
    }

    /// A side takes an event, and its answer is printed.
    fn take_told(&mut self, number: u64, side: LinkSide, event: &Event) -> Result<(), AllocError>
        requires { is_net event.now ≡ false }
        ensures { OnOk result (Becomes (λ s t. with_taken s number side event.now t) self.old self.new) }
    {
        let turn = self.take(side, event)?;
        let told = self.tell_answer(number, turn.get());
        drop(turn);
        told
    }

    /// A side joins under the name that a key stands for.
    pub(crate) fn join(&mut self, number: u64, side: LinkSide, key: &Text) -> Result<(), AllocError>
        ensures { OnOk result (Becomes (λ s t. with_taken s number side (joining key.now) t) self.old self.new) }
    {
        let joining = joining(self.alloc, key)?;
        let told = self.take_told(number, side, &joining);
        drop(joining);
        told
    }

    /// The number of the oldest token that a side holds on a key.
    fn oldest(&self, side: LinkSide, key: &Text) -> Option<u32>
        ensures { result ≡ oldest (encode_utf8_all key.now) (member_in side self.now).tokens }
    {
        match side {
            LinkSide::A => self.a.oldest(key.as_str()),
            LinkSide::B => self.b.oldest(key.as_str()),
        }
    }

    /// A side leaves: its oldest token on a key ends.
    pub(crate) fn leave(
        &mut self,
        number: u64,
        side: LinkSide,
        key: &Text,
    ) -> Result<(), AllocError>
        ensures { OnOk result (Becomes (λ s t. with_leave s number side key.now t) self.old self.new) }
    {
        let id = self.oldest(side, key);
        self.end(number, side, id)
    }

    /// A side's token of that number ends. Where there is none, the line is refused.
    fn end(&mut self, number: u64, side: LinkSide, id: Option<u32>) -> Result<(), AllocError>
        ensures { OnOk result (Becomes (λ s t. with_left s number side id t) self.old self.new) }
    {
        match id {
            Some(id) => self.end_token(number, side, id),
            None => self.refuse(number),
        }
    }

    /// A side undeclares its token of that number, and the answer is printed.
    fn end_token(&mut self, number: u64, side: LinkSide, id: u32) -> Result<(), AllocError>
        ensures { OnOk result (Becomes (λ s t. with_taken s number side (leaving id) t) self.old self.new) }
    {
        let leaving = leaving(id);
        let told = self.take_told(number, side, &leaving);
        drop(leaving);
        told
    }

    /// The line is refused as `NotMember`: its side holds no token on the key.
    fn refuse(&mut self, number: u64) -> Result<(), AllocError>
        ensures { OnOk result (Becomes (λ s t. with_text (not_member number) t) self.old self.new) }
    {
        append_not_member(&mut self.printed, number)
    }

    /// Whom a side sees.
    fn view(&self, side: LinkSide) -> Result<View, AllocError>
        ensures { IfOk result (λ view. view ≡ view_of (member_in side self.now)) }
    {
        match side {
            LinkSide::A => self.a.view(),
            LinkSide::B => self.b.view(),
        }
    }

    /// Whom a side sees is printed.
    pub(crate) fn show(&mut self, number: u64, side: LinkSide) -> Result<(), AllocError>
        ensures { OnOk result (Becomes (λ s t. with_view s number side t) self.old self.new) }
    {
        let view = self.view(side)?;
        let shown = self.show_view(number, side, &view);
        drop(view);
        shown
    }

    /// Prints that the line was taken, and then each name of the view with its count.
    fn show_view(&mut self, number: u64, side: LinkSide, view: &View) -> Result<(), AllocError>
        ensures { OnOk result (Becomes (λ s t. with_text (view_text number (letter side) view.now) (with_text (line number (codes "ok" ∷ [])) t)) self.old self.new) }
    {
        append_ok(&mut self.printed, number)?;
        append_view(&mut self.printed, number, letter(side), view)
    }

    /// The oldest message of a side is delivered, of which nothing is printed.
    fn deliver_oldest(&mut self, from: LinkSide) -> Result<(), AllocError>
        ensures { OnOk result (Becomes (λ s t. with_link (Deliver from) t) self.old self.new) }
    {
        let delivered = self.deliver(from)?;
        drop(delivered);
        Ok(())
    }

    /// So many messages of a side are delivered, in the order in which they were sent.
    fn deliver_many(&mut self, from: LinkSide, count: usize) -> Result<(), AllocError>
        ensures { OnOk result (Becomes (λ s t. with_many from count t) self.old self.new) }
    {
        for _ in 0..count {
            self.deliver_oldest(from)?;
        }
        Ok(())
    }

    /// All messages of a side that wait are delivered.
    pub(crate) fn deliver_all(&mut self, number: u64, from: LinkSide) -> Result<(), AllocError>
        ensures { OnOk result (Becomes (λ s t. with_moved s number from t) self.old self.new) }
    {
        let count = self.world.waiting(from);
        append_count(&mut self.printed, number, count)?;
        self.deliver_many(from, count)
    }

    /// Whose memory it takes.
    pub(crate) fn alloc(&self) -> Global {
        self.alloc
    }

    /// The text of a new line is still empty.
    pub(crate) fn clear(&mut self)
        ensures rest { self.new ≡ record self.old { printed = self.new.printed } }
        ensures text { string_bytes self.new.printed ≡ [] }
    {
        self.printed.clear();
    }

    /// The text of the line so far.
    pub(crate) fn printed(&self) -> &str
        ensures { result.now ≡ string_bytes self.now.printed }
    {
        self.printed.as_str()
    }

    /// Both sides close, the first before the second.
    pub(crate) fn close(&mut self) -> Result<(), AllocError> {
        let close = Event::Close;
        let closed = self.close_both(&close);
        drop(close);
        closed
    }

    /// Each session takes that event, and what comes of it is let go: no membership notes it.
    fn close_both(&mut self, close: &Event) -> Result<(), AllocError>
        requires { is_net close.now ≡ false }
    {
        let first = self.world.take(LinkSide::A, close)?;
        drop(first);
        let second = self.world.take(LinkSide::B, close)?;
        drop(second);
        Ok(())
    }
}
