//! Two linked sessions.

ghost use Rattle.std.specs.Prelude.{◌≡◌, IsTrue, false, IfOk, OnOk, OnErr, length};
ghost use Rattle.zs_core.specs.Settings.{is_valid};
ghost use Rattle.zs_delivery.specs.Linked.{is_event, without_oldest};
ghost use Rattle.zs_delivery.specs.Links.{is_net};
ghost use Rattle.zs_link.specs.World.{AreNew, Takes, Delivers, IsOldest, Passes, waiting_of};

use crate::session::LinkedSession;
use std::alloc::{AllocError, Global};
use std::marker::Model;
use zs_core::Settings;
use zs_delivery::LinkSide;
use zs_events::{Event, Turn};
use zs_shared::Shared;
use zs_wire::Message;

/// The identifier and the tag of the second session.
const OTHER: u8 = 2;

/// Two sessions and the messages that wait between them. Contracts see of each side its core's tables and what it sent
/// and the other was not given.
#[derive(Drop)]
pub struct LinkWorld {
    a: LinkedSession,
    b: LinkedSession,
}

impl Model for LinkWorld {
    ghost use Rattle.zs_link.specs.World.{LinkSeen};

    ghost Value = { LinkSeen };

    ghost view = { λ w. record { a = w.a; b = w.b } };
}

/// What came of a delivery.
#[derive(Drop)]
pub enum Delivered {
    /// No message waited.
    Nothing,
    /// The message was an interest, which is no event of its receiver: it is gone.
    Dropped,
    /// The receiver took the message: its turn.
    Taken(Shared<Turn>),
}

impl LinkWorld {
    /// Two new sessions, between which nothing waits: the first with these settings, the second with the identifier 2, the
    /// tag 2, and else the same. Give the first others, so that each can be told from the other.
    ///
    /// # Errors
    ///
    /// Want of memory alone.
    pub fn new(alloc: Global, settings: &Settings) -> Result<LinkWorld, AllocError>
        requires { IsTrue (is_valid settings.now) }
        ensures { IfOk result (λ new. AreNew new settings.now) }
    {
        let mut others = settings.try_clone(alloc)?;
        others.zid = u128::from(OTHER);
        others.tag = u64::from(OTHER);
        let a = LinkedSession::new(alloc, settings)?;
        let b = LinkedSession::new(alloc, &others)?;
        Ok(LinkWorld { a, b })
    }

    /// A side takes an event of its application. What that sends waits for the other side.
    ///
    /// # Errors
    ///
    /// Want of memory alone. Then nothing has changed.
    pub fn take(&mut self, side: LinkSide, event: &Event) -> Result<Shared<Turn>, AllocError>
        requires { is_net event.now ≡ false }
        ensures ok { IfOk result (λ turn. Takes side event.now self.old turn self.new) }
        ensures err { OnErr result (self.new ≡ self.old) }
    {
        match side {
            LinkSide::A => Ok(self.a.take(event)?),
            LinkSide::B => Ok(self.b.take(event)?),
        }
    }

    /// Gives the oldest message of a side that waits to the other side: `Nothing` where none waits, `Dropped` where it is an
    /// interest, and else the turn that the other side makes of it. It waits no longer.
    ///
    /// # Errors
    ///
    /// Want of memory alone. Then nothing has changed, and the message still waits.
    pub fn deliver(&mut self, from: LinkSide) -> Result<Delivered, AllocError>
        ensures ok { IfOk result (λ delivered. Delivers from self.old delivered self.new) }
        ensures oldest { IfOk result (λ delivered. IsOldest delivered (waiting_of from self.old)) }
        ensures waits { OnOk result (waiting_of from self.new ≡ without_oldest (waiting_of from self.old)) }
        ensures err { OnErr result (self.new ≡ self.old) }
    {
        match from {
            LinkSide::A => Ok(pass(&mut self.a, &mut self.b)?),
            LinkSide::B => Ok(pass(&mut self.b, &mut self.a)?),
        }
    }

    /// How many messages of a side wait for the other.
    pub fn waiting(&self, from: LinkSide) -> usize
        ensures { result ≡ length (waiting_of from self.now) }
    {
        match from {
            LinkSide::A => self.a.waiting(),
            LinkSide::B => self.b.waiting(),
        }
    }
}

/// Whether a message is an event of its receiver.
fn is_event(message: &Message) -> bool
    ensures { result ≡ is_event message.now }
{
    !matches!(message, Message::Interest { .. })
}

/// Gives the oldest message of one side to the other.
fn pass(from: &mut LinkedSession, to: &mut LinkedSession) -> Result<Delivered, AllocError>
    ensures ok { IfOk result (λ delivered. Passes from.old to.old delivered from.new to.new) }
    ensures oldest { IfOk result (λ delivered. IsOldest delivered from.old.waiting) }
    ensures waits { OnOk result (from.new.waiting ≡ without_oldest from.old.waiting) }
    ensures from { OnErr result (from.new ≡ from.old) }
    ensures to { OnErr result (to.new ≡ to.old) }
{
    let Some(message) = from.first()? else {
        return Ok(Delivered::Nothing);
    };
    if !is_event(message.get()) {
        drop(message);
        from.drop_first();
        return Ok(Delivered::Dropped);
    }
    let event = Event::Net(message);
    let taken = to.take(&event);
    drop(event);
    let turn = taken?;
    from.drop_first();
    Ok(Delivered::Taken(turn))
}
