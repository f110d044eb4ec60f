//! One gate with what is behind it.
ghost use Rattle.std.specs.Prelude.{◌≡◌, ◌<◌, false, option_map, IfOk, OnErr};
ghost use Rattle.std.specs.Arc.{arc_value};
ghost use Rattle.std.specs.Option.{is_some};
ghost use Rattle.zs_posts.specs.Keys.{is_key};
ghost use Rattle.zs_posts.specs.Posts.{raised, lowered_by, flagged, is_spent};
ghost use Rattle.zs_posts.specs.Passes.{LentSeen};

use crate::call::Target;
use crate::key::{Key, Name};
use crate::pass::Lent;
use crate::tag::{Maker, Tag};
use std::alloc::{AllocError, Global};
use std::marker::Model;
use std::sync::Arc;
use zs_gate::{Door, Drained, Draining, Gate, Keeper, NoPass};

/// A gate under its name, with the handler that is called inside of it, if it is a handler's.
#[derive(Drop)]
pub struct Post<H> {
    name: Name,
    handler: Option<Arc<H>>,
    ended: bool,
    door: Door,
    keeper: Keeper,
    tag: Tag,
    // The door's own count, which can't be read as the program runs.
    out: u32,
}

impl<H> Model for Post<H> {
    ghost use Rattle.std.specs.Prelude.{◌≡◌, option_map};
    ghost use Rattle.std.specs.Arc.{arc_value};
    ghost use Rattle.zs_posts.specs.Posts.{PostSeen};

    ghost Value = { PostSeen H };

    ghost view = { λ p. record { name = p.name; handler = option_map arc_value p.handler; ended = p.ended; gate = p.door.gate; room = p.tag.room; number = p.tag.number; out = p.out } };

    ghost invariant = { λ p. (p.keeper ≡ p.door.gate) × (p.tag.gate ≡ p.door.gate) × (p.out ≡ p.door.out) };
}

// The same handler, if there is one.
fn share<H>(handler: &Option<Arc<H>>) -> Result<Option<Arc<H>>, AllocError>
    ensures { IfOk result (λ copy. option_map arc_value copy ≡ option_map arc_value handler.now) }
{
    match handler {
        Some(handler) => match Arc::try_clone(handler) {
            Ok(copy) => Ok(Some(copy)),
            Err(why) => Err(why),
        },
        None => Ok(None),
    }
}

impl<H> Post<H> {
    ghost use Rattle.zs_posts.specs.Calls.{target_seen, target_with};

    /// A post with a gate of its own, which isn't marked.
    ///
    /// # Errors
    ///
    /// Want of memory alone.
    pub(crate) fn open(
        alloc: Global,
        maker: &Maker,
        name: Name,
        handler: &Option<Arc<H>>,
    ) -> Result<Post<H>, AllocError>
    where
        H: Drop,
        ensures { IfOk result (λ p. p ≡ record { name = name; handler = option_map arc_value handler.now; ended = false; gate = p.gate; room = maker.now; number = p.number; out = 0 }) }
    {
        let handler = share(handler)?;
        let (door, keeper) = Gate::open(alloc)?;
        let tag = maker.make(&keeper)?;
        Ok(Post {
            name,
            handler,
            ended: false,
            door,
            keeper,
            tag,
            out: 0,
        })
    }

    /// One pass more, for whoever asked under a key. At `Err` nothing has changed.
    pub(crate) fn lend(&mut self, key: Key) -> Result<Lent, NoPass>
        ensures lent { IfOk result (λ lent. lent ≡ record { key = key; gate = self.old.gate; room = self.old.room; number = self.old.number; noted = false }) }
        ensures post { IfOk result (λ _. self.new ≡ raised self.old) }
        ensures room { IfOk result (λ _. self.old.out < 4294967295) }
        ensures full { (result ≡ Err NoPass.Full) → self.old.out ≡ 4294967295 }
        ensures err { OnErr result (self.new ≡ self.old) }
    {
        let Ok(tag) = self.tag.again() else {
            return Err(NoPass::NoMemory);
        };
        match self.door.pass() {
            Ok(pass) => {
                self.out += 1;
                Ok(Lent { key, pass, tag })
            }
            Err(why) => Err(why),
        }
    }

    /// Takes a pass back, if it is one of this post's.
    pub(crate) fn take_back(&mut self, lent: Lent)
        requires { lent.room ≡ self.old.room }
        ensures { self.new ≡ lowered_by lent self.old }
    {
        let Lent { key: _, pass, tag } = lent;
        if self.tag.number() != tag.number() {
            return;
        }
        self.tag.agrees(tag);
        self.door.take_back(pass);
        self.out -= 1;
    }

    /// Notes that the post was ended.
    pub(crate) fn end(&mut self)
        ensures { self.new ≡ flagged self.old }
    {
        self.ended = true;
    }

    /// Whether it was ended and no pass is out.
    pub(crate) fn is_spent(&self) -> bool
        ensures { result ≡ is_spent self.now }
    {
        self.ended && self.out == 0
    }

    /// The handler and the name, if there is a handler.
    pub(crate) fn target(&self) -> Result<Option<Target<H>>, AllocError>
        ensures { IfOk result (λ target. option_map target_seen target ≡ target_with self.now.name self.now.handler) }
    {
        let handler = share(&self.handler)?;
        match handler {
            Some(handler) => Ok(Some(Target {
                handler,
                name: self.name,
            })),
            None => Ok(None),
        }
    }

    /// Whether its name has this key.
    pub(crate) fn is_of(&self, key: Key) -> bool
        ensures { result ≡ is_key key self.now.name.key }
    {
        key.cmp(&self.name.key).is_eq()
    }

    /// Whether it has a handler.
    pub(crate) fn has_handler(&self) -> bool
        ensures { result ≡ is_some self.now.handler }
    {
        self.handler.is_some()
    }

    /// Its name.
    pub fn name(&self) -> &Name
        ensures { result.now ≡ self.now.name }
    {
        &self.name
    }

    /// Ends a gate of which no pass is out: the handler, if there is one, and what shows that the gate is drained.
    pub fn shut(self) -> (Option<Arc<H>>, Drained)
        requires { self.out ≡ 0 }
        ensures handler { option_map arc_value result.0 ≡ self.handler }
        ensures drained { result.1 ≡ self.gate }
    {
        let Post {
            name: _,
            handler,
            ended: _,
            door,
            keeper,
            tag: _,
            out: _,
        } = self;
        let Ok(drained) = keeper.shut(door) else {
            unreachable!()
        };
        (handler, drained)
    }

    /// Marks the gate: the handler, if there is one, and the keeper that waits for who is inside.
    pub fn drain(self) -> (Option<Arc<H>>, Draining)
        ensures handler { option_map arc_value result.0 ≡ self.handler }
        ensures draining { result.1 ≡ record { gate = self.gate; looks = 0; count = 0 } }
    {
        let Post {
            name: _,
            handler,
            ended: _,
            door: _,
            keeper,
            tag: _,
            out: _,
        } = self;
        (handler, keeper.drain())
    }
}
