//! What comes of an event: its answer, and the effects in their order.
ghost use Rattle.std.specs.Prelude.{◌≡◌, [], ◌∷◌, ◌++◌, ◌↔◌, length, slice_get, IsTrue, IfOk, OnOk, OnErr};
ghost use Rattle.std.specs.Option.{option_copied};
ghost use Rattle.zs_events.specs.Turn.{was_refused, answered};

use std::alloc::{AllocError, Global};
use std::marker::Model;
use thiserror::Error;
use zs_query::QueryData;
use zs_sample::{Reply, Sample};
use zs_shared::Shared;
use zs_wire::Message;

/// Why a session refused an event. Nothing else follows from a refused event.
#[derive(Clone, Copy, Debug, PartialEq, Eq, Hash, Error)]
pub enum Refusal {
    /// The session is closed.
    #[error("the session is closed")]
    SessionClosedError,
    /// The event names something that isn't there.
    #[error("it names something that isn't there")]
    NotFound,
    /// A wire expression has a number that the other side never declared.
    #[error("the other side never declared its number")]
    UnknownScope,
    /// A key is no canonical key expression.
    #[error("the key is no canonical key expression")]
    BadKeyExpr,
    /// The get's cancellation token is spent.
    #[error("its cancellation token is spent")]
    QueryCancelled,
    /// The reply's key doesn't meet that of its query.
    #[error("the key has none in common with the query's")]
    ReplyDisjoint,
    /// The key that is to be undeclared was never declared.
    #[error("the key was never declared")]
    NotDeclared,
    /// The numbers of that sort are all drawn.
    #[error("no number is left")]
    IdsExhausted,
    /// A message from the network that means nothing here.
    #[error("it means nothing here")]
    Ignored,
}

/// What an event is answered.
#[derive(Clone, Copy, Debug, PartialEq, Eq, Hash)]
pub enum Answer {
    /// It was accepted, with the number that it drew, if it drew one.
    Ok(Option<u32>),
    /// It was refused.
    Refused(Refusal),
}

/// What a number is of.
#[derive(Clone, Copy, Debug, PartialEq, Eq, PartialOrd, Ord, Hash)]
pub enum Kind {
    Subscriber,
    LivelinessSubscriber,
    Publisher,
    Queryable,
    Querier,
    Token,
    Listener,
    Get,
    LivelinessGet,
}

/// Something that is handed to the application. Who else is handed the same holds it in the same place.
pub enum HandOver {
    /// A sample for a subscriber, or for a subscriber to liveliness: its kind says which.
    Sample {
        kind: Kind,
        id: u32,
        sample: Shared<Sample>,
    },
    /// A reply for a get, or for a get of liveliness tokens: its kind says which.
    Reply {
        kind: Kind,
        id: u32,
        reply: Shared<Reply>,
    },
    /// A query for the queryable of that number, with the number under which it is answered and given back.
    Query {
        id: u32,
        value: u32,
        query: Shared<QueryData>,
    },
}

impl Drop for HandOver {
    /// Lets go of this hold on the item. Who else is handed it keeps it.
    fn drop(self) {
        match self {
            HandOver::Sample {
                kind: _,
                id: _,
                sample,
            } => drop(sample),
            HandOver::Reply {
                kind: _,
                id: _,
                reply,
            } => drop(reply),
            HandOver::Query {
                id: _,
                value: _,
                query,
            } => drop(query),
        }
    }
}

impl HandOver {
    /// The same, in memory that both share.
    pub fn try_clone(&self) -> Result<HandOver, AllocError>
        ensures { IfOk result (λ copy. copy ≡ self.now) }
    {
        match self {
            HandOver::Sample { kind, id, sample } => {
                let sample = sample.try_clone()?;
                Ok(HandOver::Sample {
                    kind: *kind,
                    id: *id,
                    sample,
                })
            }
            HandOver::Reply { kind, id, reply } => {
                let reply = reply.try_clone()?;
                Ok(HandOver::Reply {
                    kind: *kind,
                    id: *id,
                    reply,
                })
            }
            HandOver::Query { id, value, query } => {
                let query = query.try_clone()?;
                Ok(HandOver::Query {
                    id: *id,
                    value: *value,
                    query,
                })
            }
        }
    }
}

/// One thing that an accepted event brings about.
pub enum Effect {
    /// A message goes to the network.
    Send(Shared<Message>),
    /// A handler of the application is called.
    Hand(HandOver),
    /// A handler is called no more.
    End { kind: Kind, id: u32 },
    /// A listener is told whether anyone matches, which is not what it was told before.
    Matching { id: u32, matching: bool },
}

impl Drop for Effect {
    /// Lets go of the message or of what is handed over. An end and a status hold nothing.
    fn drop(self) {
        match self {
            Effect::Send(message) => drop(message),
            Effect::Hand(item) => drop(item),
            Effect::End { kind: _, id: _ } => {}
            Effect::Matching { id: _, matching: _ } => {}
        }
    }
}

impl Effect {
    /// The same effect, in memory that both share.
    pub fn try_clone(&self) -> Result<Effect, AllocError>
        ensures { IfOk result (λ copy. copy ≡ self.now) }
    {
        Ok(match self {
            Effect::Send(message) => Effect::Send(message.try_clone()?),
            Effect::Hand(item) => Effect::Hand(item.try_clone()?),
            Effect::End { kind, id } => Effect::End {
                kind: *kind,
                id: *id,
            },
            Effect::Matching { id, matching } => Effect::Matching {
                id: *id,
                matching: *matching,
            },
        })
    }
}

/// The effects of one event, in their order.
pub struct Effects {
    items: Vec<Effect>,
}

impl Drop for Effects {
    /// Lets go of the effects and of the memory that holds them.
    fn drop(self) {
        let Effects { items } = self;
        drop(items);
    }
}

impl Model for Effects {
    ghost use Rattle.std.specs.Prelude.{List};
    ghost use Rattle.zs_events.specs.declared.turn.Effect.{Effect};

    ghost Value = { List Effect };

    ghost view = { λ e. e.items.items };
}

impl Effects {
    /// No effects, in no memory.
    pub fn new(alloc: Global) -> Effects
        ensures { result ≡ [] }
    {
        Effects {
            items: Vec::new(alloc),
        }
    }

    /// Puts an effect behind the others.
    ///
    /// # Errors
    ///
    /// Want of memory alone.
    pub fn push(&mut self, effect: Effect) -> Result<(), AllocError>
        ensures ok { OnOk result (self.new ≡ self.old ++ effect ∷ []) }
        ensures err { OnErr result (self.new ≡ self.old) }
    {
        self.items.push(effect)?;
        Ok(())
    }

    /// How many there are.
    pub fn len(&self) -> usize
        ensures { result ≡ length self.now }
    {
        self.items.len()
    }

    /// Whether there is none.
    pub fn is_empty(&self) -> bool
        ensures { IsTrue result ↔ (self.now ≡ []) }
    {
        self.items.is_empty()
    }

    /// The effect at that place, if there are so many.
    pub fn get(&self, index: usize) -> Option<&Effect>
        ensures { option_copied result ≡ slice_get self.now index }
    {
        self.items.get(index)
    }

    /// All of them, in order.
    pub fn as_slice(&self) -> &[Effect]
        ensures { result.now ≡ self.now }
    {
        self.items.as_slice()
    }

    /// The same effects. They share the memory of texts, payloads and attachments.
    pub fn try_clone(&self, alloc: Global) -> Result<Effects, AllocError>
        ensures { IfOk result (λ copy. copy ≡ self.now) }
    {
        clone_all(self.as_slice(), alloc)
    }

    /// The list itself, in the memory that it has.
    pub fn into_vec(self) -> Vec<Effect>
        ensures { result.items ≡ self }
    {
        let Effects { items } = self;
        items
    }
}

/// The same effects, in their order.
fn clone_all(effects: &[Effect], alloc: Global) -> Result<Effects, AllocError>
    ensures { IfOk result (λ copies. copies ≡ effects.now) }
{
    let mut copies = Effects::new(alloc);
    for effect in effects {
        copies.push(effect.try_clone()?)?;
    }
    Ok(copies)
}

/// What a session made of one event.
#[derive(Drop)]
pub struct Turn {
    pub answer: Answer,
    pub effects: Effects,
}

impl Turn {
    /// Whether the event was refused.
    pub fn is_refused(&self) -> bool
        ensures { result ≡ was_refused self.now.answer }
    {
        matches!(self.answer, Answer::Refused(_))
    }

    /// The same turn. It shares the memory of texts, payloads and attachments.
    pub fn try_clone(&self, alloc: Global) -> Result<Turn, AllocError>
        ensures { IfOk result (λ copy. copy ≡ self.now) }
    {
        let effects = self.effects.try_clone(alloc)?;
        Ok(Turn {
            answer: self.answer,
            effects,
        })
    }

    /// A refused event, which brings nothing about.
    pub fn refused(alloc: Global, refusal: Refusal) -> Turn
        ensures { result ≡ answered (Some refusal) None [] }
    {
        Turn {
            answer: Answer::Refused(refusal),
            effects: Effects::new(alloc),
        }
    }

    /// An accepted event that brings nothing about but its number.
    pub fn quiet(alloc: Global, number: Option<u32>) -> Turn
        ensures { result ≡ answered None number [] }
    {
        Turn {
            answer: Answer::Ok(number),
            effects: Effects::new(alloc),
        }
    }

    /// An accepted event, with its number where its kind draws one, and what it brings about.
    pub fn accepted(number: Option<u32>, effects: Effects) -> Turn
        ensures { result ≡ answered None number effects }
    {
        Turn {
            answer: Answer::Ok(number),
            effects,
        }
    }

    /// An accepted event that draws no number.
    pub fn of(effects: Effects) -> Turn
        ensures { result ≡ answered None None effects }
    {
        Turn {
            answer: Answer::Ok(None),
            effects,
        }
    }
}
