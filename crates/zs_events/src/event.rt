//! The events of a session: what its application does, what the network sends, and the clock.
ghost use Rattle.std.specs.Prelude.{◌≡◌};
ghost use Rattle.zs_events.specs.Kinds.{row_of};

use crate::chan::Chan;
use crate::entity_kind::{BackgroundKind, EntityKind, ParentKind};
use crate::inquiry::{Inquiry, QuerySettings};
use crate::key_arg::KeyArg;
use crate::publication::{PublicationQuality, PublisherSettings, ReplyQuality};
use crate::turn::Kind;
use crate::update::Update;
use zs_sample::Locality;
use zs_shared::Shared;
use zs_wire::{Message, Value};

/// What can happen to a session. It is small: what it carries stands in places that can be shared.
#[derive(Debug)]
pub enum Event {
    /// The application declares a key, which is from then on held under a number.
    Key {
        key: KeyArg,
    },
    /// The application gives a declared key back. Its number ends when it was given back as often as it was declared.
    UndeclareKey {
        key: KeyArg,
    },
    /// The application declares a subscriber, which takes publications of this origin.
    Sub {
        origin: Locality,
        key: KeyArg,
        to: Chan,
    },
    /// The application declares a publisher.
    Pub {
        key: KeyArg,
        settings: Shared<PublisherSettings>,
    },
    /// The application declares a queryable, which is handed the requests of this origin whose keys meet its own.
    Queryable {
        origin: Locality,
        /// Whether it knows all values of its key: requests can ask for such queryables alone.
        complete: bool,
        key: KeyArg,
    },
    /// The application declares a querier, whose gets ask in this way.
    Querier {
        key: KeyArg,
        settings: QuerySettings,
    },
    /// The application declares a listener, which is told from now on whether anyone matches that publisher or querier.
    Listen {
        parent: ParentKind,
        id: u32,
    },
    /// The application asks whether anyone matches that publisher or querier.
    Status {
        parent: ParentKind,
        id: u32,
    },
    /// The application declares a liveliness token: others see that it is alive while it is not undeclared.
    Token {
        key: KeyArg,
    },
    /// The application declares a subscriber to liveliness, which is handed the tokens that come and go.
    Lsub {
        /// Whether it is handed those that are there already.
        history: bool,
        key: KeyArg,
    },
    /// The application ends what it declared under this number.
    Undeclare {
        kind: EntityKind,
        id: u32,
    },
    /// What the application declared under this number lives on, and can no longer be named.
    Background {
        kind: BackgroundKind,
        id: u32,
    },
    /// The application puts or deletes a key's value, for subscribers of this destination.
    Publish {
        destination: Locality,
        key: KeyArg,
        update: Shared<Update>,
        quality: PublicationQuality,
    },
    /// A publisher puts or deletes the value of its key.
    PublishBy {
        id: u32,
        update: Shared<Update>,
    },
    /// The application makes a cancellation token, which gets can be given.
    CancelToken,
    /// The application cancels what was given that token: its open gets end, and nothing more is handed to them.
    Cancel {
        cancellation_token: u32,
    },
    /// The application asks for values of a key.
    Get {
        key: KeyArg,
        settings: QuerySettings,
        inquiry: Shared<Inquiry>,
        to: Chan,
    },
    /// A querier asks for values of its key.
    QuerierGet {
        id: u32,
        inquiry: Shared<Inquiry>,
        to: Chan,
    },
    /// The application asks for the liveliness tokens that are alive.
    LivelinessGet {
        key: KeyArg,
        /// After how many milliseconds it ends whatever is missing, in place of what the settings say.
        timeout: Option<u64>,
        /// The cancellation token by which it can be cancelled.
        cancellation_token: Option<u32>,
        to: Chan,
    },
    /// The application answers a query with what it says of a key.
    Reply {
        /// The number under which the query was handed to its queryable.
        value: u32,
        key: KeyArg,
        update: Shared<Update>,
        quality: ReplyQuality,
    },
    /// The application answers a query with an error. The empty encoding is the default one.
    ReplyErr {
        value: u32,
        error: Shared<Value>,
    },
    /// The application asks for one more number of a query, which is to be given back like the first.
    Share {
        value: u32,
    },
    /// The application gives a query back: it answers no more under this number. The asker is told when all numbers of
    /// its request were given back.
    Finish {
        value: u32,
    },
    /// A moment has come, in milliseconds from a beginning of the caller's choice.
    Tick {
        now: u64,
    },
    /// The application closes the session.
    Close,
    /// A message comes in from the network.
    Net(Shared<Message>),
}

impl Drop for Event {
    /// Lets go of the event's key, and of its hold on what it shares.
    fn drop(self) {
        match self {
            Event::Key { key } => drop(key),
            Event::UndeclareKey { key } => drop(key),
            Event::Sub {
                origin: _,
                key,
                to: _,
            } => drop(key),
            Event::Pub { key, settings } => {
                drop(key);
                drop(settings);
            }
            Event::Queryable {
                origin: _,
                complete: _,
                key,
            } => drop(key),
            Event::Querier { key, settings: _ } => drop(key),
            Event::Listen { parent: _, id: _ } => {}
            Event::Status { parent: _, id: _ } => {}
            Event::Token { key } => drop(key),
            Event::Lsub { history: _, key } => drop(key),
            Event::Undeclare { kind: _, id: _ } => {}
            Event::Background { kind: _, id: _ } => {}
            Event::Publish {
                destination: _,
                key,
                update,
                quality: _,
            } => {
                drop(key);
                drop(update);
            }
            Event::PublishBy { id: _, update } => drop(update),
            Event::CancelToken => {}
            Event::Cancel {
                cancellation_token: _,
            } => {}
            Event::Get {
                key,
                settings: _,
                inquiry,
                to: _,
            } => {
                drop(key);
                drop(inquiry);
            }
            Event::QuerierGet {
                id: _,
                inquiry,
                to: _,
            } => drop(inquiry),
            Event::LivelinessGet {
                key,
                timeout: _,
                cancellation_token: _,
                to: _,
            } => drop(key),
            Event::Reply {
                value: _,
                key,
                update,
                quality: _,
            } => {
                drop(key);
                drop(update);
            }
            Event::ReplyErr { value: _, error } => drop(error),
            Event::Share { value: _ } => {}
            Event::Finish { value: _ } => {}
            Event::Tick { now: _ } => {}
            Event::Close => {}
            Event::Net(message) => drop(message),
        }
    }
}

impl Event {
    /// The kind of what is handed to the application, or told it, under the number that the event draws, if it draws one
    /// with a handler.
    pub fn handled(&self) -> Option<Kind>
        ensures { result ≡ (row_of self.now).handled }
    {
        match self {
            Event::Sub { .. } => Some(Kind::Subscriber),
            Event::Queryable { .. } => Some(Kind::Queryable),
            Event::Lsub { .. } => Some(Kind::LivelinessSubscriber),
            Event::Listen { .. } => Some(Kind::Listener),
            Event::Get { .. } => Some(Kind::Get),
            Event::QuerierGet { .. } => Some(Kind::Get),
            Event::LivelinessGet { .. } => Some(Kind::LivelinessGet),
            _ => None,
        }
    }

    /// Where that goes beside being handed over.
    pub fn channel(&self) -> Chan
        ensures { result ≡ (row_of self.now).channel }
    {
        match self {
            Event::Sub { to, .. } => *to,
            Event::Get { to, .. } => *to,
            Event::QuerierGet { to, .. } => *to,
            Event::LivelinessGet { to, .. } => *to,
            _ => Chan::Print,
        }
    }
}
