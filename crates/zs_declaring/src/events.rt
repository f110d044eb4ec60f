//! The events by which an application declares entities, leaves them to themselves and ends them.
ghost use Rattle.std.specs.Prelude.{◌≡◌, true, false};
ghost use Rattle.zs_events.specs.declared.chan.Chan.TheVariants.{Print};
ghost use Rattle.zs_events.specs.declared.event.Event.TheVariants.{Sub, Pub, Queryable, Querier, Listen, Status, Token, Lsub, LivelinessGet, Undeclare, Background};
ghost use Rattle.zs_turns.specs.Gates.{takes_handler};
ghost use Rattle.zs_held.specs.Numbers.{numbered_at};

use zs_events::{
    BackgroundKind, Chan, EntityKind, Event, KeyArg, ParentKind, PublisherSettings, QuerySettings,
    Shared,
};
use zs_sample::Locality;

/// A subscriber is declared, for publications of that origin.
#[tactic(auto, unfolding(zs_held::specs::Numbers::numbered_at, zs_turns::specs::Gates::takes_handler))]
pub fn subscriber(origin: Locality, key: KeyArg) -> Event
    ensures event { result ≡ Sub origin key Print }
    ensures number { numbered_at result ≡ true }
    ensures handler { takes_handler result ≡ true }
{
    Event::Sub {
        origin,
        key,
        to: Chan::Print,
    }
}

/// A publisher is declared.
#[tactic(auto, unfolding(zs_held::specs::Numbers::numbered_at))]
pub fn publisher(key: KeyArg, settings: Shared<PublisherSettings>) -> Event
    ensures event { result ≡ Pub key settings }
    ensures number { numbered_at result ≡ true }
{
    Event::Pub { key, settings }
}

/// A queryable is declared, for requests of that origin.
#[tactic(auto, unfolding(zs_held::specs::Numbers::numbered_at, zs_turns::specs::Gates::takes_handler))]
pub fn queryable(origin: Locality, complete: bool, key: KeyArg) -> Event
    ensures event { result ≡ Queryable origin complete key }
    ensures number { numbered_at result ≡ true }
    ensures handler { takes_handler result ≡ true }
{
    Event::Queryable {
        origin,
        complete,
        key,
    }
}

/// A querier is declared.
#[tactic(auto, unfolding(zs_held::specs::Numbers::numbered_at))]
pub fn querier(key: KeyArg, settings: QuerySettings) -> Event
    ensures event { result ≡ Querier key settings }
    ensures number { numbered_at result ≡ true }
{
    Event::Querier { key, settings }
}

/// A listener to the matching of that publisher or querier is declared.
#[tactic(auto, unfolding(zs_held::specs::Numbers::numbered_at, zs_turns::specs::Gates::takes_handler))]
pub fn listener(parent: ParentKind, id: u32) -> Event
    ensures event { result ≡ Listen parent id }
    ensures number { numbered_at result ≡ true }
    ensures handler { takes_handler result ≡ true }
{
    Event::Listen { parent, id }
}

/// It is asked whether anyone matches that publisher or querier.
#[tactic(auto, unfolding(zs_held::specs::Numbers::numbered_at))]
pub fn matching_status(parent: ParentKind, id: u32) -> Event
    ensures event { result ≡ Status parent id }
    ensures number { numbered_at result ≡ true }
{
    Event::Status { parent, id }
}

/// A liveliness token is declared.
#[tactic(auto, unfolding(zs_held::specs::Numbers::numbered_at))]
pub fn token(key: KeyArg) -> Event
    ensures event { result ≡ Token key }
    ensures number { numbered_at result ≡ true }
{
    Event::Token { key }
}

/// A subscriber to liveliness is declared, which is handed the tokens that are there already, or isn't.
#[tactic(auto, unfolding(zs_held::specs::Numbers::numbered_at, zs_turns::specs::Gates::takes_handler))]
pub fn liveliness_subscriber(history: bool, key: KeyArg) -> Event
    ensures event { result ≡ Lsub history key }
    ensures number { numbered_at result ≡ true }
    ensures handler { takes_handler result ≡ true }
{
    Event::Lsub { history, key }
}

/// It is asked for the liveliness tokens that are alive.
#[tactic(auto, unfolding(zs_held::specs::Numbers::numbered_at, zs_turns::specs::Gates::takes_handler))]
pub fn liveliness_get(key: KeyArg, timeout: Option<u64>, cancellation_token: Option<u32>) -> Event
    ensures event { result ≡ LivelinessGet key timeout cancellation_token Print }
    ensures number { numbered_at result ≡ true }
    ensures handler { takes_handler result ≡ true }
{
    Event::LivelinessGet {
        key,
        timeout,
        cancellation_token,
        to: Chan::Print,
    }
}

/// What was declared under that number ends.
#[tactic(auto, unfolding(zs_held::specs::Numbers::numbered_at))]
pub fn undeclaration(kind: EntityKind, id: u32) -> Event
    ensures event { result ≡ Undeclare kind id }
    ensures number { numbered_at result ≡ false }
{
    Event::Undeclare { kind, id }
}

/// What was declared under that number is left to itself.
#[tactic(auto, unfolding(zs_held::specs::Numbers::numbered_at))]
pub fn background(kind: BackgroundKind, id: u32) -> Event
    ensures event { result ≡ Background kind id }
    ensures number { numbered_at result ≡ false }
{
    Event::Background { kind, id }
}
