//! The events that builders make, with what the session asks of each: whether it is answered a number, and whether it may
//! come with a handler.
ghost use Rattle.std.specs.Prelude.{◌≡◌, true, false};
ghost use Rattle.zs_events.specs.declared.chan.Chan.TheVariants.{Print};
ghost use Rattle.zs_events.specs.declared.event.Event.TheVariants.{Publish, PublishBy, Get, QuerierGet, Reply, ReplyErr, Share, Finish};
ghost use Rattle.zs_turns.specs.Gates.{takes_handler};
ghost use Rattle.zs_held.specs.Numbers.{numbered_at};

use zs_events::{
    Chan, Event, Inquiry, KeyArg, PublicationQuality, QuerySettings, ReplyQuality, Shared, Update,
};
use zs_sample::Locality;
use zs_wire::Value;

/// What the session itself publishes on a key.
#[tactic(auto, unfolding(zs_held::specs::Numbers::numbered_at))]
pub(crate) fn publish(
    destination: Locality,
    key: KeyArg,
    update: Shared<Update>,
    quality: PublicationQuality,
) -> Event
    ensures event { result ≡ Publish destination key update quality }
    ensures number { numbered_at result ≡ false }
{
    Event::Publish {
        destination,
        key,
        update,
        quality,
    }
}

/// What the publisher of that number publishes, on its key and with its quality.
#[tactic(auto, unfolding(zs_held::specs::Numbers::numbered_at))]
pub(crate) fn publish_by(id: u32, update: Shared<Update>) -> Event
    ensures event { result ≡ PublishBy id update }
    ensures number { numbered_at result ≡ false }
{
    Event::PublishBy { id, update }
}

/// A get on a key. Its replies go to its handler, so it names no channel.
#[tactic(auto, unfolding(zs_held::specs::Numbers::numbered_at, zs_turns::specs::Gates::takes_handler))]
pub(crate) fn get(key: KeyArg, settings: QuerySettings, inquiry: Shared<Inquiry>) -> Event
    ensures event { result ≡ Get key settings inquiry Print }
    ensures number { numbered_at result ≡ true }
    ensures handler { takes_handler result ≡ true }
{
    Event::Get {
        key,
        settings,
        inquiry,
        to: Chan::Print,
    }
}

/// A get of the querier of that number. Its replies go to its handler, so it names no channel.
#[tactic(auto, unfolding(zs_held::specs::Numbers::numbered_at, zs_turns::specs::Gates::takes_handler))]
pub(crate) fn querier_get(id: u32, inquiry: Shared<Inquiry>) -> Event
    ensures event { result ≡ QuerierGet id inquiry Print }
    ensures number { numbered_at result ≡ true }
    ensures handler { takes_handler result ≡ true }
{
    Event::QuerierGet {
        id,
        inquiry,
        to: Chan::Print,
    }
}

/// An answer under a query's number: what a key's value is, or that it is deleted.
#[tactic(auto, unfolding(zs_held::specs::Numbers::numbered_at))]
pub(crate) fn reply(value: u32, key: KeyArg, update: Shared<Update>, quality: ReplyQuality) -> Event
    ensures event { result ≡ Reply value key update quality }
    ensures number { numbered_at result ≡ false }
{
    Event::Reply {
        value,
        key,
        update,
        quality,
    }
}

/// An answer under a query's number: an error.
#[tactic(auto, unfolding(zs_held::specs::Numbers::numbered_at))]
pub(crate) fn reply_err(value: u32, error: Shared<Value>) -> Event
    ensures event { result ≡ ReplyErr value error }
    ensures number { numbered_at result ≡ false }
{
    Event::ReplyErr { value, error }
}

/// One more of the query of that number: the answer is the new one's number.
#[tactic(auto, unfolding(zs_held::specs::Numbers::numbered_at))]
pub(crate) fn share(value: u32) -> Event
    ensures event { result ≡ Share value }
    ensures number { numbered_at result ≡ true }
{
    Event::Share { value }
}

/// The query of that number is given back.
#[tactic(auto, unfolding(zs_held::specs::Numbers::numbered_at))]
pub(crate) fn finish(value: u32) -> Event
    ensures event { result ≡ Finish value }
    ensures number { numbered_at result ≡ false }
{
    Event::Finish { value }
}
