//! Whom a listener may listen for, and whether it does.
ghost use Rattle.std.specs.Prelude.{◌≡◌};
ghost use Rattle.zs_tables.specs.Matching.{own_sub, own_queryable, remote_subscriber, remote_queryable, seen, is_sought, suits};

use crate::listener::{ListenerRow, Sought};
use crate::queryable::QueryableRow;
use crate::remote_row::{RemoteQueryable, RemoteSubscriber};
use zs_keys::KeyExpr;
use zs_subscriptions::{SubRow, takes};

/// What someone is whom listeners may listen for.
#[derive(Clone, Copy, Debug, PartialEq, Eq)]
pub enum Offer {
    Subscriber,
    /// A queryable, and whether it can answer alone for all keys that its own includes.
    Queryable { complete: bool },
}

/// Someone whom listeners may listen for: of this session, or of the network.
#[derive(Clone, Copy)]
pub struct Candidate<'a> {
    /// Whether it is of this session.
    pub local: bool,
    pub offer: Offer,
    pub key: &'a KeyExpr<'a>,
}

impl<'a> Candidate<'a> {
    /// A subscriber of this session.
    pub fn own_sub(row: &'a SubRow) -> Candidate<'a>
        ensures { seen result ≡ own_sub row.now }
    {
        Candidate {
            local: true,
            offer: Offer::Subscriber,
            key: &row.key,
        }
    }

    /// A queryable of this session.
    pub fn own_queryable(row: &'a QueryableRow) -> Candidate<'a>
        ensures { seen result ≡ own_queryable row.now }
    {
        Candidate {
            local: true,
            offer: Offer::Queryable {
                complete: row.complete,
            },
            key: &row.key,
        }
    }

    /// A subscriber that the other side declared.
    pub fn remote_subscriber(row: &'a RemoteSubscriber) -> Candidate<'a>
        ensures { seen result ≡ remote_subscriber row.now }
    {
        Candidate {
            local: false,
            offer: Offer::Subscriber,
            key: &row.key,
        }
    }

    /// A queryable that the other side declared.
    pub fn remote_queryable(row: &'a RemoteQueryable) -> Candidate<'a>
        ensures { seen result ≡ remote_queryable row.now }
    {
        Candidate {
            local: false,
            offer: Offer::Queryable {
                complete: row.complete,
            },
            key: &row.key,
        }
    }

    /// Whether a listener listens for it.
    pub fn suits(&self, listener: &ListenerRow) -> bool
        ensures { result ≡ suits (seen self.now) listener.now }
    {
        takes(self.local, listener.destination)
            && is_sought(listener.sought, &listener.key, self.offer, self.key)
    }
}

/// Whether what is sought on one key is on offer on the other.
fn is_sought(sought: Sought, mine: &KeyExpr<'_>, offer: Offer, its: &KeyExpr<'_>) -> bool
    ensures { result ≡ is_sought sought mine.now.text offer its.now.text }
{
    match (sought, offer) {
        (Sought::Subscribers, Offer::Subscriber) => its.meets(mine),
        (Sought::Queryables, Offer::Queryable { .. }) => its.meets(mine),
        (Sought::CompleteQueryables, Offer::Queryable { complete }) => {
            complete && its.includes(mine)
        }
        (Sought::Subscribers, Offer::Queryable { .. }) => false,
        (Sought::Queryables, Offer::Subscriber) => false,
        (Sought::CompleteQueryables, Offer::Subscriber) => false,
    }
}
