//! The calls of a session that give builders of entities.
ghost use Rattle.std.specs.Prelude.{◌≡◌};
ghost use Rattle.zs_entities.specs.Builders.{new_subscriber, new_publisher, new_queryable, new_querier};

use crate::liveliness::Liveliness;
use crate::publisher_builder::PublisherBuilder;
use crate::querier_builder::QuerierBuilder;
use crate::queryable_builder::QueryableBuilder;
use crate::subscriber_builder::SubscriberBuilder;
use zs_cell::{Books, Session};
use zs_keys::KeyExpr;

/// What is declared in a session. Nothing happens before the builder's `wait`.
pub trait SessionEntities<H, B: Books> {
    /// A subscriber to what is published on keys that meet this one.
    fn declare_subscriber<'a>(&'a self, key: KeyExpr<'a>) -> SubscriberBuilder<'a, H, B>;

    /// A publisher on a key.
    fn declare_publisher<'a>(&'a self, key: KeyExpr<'a>) -> PublisherBuilder<'a, H, B>;

    /// A queryable, which answers queries on keys that meet this one.
    fn declare_queryable<'a>(&'a self, key: KeyExpr<'a>) -> QueryableBuilder<'a, H, B>;

    /// A querier on a key.
    fn declare_querier<'a>(&'a self, key: KeyExpr<'a>) -> QuerierBuilder<'a, H, B>;
}

/// The liveliness of a session's entities.
pub trait SessionLiveliness<H, B: Books> {
    /// Its liveliness: tokens on keys, and who wants to know of them.
    fn liveliness<'a>(&'a self) -> Liveliness<'a, H, B>;
}

impl<H, B: Books> SessionEntities<H, B> for Session<H, B> {
    /// Begins with samples from anywhere, and without a handler.
    fn declare_subscriber<'a>(&'a self, key: KeyExpr<'a>) -> SubscriberBuilder<'a, H, B>
        ensures { result ≡ new_subscriber self.now key.entry }
    {
        SubscriberBuilder::of(self, key)
    }

    /// Begins for all subscribers, with the default encoding and quality, and reliable.
    fn declare_publisher<'a>(&'a self, key: KeyExpr<'a>) -> PublisherBuilder<'a, H, B>
        ensures { result ≡ new_publisher self.now key.entry }
    {
        PublisherBuilder::of(self, key)
    }

    /// Begins with queries from anywhere, not complete, and without a handler.
    fn declare_queryable<'a>(&'a self, key: KeyExpr<'a>) -> QueryableBuilder<'a, H, B>
        ensures { result ≡ new_queryable self.now key.entry }
    {
        QueryableBuilder::of(self, key)
    }

    /// Begins with the same settings as a get of the session.
    fn declare_querier<'a>(&'a self, key: KeyExpr<'a>) -> QuerierBuilder<'a, H, B>
        ensures { result ≡ new_querier self.now key.entry }
    {
        QuerierBuilder::of(self, key)
    }
}

impl<H, B: Books> SessionLiveliness<H, B> for Session<H, B> {
    /// Borrows the session, and changes nothing in it.
    fn liveliness<'a>(&'a self) -> Liveliness<'a, H, B>
        ensures { result ≡ self.now }
    {
        Liveliness::of(self)
    }
}
