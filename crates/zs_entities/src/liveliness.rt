//! What a session declares and asks of liveliness.
ghost use Rattle.std.specs.Prelude.{◌≡◌};
ghost use Rattle.zs_entities.specs.Builders.{new_liveliness_subscriber, new_liveliness_get};

use crate::liveliness_get::LivelinessGetBuilder;
use crate::liveliness_subscriber::LivelinessSubscriberBuilder;
use crate::liveliness_token_builder::LivelinessTokenBuilder;
use std::marker::Model;
use zs_cell::{Books, Session};
use zs_keys::KeyExpr;

/// The liveliness of a session: who is alive is seen by tokens on keys. Contracts see the session.
#[derive(Drop)]
pub struct Liveliness<'a, H, B: Books> {
    session: &'a Session<H, B>,
}

impl<'a, H, B: Books> Model for Liveliness<'a, H, B> {
    ghost use Rattle.zs_cell.specs.Places.{SessionPlace};

    ghost Value = { SessionPlace };

    ghost view = { λ l. l.session.now };
}

impl<'a, H, B: Books> Liveliness<'a, H, B> {
    /// The liveliness of that session. Nothing is declared or asked by this.
    pub(crate) fn of(session: &'a Session<H, B>) -> Liveliness<'a, H, B>
        ensures { result ≡ session.now }
    {
        Liveliness { session }
    }

    /// A token on a key, by which others see that someone is alive.
    pub fn declare_token(&self, key: KeyExpr<'a>) -> LivelinessTokenBuilder<'a, H, B>
        ensures { result ≡ record { session = self.now; key = key.entry } }
    {
        LivelinessTokenBuilder::of(self.session, key)
    }

    /// A subscriber to the tokens on keys that meet this one.
    pub fn declare_subscriber(&self, key: KeyExpr<'a>) -> LivelinessSubscriberBuilder<'a, H, B>
        ensures { result ≡ new_liveliness_subscriber self.now key.entry }
    {
        LivelinessSubscriberBuilder::of(self.session, key)
    }

    /// A get of the tokens that are alive on keys that meet this one.
    pub fn get(&self, key: KeyExpr<'a>) -> LivelinessGetBuilder<'a, H, B>
        ensures { result ≡ new_liveliness_get self.now key.entry }
    {
        LivelinessGetBuilder::of(self.session, key)
    }
}
