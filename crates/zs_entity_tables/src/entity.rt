//! What entities that share a declaration to the network have in common.

ghost use Rattle.std.specs.Prelude.{◌≡◌};
ghost use Rattle.zs_subscriptions.specs.Recipients.{has_network};
ghost use Rattle.zs_model.specs.Groups.{Shared};

use zs_keys::KeyExpr;
use zs_model::{PubRow, QuerierRow};
use zs_sample::Locality;
use zs_tables::SubRow;

/// An entity that shares a network declaration with others of its kind.
pub trait Entity: Drop {
    ghost shared: { Self → Shared };

    /// Its number.
    fn id(&self) -> u32
        ensures { result ≡ (shared self.now).id };

    /// Whom it is for: where the network is among them, it is told of the entity.
    fn destination(&self) -> Locality
        ensures { has_network result ≡ (shared self.now).is_announced };

    /// Its key.
    fn key(&self) -> &KeyExpr<'static>
        ensures { result.now.text ≡ (shared self.now).text };
}

impl Entity for SubRow {
    ghost use Rattle.zs_model.specs.Groups.{sub_shared};

    ghost shared = { sub_shared };

    /// The number that the subscriber drew.
    fn id(&self) -> u32 {
        self.id
    }

    /// Whence the subscriber takes samples: where the network is in that, it is told of the subscriber.
    fn destination(&self) -> Locality {
        self.origin
    }

    /// The key that the subscriber was declared on.
    fn key(&self) -> &KeyExpr<'static> {
        &self.key
    }
}

impl Entity for PubRow {
    ghost use Rattle.zs_model.specs.Groups.{pub_shared};

    ghost shared = { pub_shared };

    /// The number that the publisher drew.
    fn id(&self) -> u32 {
        self.id
    }

    /// Whose subscribers the publisher's samples are handed to, by its settings.
    fn destination(&self) -> Locality {
        self.settings.get().destination
    }

    /// The key that the publisher was declared on.
    fn key(&self) -> &KeyExpr<'static> {
        &self.key
    }
}

impl Entity for QuerierRow {
    ghost use Rattle.zs_model.specs.Groups.{querier_shared};

    ghost shared = { querier_shared };

    /// The number that the querier drew.
    fn id(&self) -> u32 {
        self.id
    }

    /// Whose queryables the querier asks, by its settings.
    fn destination(&self) -> Locality {
        self.settings.destination
    }

    /// The key that the querier was declared on.
    fn key(&self) -> &KeyExpr<'static> {
        &self.key
    }
}
