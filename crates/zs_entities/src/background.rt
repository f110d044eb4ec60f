//! Builders of entities that are left to themselves.
ghost use Rattle.std.specs.Prelude.{◌≡◌};

use std::marker::Model;

/// A builder of an entity that nobody will hold: its `wait` declares it, and gives its number alone. Contracts see the builder.
#[must_use = "nothing is declared before `wait`"]
#[derive(Drop)]
pub struct BackgroundBuilder<V> {
    builder: V,
}

impl<V> Model for BackgroundBuilder<V> {
    ghost Value = { V };

    ghost view = { λ b. b.builder };
}

impl<V> BackgroundBuilder<V> {
    /// That of an entity, from the builder of one that would be held.
    pub(crate) fn of(builder: V) -> BackgroundBuilder<V>
        ensures { result ≡ builder }
    {
        BackgroundBuilder { builder }
    }

    /// The builder that it was made of, with all that was said of the entity.
    pub(crate) fn into_builder(self) -> V
        ensures { result ≡ self }
    {
        self.builder
    }
}
