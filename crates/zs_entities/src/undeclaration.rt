//! Ends of entities, which wait for callbacks or don't.
ghost use Rattle.std.specs.Prelude.{◌≡◌, true, false};

use std::marker::Model;

/// An entity that is to be ended. It is waited for: nothing has ended before `wait`. Contracts see the entity, and whether its
/// callbacks are waited for.
#[must_use = "nothing is undeclared before `wait`"]
pub struct Undeclaration<V> {
    value: V,
    waits: bool,
}

impl<V> Model for Undeclaration<V> {
    ghost use Rattle.zs_entities.specs.Entities.{Undeclaring};

    ghost Value = { Undeclaring V };

    ghost view = { λ u. record { value = u.value; waits = u.waits } };
}

impl<V> Undeclaration<V> {
    // The end of an entity, whose callbacks aren't waited for.
    pub(crate) fn of(value: V) -> Undeclaration<V>
        ensures { result ≡ record { value = value; waits = false } }
    {
        Undeclaration {
            value,
            waits: false,
        }
    }

    /// With waiting until none of its callbacks is under way. It never returns to whoever is inside of one.
    pub fn wait_callbacks(self) -> Undeclaration<V>
        ensures { result ≡ record self { waits = true } }
    {
        let Undeclaration { value, waits: _ } = self;
        Undeclaration { value, waits: true }
    }

    // The entity, and whether its callbacks are waited for.
    pub(crate) fn into_parts(self) -> (V, bool)
        ensures value { result.0 ≡ self.value }
        ensures waits { result.1 ≡ self.waits }
    {
        let Undeclaration { value, waits } = self;
        (value, waits)
    }
}
