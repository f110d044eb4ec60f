//! The order of what an event brings about.

ghost use Rattle.zs_laws.specs.Order.{EffectsAreInOrder};

/// Of what an event brings about first stands what is sent; then what is handed out, for gets of tokens behind all others; then
/// what ends: queryables, subscribers, subscribers to liveliness, gets, gets of tokens, listeners; and last what listeners hear.
pub fn effects_are_in_order()
    ensures { EffectsAreInOrder }
{}
