//! What the types of an event's fields say of whatever event a program holds: numbers are in range, bytes are bytes and
//! characters are characters. The law on printed events takes that for granted; a call of this crate tells it of an event at hand.
#![tactic(auto)]

pub use events::type_event;

mod events;
mod messages;
mod parts;
mod symbols;
