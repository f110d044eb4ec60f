//! The keys that events name, and why they are refused.

ghost use Rattle.std.specs.Prelude.{◌≡◌, ◌++◌, Some, IfOk};
ghost use Rattle.zs_events.specs.Kinds.{is_all_of, claim_of};
ghost use Rattle.zs_subscriptions.specs.Numbers.{key_at};
ghost use Rattle.zs_world.specs.Keys.{key_of, wire_of, has_claim, is_key_of, resolution};

use std::alloc::{AllocError, Global};
use zs_events::{KeyArg, Refusal};
use zs_keys::{KeyError, KeyExpr};
use zs_making::keys::is_all_of;
use zs_sample::Text;
use zs_wire::{Mapping, WireExpr};
use zs_world::SessionTables;

/// The key that an event names, as the application gave it or as it came from the network.
#[derive(Clone, Copy)]
pub enum KeyName<'a> {
    Own(&'a KeyArg),
    /// The key of the publisher of that number.
    Publisher(u32),
    /// The key of the querier of that number.
    Querier(u32),
    Wire(&'a WireExpr),
}

/// The key that an application's argument stands for, or why it is refused.
pub fn resolve<'a>(
    world: &'a SessionTables,
    key: &'a KeyArg,
) -> Result<Result<KeyExpr<'a>, Refusal>, AllocError>
    ensures { IfOk result (λ found. found ≡ resolution Refusal.NotFound (key_of world.now key.now)) }
{
    match key {
        KeyArg::Text(text) | KeyArg::Declared { text, .. } => Ok(canonical(text.as_str())),
        KeyArg::Number { number, suffix } => {
            let Some(known) = world.tables.key_of(Mapping::Receiver, *number) else {
                return Ok(Err(Refusal::NotFound));
            };
            with_suffix(world.alloc, known, suffix.as_str())
        }
    }
}

/// Whether the text of a key argument stands under the number that it claims, if it claims one.
pub fn has_claim(world: &SessionTables, key: &KeyArg) -> bool
    ensures { result ≡ has_claim world.now (claim_of key.now) (key_of world.now key.now) }
{
    match key {
        KeyArg::Declared {
            text,
            number,
            prefix_len,
        } if is_all_of(text, *prefix_len) => stands_under(world, *number, text.as_str()),
        _ => true,
    }
}

/// Whether a number that this session declared stands for that text.
fn stands_under(world: &SessionTables, number: u16, text: &str) -> bool
    ensures { result ≡ is_key_of text.now (key_at number world.now.keys.local_resources) }
{
    match world.tables.key_of(Mapping::Receiver, number) {
        Some(key) => key.as_str() == text,
        None => false,
    }
}

/// The key that a wire expression stands for, or why it is refused.
pub fn resolve_wire<'a>(
    world: &'a SessionTables,
    wire: &'a WireExpr,
) -> Result<Result<KeyExpr<'a>, Refusal>, AllocError>
    ensures { IfOk result (λ found. found ≡ resolution Refusal.UnknownScope (wire_of world.now wire.now)) }
{
    let suffix = wire.suffix.as_str();
    if wire.scope == 0 {
        return Ok(canonical(suffix));
    }
    let Some(known) = world.tables.key_of(wire.mapping, wire.scope) else {
        return Ok(Err(Refusal::UnknownScope));
    };
    with_suffix(world.alloc, known, suffix)
}

/// A text as a key.
fn canonical(text: &str) -> Result<KeyExpr<'_>, Refusal>
    ensures { result ≡ resolution Refusal.NotFound (Some text.now) }
{
    match KeyExpr::new(text) {
        Ok(key) => Ok(key),
        Err(_) => Err(Refusal::BadKeyExpr),
    }
}

/// A key with a text behind it.
fn with_suffix<'a>(
    alloc: Global,
    key: &'a KeyExpr<'static>,
    suffix: &str,
) -> Result<Result<KeyExpr<'a>, Refusal>, AllocError>
    ensures { IfOk result (λ found. found ≡ resolution Refusal.NotFound (Some (key.now.text ++ suffix.now))) }
{
    match key.with_suffix(alloc, suffix) {
        Ok(key) => Ok(Ok(key.without_declaration())),
        Err(KeyError::NoMemory) => Err(AllocError),
        Err(_) => Ok(Err(Refusal::BadKeyExpr)),
    }
}
