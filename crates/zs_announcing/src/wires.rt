//! The form that messages give a key: by its number, or whole.

ghost use Rattle.std.specs.Prelude.{◌≡◌, None, Some, IfOk, IfSome, is_some, drop, ◌==◌};
ghost use Rattle.zs_world.specs.Decisions.{own_keys_at};
ghost use Rattle.zs_model.specs.Sends.{goes_by_number, full_wire, wire_form, declared_by};

use std::alloc::AllocError;
use zs_events::KeyArg;
use zs_keys::Declared;
use zs_making::wires::{full_wire, number_wire, rest_of};
use zs_sample::Text;
use zs_wire::{Mapping, WireExpr};
use zs_world::SessionTables;

/// The form that a message gives a key: by its number where its declaration is one of this session whose number
/// is held and stands for the declared front, else by its whole text.
pub fn wire_form(
    world: &SessionTables,
    text: &str,
    declared: Option<Declared>,
) -> Result<WireExpr, AllocError>
    ensures { IfOk result (λ wire. wire ≡ wire_form (own_keys_at world.now) text.now declared) }
{
    match declared {
        Some(declared) => wire_by(world, text, declared),
        None => full_wire(world.alloc, text),
    }
}

/// The form of a key that was named by a declaration: whole where the declaration doesn't stand for its front here.
fn wire_by(world: &SessionTables, text: &str, declared: Declared) -> Result<WireExpr, AllocError>
    ensures { IfOk result (λ wire. wire ≡ wire_form (own_keys_at world.now) text.now (Some declared)) }
{
    match rest_behind(world, text, declared) {
        Some(rest) => number_wire(world.alloc, declared.number, rest),
        None => full_wire(world.alloc, text),
    }
}

/// What stands behind the declared front of a text, where the key goes by its number.
fn rest_behind<'a>(world: &SessionTables, text: &'a str, declared: Declared) -> Option<&'a str>
    ensures test { is_some result ≡ goes_by_number (own_keys_at world.now) text.now declared }
    ensures rest { IfSome result (λ rest. rest.now ≡ drop declared.prefix_len text.now) }
{
    if declared.tag != world.settings.tag || declared.number == 0 {
        return None;
    }
    let Some(held) = world.tables.key_of(Mapping::Receiver, declared.number) else {
        return None;
    };
    if held.as_str().len() != declared.prefix_len as usize {
        return None;
    }
    rest_of(text, held.as_str())
}

/// The declaration of a key argument that stands for that text. A front that is too long for a declaration is want
/// of memory.
pub fn declared_by(
    world: &SessionTables,
    key: &KeyArg,
    text: &str,
) -> Result<Option<Declared>, AllocError>
    ensures { IfOk result (λ declared. declared ≡ declared_by (own_keys_at world.now) text.now key.now) }
{
    match key {
        KeyArg::Text(_) => Ok(None),
        KeyArg::Number { number, suffix } => {
            let front = text.len().saturating_sub(suffix.as_str().len());
            let Ok(prefix_len) = u32::try_from(front) else {
                return Err(AllocError);
            };
            Ok(Some(declared(world, *number, prefix_len)))
        }
        KeyArg::Declared {
            text: _,
            number,
            prefix_len,
        } => Ok(Some(declared(world, *number, *prefix_len))),
    }
}

/// A declaration of this session.
fn declared(world: &SessionTables, number: u16, prefix_len: u32) -> Declared
    ensures { result ≡ record { number = number; prefix_len = prefix_len; tag = world.now.settings.tag } }
{
    Declared {
        number,
        prefix_len,
        tag: world.settings.tag,
    }
}
