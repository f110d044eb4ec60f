//! Keys are declared and given back.

ghost use Rattle.std.specs.Prelude.{◌≡◌, None, IfOk};
ghost use Rattle.zs_world.specs.Decisions.{decision_of, open_decision, own_keys_at};
ghost use Rattle.zs_model.specs.Sends.{return_sends};

use crate::keys::{has_claim, resolve};
use std::alloc::AllocError;
use zs_events::{Effects, Event, KeyArg, Refusal};
use zs_making::keys::is_whole;
use zs_making::wires::{full_wire, push_send};
use zs_model::into_owned;
use zs_wire::Message;
use zs_world::{Change, Decision, KeyChange, SessionTables};

/// A key is declared, and its number is the answer. One that is held already is held once more, untold to the network.
pub fn decide_key(world: &SessionTables, key: &KeyArg) -> Result<Decision, AllocError>
    ensures { IfOk result (λ made. made ≡ open_decision world.now (Event.Key key.now)) }
{
    let key = match resolve(world, key)? {
        Ok(key) => key,
        Err(refusal) => return Ok(Decision::refused(world.alloc, refusal)),
    };
    if let Some(number) = world.tables.number_of(key.as_str()) {
        let change = Change::OfKeys(KeyChange::Hold { number });
        return Ok(Decision::quiet(world.alloc, Some(u32::from(number)), change));
    }
    if u16::MAX - world.next_key < 1 {
        return Ok(Decision::refused(world.alloc, Refusal::IdsExhausted));
    }
    let number = world.next_key;
    let wire = full_wire(world.alloc, key.as_str())?;
    let mut effects = Effects::new(world.alloc);
    push_send(
        world.alloc,
        &mut effects,
        Message::DeclareKeyExpr { number, wire },
    )?;
    let key = into_owned(world.alloc, key)?;
    let change = Change::OfKeys(KeyChange::Declare { number, key });
    Ok(Decision::accepted(Some(u32::from(number)), effects, change))
}

/// A declared key is given back. `NotFound` where its number stands for no such key, `NotDeclared` where the argument
/// is a text, or a declared key with a suffix.
pub fn decide_undeclare_key(world: &SessionTables, key: &KeyArg) -> Result<Decision, AllocError>
    ensures { IfOk result (λ made. made ≡ open_decision world.now (Event.UndeclareKey key.now)) }
{
    if !has_claim(world, key) {
        return Ok(Decision::refused(world.alloc, Refusal::NotFound));
    }
    if let Err(refusal) = resolve(world, key)? {
        return Ok(Decision::refused(world.alloc, refusal));
    }
    match key {
        KeyArg::Number { number, .. } | KeyArg::Declared { number, .. } if is_whole(key) => {
            decide_return(world, *number)
        }
        _ => Ok(Decision::refused(world.alloc, Refusal::NotDeclared)),
    }
}

/// A held number is given back. Where that is the last time, the network hears of it.
fn decide_return(world: &SessionTables, number: u16) -> Result<Decision, AllocError>
    ensures { IfOk result (λ made. made ≡ decision_of None None (return_sends (own_keys_at world.now) number) (Change.OfKeys (KeyChange.Release number))) }
{
    let mut effects = Effects::new(world.alloc);
    if world.holders.of(number) <= 1 {
        push_send(
            world.alloc,
            &mut effects,
            Message::UndeclareKeyExpr { number },
        )?;
    }
    Ok(Decision::of(effects, Change::OfKeys(KeyChange::Release { number })))
}
