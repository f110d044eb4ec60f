//! The calls by which the effects come out.

ghost use Rattle.std.specs.Prelude.{◌≡◌, ◌⊎◌, ◌↔◌, [], IsTrue, IsSome};
ghost use Rattle.std.specs.declared.option.Option.TheVariants.{None, Some};
ghost use Rattle.zs_c.specs.Called.{TellsFirst, IsPart, CopiesFirst, DropsFirst};
ghost use Rattle.zs_c.specs.Through.{Through};

use crate::slot::Slot;
use crate::status::{NO_PART, NOT_OPEN, NOTHING, OK};
use std::alloc::Global;
use zs_line_session::LineSession;
use zs_message_forms::{EffectForm, effect_form, effect_parts};

/// Writes the numbers of the first effect that waits, and how many bytes its parts have.
#[unsafe(no_mangle)]
pub extern "C" fn yq_effect(alloc: Global, slot: &mut Slot, effect: &mut EffectForm) -> u32
    ensures done { result ≡ 0 → Through (λ before after. (after ≡ before) × TellsFirst before.effects effect.new) slot.old.handle.value slot.new.handle.value }
    ensures kept { ¬ (result ≡ 0) → (slot.new.handle.value ≡ slot.old.handle.value) × (effect.new ≡ effect.old) }
    ensures empty { result ≡ 1 → slot.old.handle.value ≡ None }
    ensures nothing { result ≡ 7 → Through (λ before after. before.effects ≡ []) slot.old.handle.value slot.new.handle.value }
    ensures known { (result ≡ 0) ⊎ (result ≡ 1) ⊎ (result ≡ 7) }
{
    match slot.take(alloc) {
        Some(session) => {
            let status = tell_first(&session, effect);
            slot.put(session);
            status
        }
        None => NOT_OPEN,
    }
}

/// Writes the numbers of the session's first effect, which stays. It answers `NOTHING` where none waits.
fn tell_first(session: &LineSession, effect: &mut EffectForm) -> u32
    ensures done { result ≡ 0 → TellsFirst session.now.effects effect.new }
    ensures kept { ¬ (result ≡ 0) → effect.new ≡ effect.old }
    ensures nothing { result ≡ 7 → session.now.effects ≡ [] }
    ensures known { (result ≡ 0) ⊎ (result ≡ 7) }
{
    match session.first_effect() {
        Some(first) => {
            *effect = effect_form(first);
            OK
        }
        None => NOTHING,
    }
}

/// Copies as much of a part of the first effect as fits to the front of `out`, and writes how many bytes. That there is no
/// such part is said also where no effect waits.
#[unsafe(no_mangle)]
pub extern "C" fn yq_effect_bytes(
    alloc: Global,
    slot: &mut Slot,
    part: u8,
    out: &mut [u8],
    count: &mut usize,
) -> u32
    ensures done { result ≡ 0 → Through (λ before after. (after ≡ before) × CopiesFirst part before.effects out.old out.new count.new) slot.old.handle.value slot.new.handle.value }
    ensures kept { ¬ (result ≡ 0) → (slot.new.handle.value ≡ slot.old.handle.value) × (out.new ≡ out.old) × (count.new ≡ 0) }
    ensures empty { result ≡ 1 → slot.old.handle.value ≡ None }
    ensures nothing { result ≡ 7 → Through (λ before after. before.effects ≡ []) slot.old.handle.value slot.new.handle.value }
    ensures no_part { (result ≡ 8) ↔ (IsSome slot.old.handle.value × ¬ IsPart part) }
    ensures known { (result ≡ 0) ⊎ (result ≡ 1) ⊎ (result ≡ 7) ⊎ (result ≡ 8) }
{
    match slot.take(alloc) {
        Some(session) => {
            let status = copy_part(&session, part, out, count);
            slot.put(session);
            status
        }
        None => {
            *count = 0;
            NOT_OPEN
        }
    }
}

/// It is `copy_first`, if there is such a part.
fn copy_part(session: &LineSession, part: u8, out: &mut [u8], count: &mut usize) -> u32
    ensures done { result ≡ 0 → CopiesFirst part session.now.effects out.old out.new count.new }
    ensures kept { ¬ (result ≡ 0) → (out.new ≡ out.old) × (count.new ≡ 0) }
    ensures nothing { result ≡ 7 → session.now.effects ≡ [] }
    ensures no_part { (result ≡ 8) ↔ (¬ IsPart part) }
    ensures known { (result ≡ 0) ⊎ (result ≡ 7) ⊎ (result ≡ 8) }
{
    if is_part(part) {
        copy_first(session, part, out, count)
    } else {
        *count = 0;
        NO_PART
    }
}

/// Whether an effect has a part of that number, which the header names.
fn is_part(part: u8) -> bool
    ensures { IsTrue result ↔ IsPart part }
{
    1 <= part && part <= 5
}

/// Copies from a part that is known to exist. Where no effect waits, the count is 0 and the status `NOTHING`.
fn copy_first(session: &LineSession, part: u8, out: &mut [u8], count: &mut usize) -> u32
    ensures done { result ≡ 0 → CopiesFirst part session.now.effects out.old out.new count.new }
    ensures kept { ¬ (result ≡ 0) → (out.new ≡ out.old) × (count.new ≡ 0) }
    ensures nothing { result ≡ 7 → session.now.effects ≡ [] }
    ensures known { (result ≡ 0) ⊎ (result ≡ 7) }
{
    match session.first_effect() {
        Some(first) => {
            *count = effect_parts(first).copy(part, out);
            OK
        }
        None => {
            *count = 0;
            NOTHING
        }
    }
}

/// Lets go of the first effect that waits.
#[unsafe(no_mangle)]
pub extern "C" fn yq_next_effect(alloc: Global, slot: &mut Slot) -> u32
    ensures done { result ≡ 0 → Through DropsFirst slot.old.handle.value slot.new.handle.value }
    ensures kept { ¬ (result ≡ 0) → slot.new.handle.value ≡ slot.old.handle.value }
    ensures empty { result ≡ 1 → slot.old.handle.value ≡ None }
    ensures nothing { result ≡ 7 → Through (λ before after. before.effects ≡ []) slot.old.handle.value slot.new.handle.value }
    ensures known { (result ≡ 0) ⊎ (result ≡ 1) ⊎ (result ≡ 7) }
{
    match slot.take(alloc) {
        Some(mut session) => {
            let status = drop_first(&mut session);
            slot.put(session);
            status
        }
        None => NOT_OPEN,
    }
}

/// Lets go of the session's first effect. It answers `NOTHING` where none waits.
fn drop_first(session: &mut LineSession) -> u32
    ensures done { result ≡ 0 → DropsFirst session.old session.new }
    ensures kept { ¬ (result ≡ 0) → session.new ≡ session.old }
    ensures nothing { result ≡ 7 → session.old.effects ≡ [] }
    ensures known { (result ≡ 0) ⊎ (result ≡ 7) }
{
    if session.effect_count() == 0 {
        return NOTHING;
    }
    session.drop_effect();
    OK
}
