//! The calls by which a session begins and ends.

ghost use Rattle.std.specs.Prelude.{◌≡◌, ◌⊎◌, true, false, IsTrue, IsSome, MatchOption, MatchResult, IfOk};
ghost use Rattle.std.specs.declared.option.Option.TheVariants.{None, Some};
ghost use Rattle.zs_core.specs.Settings.{is_valid};
ghost use Rattle.zs_line_session.specs.Lined.{opened};
ghost use Rattle.zs_c.specs.Opening.{settings_of};

use crate::settings::SettingsForm;
use crate::slot::Slot;
use crate::status::{ALREADY_OPEN, BAD_SETTINGS, NO_MEMORY, OK};
use std::alloc::{AllocError, Global};
use zs_core::Settings;
use zs_line_session::LineSession;

/// Opens a session with these settings in a slot that has none.
#[unsafe(no_mangle)]
pub extern "C" fn yq_open(alloc: Global, slot: &mut Slot, form: &SettingsForm) -> u32
    ensures done { result ≡ 0 → slot.new.handle.value ≡ Some (opened (settings_of form.now)) }
    ensures fresh { result ≡ 0 → slot.old.handle.value ≡ None }
    ensures kept { ¬ (result ≡ 0) → slot.new.handle.value ≡ slot.old.handle.value }
    ensures live { result ≡ 2 → IsSome slot.old.handle.value }
    ensures bad { result ≡ 3 → (slot.old.handle.value ≡ None) × (is_valid (settings_of form.now) ≡ false) }
    ensures known { (result ≡ 0) ⊎ (result ≡ 2) ⊎ (result ≡ 3) ⊎ (result ≡ 6) }
{
    match slot.take(alloc) {
        Some(session) => {
            slot.put(session);
            ALREADY_OPEN
        }
        None => fill(alloc, slot, form),
    }
}

/// Opens a session in a slot that is known to have none.
fn fill(alloc: Global, slot: &mut Slot, form: &SettingsForm) -> u32
    requires { slot.old.handle.value ≡ None }
    ensures done { result ≡ 0 → slot.new.handle.value ≡ Some (opened (settings_of form.now)) }
    ensures kept { ¬ (result ≡ 0) → slot.new.handle.value ≡ None }
    ensures bad { result ≡ 3 → is_valid (settings_of form.now) ≡ false }
    ensures known { (result ≡ 0) ⊎ (result ≡ 3) ⊎ (result ≡ 6) }
{
    let settings = form.read();
    let valid = settings.is_valid();
    if !valid {
        drop(settings);
        return BAD_SETTINGS;
    }
    let made = boxed(alloc, &settings);
    drop(settings);
    match made {
        Ok(session) => {
            slot.put(session);
            OK
        }
        Err(_) => NO_MEMORY,
    }
}

/// Opens a session in a box of its own. An error is want of memory alone.
fn boxed(alloc: Global, settings: &Settings) -> Result<Box<LineSession>, AllocError>
    requires { IsTrue (is_valid settings.now) }
    ensures { IfOk result (λ made. made.value ≡ opened settings.now) }
{
    let session = LineSession::open(alloc, settings)?;
    match Box::new(alloc, session) {
        Ok(made) => Ok(made),
        Err(_) => Err(AllocError),
    }
}

/// Ends the session in a slot, if it has one, and frees its memory. Nothing is sent.
#[unsafe(no_mangle)]
pub extern "C" fn yq_free(alloc: Global, slot: &mut Slot)
    ensures { slot.new.handle.value ≡ None }
{
    drop(slot.take(alloc));
}
