//! The calls by which the text of the turns comes out.

ghost use Rattle.std.specs.Prelude.{◌≡◌, ◌⊎◌, length};
ghost use Rattle.std.specs.declared.option.Option.TheVariants.{None, Some};
ghost use Rattle.zs_c.specs.Through.{Through, GivesText};

use crate::slot::Slot;
use crate::status::{NOT_OPEN, OK};
use std::alloc::Global;

/// Moves as much of the text as fits to the front of `out`, and writes how many bytes. The rest waits for the next call.
#[unsafe(no_mangle)]
pub extern "C" fn yq_text(alloc: Global, slot: &mut Slot, out: &mut [u8], count: &mut usize) -> u32
    ensures done { result ≡ 0 → Through (GivesText out.old out.new count.new) slot.old.handle.value slot.new.handle.value }
    ensures none { result ≡ 1 → (slot.old.handle.value ≡ None) × (slot.new.handle.value ≡ None) × (out.new ≡ out.old) × (count.new ≡ 0) }
    ensures known { (result ≡ 0) ⊎ (result ≡ 1) }
{
    match slot.take(alloc) {
        Some(mut session) => {
            *count = session.read_text(out);
            slot.put(session);
            OK
        }
        None => {
            *count = 0;
            NOT_OPEN
        }
    }
}

/// Writes how many bytes of text wait.
#[unsafe(no_mangle)]
pub extern "C" fn yq_waiting(alloc: Global, slot: &mut Slot, count: &mut usize) -> u32
    ensures done { result ≡ 0 → Through (λ before after. (count.new ≡ length before.text) × (after ≡ before)) slot.old.handle.value slot.new.handle.value }
    ensures none { result ≡ 1 → (slot.old.handle.value ≡ None) × (slot.new.handle.value ≡ None) × (count.new ≡ 0) }
    ensures known { (result ≡ 0) ⊎ (result ≡ 1) }
{
    match slot.take(alloc) {
        Some(session) => {
            *count = session.waiting();
            slot.put(session);
            OK
        }
        None => {
            *count = 0;
            NOT_OPEN
        }
    }
}
