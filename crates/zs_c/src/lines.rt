//! The calls by which something happens to a session.

ghost use Rattle.std.specs.Prelude.{◌≡◌, ◌⊎◌, ◌<◌, ◌≤◌, length};
ghost use Rattle.std.specs.declared.option.Option.TheVariants.{None, Some};
ghost use Rattle.zs_events.specs.declared.event.Event.TheVariants.{Close};
ghost use Rattle.zs_line_session.specs.Lined.{session_event, Takes, TakesLine};
ghost use Rattle.zs_grammar.specs.Grammar.{event_of};
ghost use Rattle.zs_c.specs.Through.{Through, IsLonger, IsNoEvent};

use crate::slot::Slot;
use crate::status::{NO_EVENT, NO_MEMORY, NOT_OPEN, OK, TOO_LONG};
use std::alloc::Global;
use zs_line_session::{LineFault, LineSession};

/// Takes a line of the script language, and keeps the text of its turn, whose lines begin with `number`.
#[unsafe(no_mangle)]
pub extern "C" fn yq_line(alloc: Global, slot: &mut Slot, number: u64, line: &[u8]) -> u32
    ensures done { result ≡ 0 → Through (λ before after. TakesLine before after number line.now) slot.old.handle.value slot.new.handle.value }
    ensures kept { ¬ (result ≡ 0) → slot.new.handle.value ≡ slot.old.handle.value }
    ensures empty { result ≡ 1 → slot.old.handle.value ≡ None }
    ensures long { result ≡ 4 → IsLonger line.now slot.old.handle.value }
    ensures other { result ≡ 5 → IsNoEvent line.now slot.old.handle.value }
    ensures known { (result ≡ 0) ⊎ (result ≡ 1) ⊎ (result ≡ 4) ⊎ (result ≡ 5) ⊎ (result ≡ 6) }
{
    match slot.take(alloc) {
        Some(mut session) => {
            let status = line_status(&mut session, number, line);
            slot.put(session);
            status
        }
        None => NOT_OPEN,
    }
}

/// Takes the line, and says by a status what came of it.
fn line_status(session: &mut LineSession, number: u64, line: &[u8]) -> u32
    ensures done { result ≡ 0 → TakesLine session.old session.new number line.now }
    ensures kept { ¬ (result ≡ 0) → session.new ≡ session.old }
    ensures open { ¬ (result ≡ 1) }
    ensures long { result ≡ 4 → session.old.line_max < length line.now }
    ensures other { result ≡ 5 → (length line.now ≤ session.old.line_max) × (session_event (event_of line.now) ≡ None) }
    ensures known { (result ≡ 0) ⊎ (result ≡ 1) ⊎ (result ≡ 4) ⊎ (result ≡ 5) ⊎ (result ≡ 6) }
{
    match session.take_line(number, line) {
        Ok(()) => OK,
        Err(LineFault::TooLong) => TOO_LONG,
        Err(LineFault::NoEvent) => NO_EVENT,
        Err(LineFault::NoMemory) => NO_MEMORY,
    }
}

/// Closes the session, which is what the line `close` does. It stays in its slot, and its last text can be read.
#[unsafe(no_mangle)]
pub extern "C" fn yq_close(alloc: Global, slot: &mut Slot, number: u64) -> u32
    ensures done { result ≡ 0 → Through (λ before after. Takes before after number Close) slot.old.handle.value slot.new.handle.value }
    ensures kept { ¬ (result ≡ 0) → slot.new.handle.value ≡ slot.old.handle.value }
    ensures empty { result ≡ 1 → slot.old.handle.value ≡ None }
    ensures known { (result ≡ 0) ⊎ (result ≡ 1) ⊎ (result ≡ 6) }
{
    match slot.take(alloc) {
        Some(mut session) => {
            let status = close_status(&mut session, number);
            slot.put(session);
            status
        }
        None => NOT_OPEN,
    }
}

/// Closes the session, and says by a status what came of it.
fn close_status(session: &mut LineSession, number: u64) -> u32
    ensures done { result ≡ 0 → Takes session.old session.new number Close }
    ensures kept { ¬ (result ≡ 0) → session.new ≡ session.old }
    ensures open { ¬ (result ≡ 1) }
    ensures known { (result ≡ 0) ⊎ (result ≡ 1) ⊎ (result ≡ 6) }
{
    match session.close(number) {
        Ok(()) => OK,
        Err(_) => NO_MEMORY,
    }
}
