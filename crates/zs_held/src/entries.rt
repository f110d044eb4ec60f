//! A copy of a session's journal.
ghost use Rattle.std.specs.Prelude.{◌≡◌, ◌↔◌, [], IsTrue, length, slice_get, IfOk};
ghost use Rattle.std.specs.Option.{option_copied};

use std::alloc::{AllocError, Global};
use std::marker::Model;
use zs_session_cell::Entry;

/// Events of a session with their turns, the oldest first, as its journal had them at one moment. Contracts see the list.
#[derive(Drop)]
pub struct Entries {
    items: Vec<Entry>,
}

impl Model for Entries {
    ghost use Rattle.std.specs.Prelude.{List};
    ghost use Rattle.zs_session_cell.specs.declared.entry.Entry.{Entry};

    ghost Value = { List Entry };

    ghost view = { λ e. e.items.items };
}

/// The same event and turn, in places that both entries share.
fn copy_entry(entry: &Entry) -> Result<Entry, AllocError>
    ensures { IfOk result (λ copy. copy ≡ entry.now) }
{
    let event = entry.event.try_clone()?;
    match entry.turn.try_clone() {
        Ok(turn) => Ok(Entry { event, turn }),
        Err(why) => {
            drop(event);
            Err(why)
        }
    }
}

impl Entries {
    // The same entries, in places that both share.
    pub(crate) fn copy(alloc: Global, entries: &[Entry]) -> Result<Entries, AllocError>
        ensures { IfOk result (λ copies. copies ≡ entries.now) }
    {
        let mut copies = Vec::new(alloc);
        for entry in entries {
            let copy = copy_entry(entry)?;
            copies.push(copy)?;
        }
        Ok(Entries { items: copies })
    }

    /// How many there are.
    pub fn len(&self) -> usize
        ensures { result ≡ length self.now }
    {
        self.items.len()
    }

    /// Whether there is none.
    pub fn is_empty(&self) -> bool
        ensures { IsTrue result ↔ (self.now ≡ []) }
    {
        self.items.is_empty()
    }

    /// The entry at that place, if there are so many.
    pub fn get(&self, index: usize) -> Option<&Entry>
        ensures { option_copied result ≡ slice_get self.now index }
    {
        self.items.get(index)
    }

    /// The list itself, in the memory that it has.
    pub fn into_vec(self) -> Vec<Entry>
        ensures { result.items ≡ self }
    {
        self.items
    }
}
