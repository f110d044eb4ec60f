//! The store.

ghost use Rattle.std.specs.Prelude.{◌≡◌, [], length, map, None, option_map, IfOk, OnOk, OnErr, if◌then◌else◌};
ghost use Rattle.zs_store.specs.Entry.{seen};
ghost use Rattle.zs_store.specs.Store.{KeysAscend, found, outcome, merged, write_of};
ghost use Rattle.zs_store.specs.declared.merged.Merged.TheVariants.{New, Kept, Replaced};

use crate::entry::Entry;
use crate::merged::Merged;
use crate::order::is_below;
use std::alloc::{AllocError, Global};
use std::collections::BTreeMap;
use std::collections::btree_map::Iter;
use std::marker::Model;
use zs_keys::KeyExpr;

/// The newest entry of each key that was written, by the text of the key.
///
/// Contracts see what was written last at each key, with the bytes of its payload, whatever slices they lie in; the keys ascend by
/// their bytes.
#[derive(Drop)]
pub struct Store {
    alloc: Global,
    entries: BTreeMap<String, Entry>,
}

impl Model for Store {
    ghost use Rattle.std.specs.Prelude.{List, map};
    ghost use Rattle.zs_store.specs.Store.{Write, write_of};

    ghost Value = { List Write };

    ghost view = { λ s. map write_of s.entries.entries };
}

impl Store {
    /// Nothing was written.
    pub fn new(alloc: Global) -> Store
        ensures { result ≡ [] }
    {
        Store {
            alloc,
            entries: BTreeMap::new(alloc),
        }
    }

    /// How many keys there are.
    pub fn len(&self) -> usize
        ensures { result ≡ length self.now }
    {
        self.entries.len()
    }

    /// What stands at a key.
    pub fn get(&self, key: &str) -> Option<&Entry>
        ensures { option_map (λ entry. seen entry.now) result ≡ found key.now self.now }
    {
        self.entries.get(key)
    }

    /// Each key with what stands there. The keys ascend by their bytes.
    pub fn iter(&self) -> Iter<'_, String, Entry>
        ensures entries { map write_of result ≡ self.now }
        ensures ascend { KeysAscend self.now }
    {
        self.entries.iter()
    }

    /// Writes at a key, unless what stands there is as new.
    ///
    /// # Errors
    ///
    /// Want of memory alone; the store is as it was then.
    pub fn merge(&mut self, key: &KeyExpr<'_>, entry: Entry) -> Result<Merged, AllocError>
        ensures answer { IfOk result (λ answer. answer ≡ outcome (found key.now.text self.old) (seen entry)) }
        ensures store { OnOk result (self.new ≡ merged (record { key = key.now.text; entry = seen entry }) self.old) }
        ensures err { OnErr result (self.new ≡ self.old) }
    {
        let alloc = self.alloc;
        let Some(old) = self.entries.get_mut(key.as_str()) else {
            return self.add(key, entry);
        };
        let below = is_below(old, &entry, alloc)?;
        Ok(replace(old, entry, below))
    }

    // Writes at a key where nothing stands.
    fn add(&mut self, key: &KeyExpr<'_>, entry: Entry) -> Result<Merged, AllocError>
        requires { found key.now.text self.old ≡ None }
        ensures answer { IfOk result (λ answer. answer ≡ New) }
        ensures store { OnOk result (self.new ≡ merged (record { key = key.now.text; entry = seen entry }) self.old) }
        ensures err { OnErr result (self.new ≡ self.old) }
    {
        let text = String::from_str(self.alloc, key.as_str())?;
        match self.entries.insert(text, entry) {
            Ok(old) => {
                drop(old);
                Ok(Merged::New)
            }
            Err(failed) => {
                drop(failed);
                Err(AllocError)
            }
        }
    }
}

// Puts an entry in the place of one that is below it.
fn replace(old: &mut Entry, new: Entry, below: bool) -> Merged
    ensures answer { result ≡ (if below then Replaced else Kept) }
    ensures entry { old.new ≡ (if below then new else old.old) }
{
    if below {
        *old = new;
        Merged::Replaced
    } else {
        drop(new);
        Merged::Kept
    }
}
