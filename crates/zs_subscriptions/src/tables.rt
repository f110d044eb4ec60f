//! The tables of subscribers and of declared numbers, with the lists of subscribers that the numbers keep.
ghost use Rattle.std.specs.Prelude.{◌≡◌, ℕ, ◌+◌, ◌<◌, ◌==◌, ◌++◌, [], ◌∷◌, true, All, MatchBool, nat_lt, length, map, not, filter, IsSome, OnOk, OnErr};
ghost use Rattle.std.specs.List.{find, list_any};
ghost use Rattle.std.specs.Map.Iter.{ShowsInOrder, deref_pair};
ghost use Rattle.std.specs.Option.{option_map, option_copied, ForSome, is_some};
ghost use Rattle.zs_subscriptions.specs.Ascending.{Ascend};
ghost use Rattle.zs_subscriptions.specs.Numbers.{key_at, number_at, placed, without};
ghost use Rattle.zs_subscriptions.specs.Contents.{numbers_of, with_numbers, text_meant, IsByNumber};
ghost use Rattle.zs_subscriptions.specs.Recipients.{matches, recipients, next_recipient, GoesOn};

use crate::key_ref::KeyRef;
use crate::number_row::NumberRow;
use crate::number_rows::NumberRows;
use crate::numbers::find_in;
use crate::own::{set_own, unset_own};
use crate::places::ids_behind;
use crate::recipients::{copy_ids, first_by_id, first_in_tree, keep_takers};
use crate::subscriber::SubRow;
use crate::texts::{Texts, first_number};
use std::alloc::{AllocError, Global};
use std::collections::btree_map::Iter;
use std::marker::Model;
use std::sync::ledger::Ledger;
use zs_keyed::KeyedRows;
use zs_keys::{KeyExpr, Steps};
use zs_wire::Mapping;

/// The live subscribers in ascending id, and the declared numbers of both mappings with their keys. A tree of the
/// subscribers' keys finds those that a key reaches. Each number keeps the list of the subscribers whose key has a key
/// in common with its own, and each change brings the lists up to date: a new subscriber is tested against each number,
/// a new number takes its list from the tree, and a look-up by number tests no keys. An index by text finds the numbers
/// of a text. No call that answers want of memory has changed anything.
#[derive(Drop)]
pub struct Tables {
    alloc: Global,
    subs: KeyedRows<SubRow>,
    own: NumberRows,
    texts: Texts,
    told: NumberRows,
}

impl Model for Tables {
    ghost use Rattle.std.specs.Prelude.{map};
    ghost use Rattle.zs_subscriptions.specs.Contents.{Contents};
    ghost use Rattle.zs_subscriptions.specs.Lists.{shown, held, AreKept};

    ghost Value = { Contents };

    ghost view = { λ t. record { rows = t.subs; own = held t.own; told = held t.told } };

    ghost invariant = { λ t. AreKept t.subs (map shown t.own) (map shown t.told) t.texts };
}

impl Tables {
    /// Tables of no subscribers and no numbers, which take their memory from `alloc`.
    pub fn new(alloc: Global) -> Tables
        ensures { result ≡ record { rows = []; own = []; told = [] } }
    {
        Tables {
            alloc,
            subs: KeyedRows::new(alloc),
            own: NumberRows::new(alloc),
            texts: Texts::new(alloc),
            told: NumberRows::new(alloc),
        }
    }

    /// Puts a subscriber behind all others.
    ///
    /// # Errors
    ///
    /// Want of memory alone.
    pub fn add(&mut self, row: SubRow) -> Result<(), AllocError>
        requires { All (λ other. other.id < row.id) self.old.rows }
        ensures ok { OnOk result (self.new ≡ record self.old { rows = self.old.rows ++ row ∷ [] }) }
        ensures err { OnErr result (self.new ≡ self.old) }
    {
        let id = row.id;
        self.own.reserve(&row.key)?;
        self.told.reserve(&row.key)?;
        self.subs.add(row)?;
        let Some(row) = self.subs.find(id) else {
            unreachable!()
        };
        self.own.note(id, &row.key);
        self.told.note(id, &row.key);
        Ok(())
    }

    /// Takes a subscriber out, and says whether it was there.
    pub fn remove(&mut self, id: u32) -> bool
        ensures answer { result ≡ list_any (λ row. row.id == id) self.old.rows }
        ensures rows { self.new ≡ record self.old { rows = filter (λ row. not (row.id == id)) self.old.rows } }
    {
        self.own.forget(id);
        self.told.forget(id);
        self.subs.remove(id)
    }

    /// Lets a number stand for a key, in place of one that it stood for.
    ///
    /// # Errors
    ///
    /// Want of memory alone.
    pub fn set(
        &mut self,
        mapping: Mapping,
        number: u16,
        key: KeyExpr<'static>,
    ) -> Result<(), AllocError>
        ensures ok { OnOk result (self.new ≡ with_numbers mapping
            (placed (record { number = number; key = key.entry }) (numbers_of mapping self.old)) self.old) }
        ensures err { OnErr result (self.new ≡ self.old) }
    {
        let mut matches = Vec::new(self.alloc);
        self.subs.matches_into(&key, &mut matches)?;
        let new = NumberRow {
            number,
            key,
            matches,
        };
        match mapping {
            Mapping::Receiver => set_own(self.alloc, &mut self.own, &mut self.texts, new),
            Mapping::Sender => self.told.place(new),
        }
    }

    /// Takes a number out, and says whether it was there.
    pub fn unset(&mut self, mapping: Mapping, number: u16) -> bool
        ensures answer { result ≡ is_some (key_at number (numbers_of mapping self.old)) }
        ensures numbers { self.new ≡ with_numbers mapping (without number (numbers_of mapping self.old)) self.old }
    {
        match mapping {
            Mapping::Receiver => unset_own(&mut self.own, &mut self.texts, number),
            Mapping::Sender => self.told.remove(number),
        }
    }

    /// Takes all subscribers out, and all numbers that this session declared. Those that the other side declared stay.
    pub fn clear(&mut self)
        ensures { self.new ≡ record self.old { rows = []; own = [] } }
    {
        self.subs.clear();
        self.own.clear();
        self.texts.clear();
        self.told.empty_lists();
    }

    /// The key that a number stands for, if it stands for one.
    pub fn key_of(&self, mapping: Mapping, number: u16) -> Option<&KeyExpr<'static>>
        ensures { option_copied result ≡ key_at number (numbers_of mapping self.now) }
    {
        let Some(row) = find_in(mapping, &self.own, &self.told, number) else {
            return None;
        };
        Some(&row.key)
    }

    /// The least number of this session's own that stands for a text, if there is one.
    pub fn number_of(&self, text: &str) -> Option<u16>
        ensures { result ≡ number_at text.now self.now.own }
    {
        first_number(&self.texts, text)
    }

    /// Whether an id is above those of all subscribers.
    pub fn is_above(&self, id: u32) -> bool
        ensures { MatchBool result (All (λ row. row.id < id) self.now.rows) (list_any (λ row. not (nat_lt row.id id)) self.now.rows ≡ true) }
    {
        self.subs.is_above(id)
    }

    /// How many subscribers there are. Their ids ascend.
    pub fn len(&self) -> usize
        ensures len { result ≡ length self.now.rows }
        ensures ascending { Ascend (λ row. row.id) self.now.rows }
    {
        self.subs.len()
    }

    /// The subscribers with their ids, ascending.
    pub fn iter(&self) -> Iter<'_, u32, SubRow>
        ensures rest { map (λ e. e.1) result ≡ self.now.rows }
        ensures runs { ShowsInOrder (deref_pair {K = ℕ} {X = SubRow}) }
    {
        self.subs.iter()
    }

    /// The subscriber of that id, if there is one.
    pub fn row(&self, id: u32) -> Option<&SubRow>
        ensures { option_copied result ≡ find (λ row. row.id == id) self.now.rows }
    {
        self.subs.find(id)
    }

    /// Whether there is a subscriber of that id.
    pub fn has(&self, id: u32) -> bool
        ensures { result ≡ list_any (λ row. row.id == id) self.now.rows }
    {
        self.subs.has(id)
    }

    /// The ascending ids of the subscribers whose key has a key in common with the number's, if it stands for one. It
    /// reads the list that the number keeps.
    pub fn matches_of(&self, mapping: Mapping, number: u16) -> Option<&[u32]>
        ensures { option_copied result
            ≡ option_map (λ key. matches key.text self.now.rows) (key_at number (numbers_of mapping self.now)) }
    {
        let Some(row) = find_in(mapping, &self.own, &self.told, number) else {
            return None;
        };
        Some(&row.matches)
    }

    /// Makes a list the ascending ids of the subscribers whose key has a key in common with that one. It counts a step.
    ///
    /// # Errors
    ///
    /// Want of memory alone; the list is as before then.
    pub fn met_into<L: Ledger>(
        &self,
        key: &KeyExpr<'_>,
        into: &mut Vec<u32>,
        steps: &mut Steps<L>,
    ) -> Result<(), AllocError>
        ensures ok { OnOk result (into.new.items ≡ matches key.now.text self.now.rows) }
        ensures err { OnErr result (into.new.items ≡ into.old.items) }
        ensures counted { steps.new ≡ steps.old + 1 }
    {
        self.subs.counted_matches_into(key, into, steps)
    }

    /// Makes a list the ascending ids of the subscribers that receive a publication on that key. `local` says that the
    /// publication was made in this session. It counts a step.
    ///
    /// # Errors
    ///
    /// Want of memory alone; the list is as before then.
    pub fn recipients_into<L: Ledger>(
        &self,
        key: &KeyExpr<'_>,
        local: bool,
        into: &mut Vec<u32>,
        steps: &mut Steps<L>,
    ) -> Result<(), AllocError>
        ensures ok { OnOk result (into.new.items ≡ recipients local key.now.text self.now.rows) }
        ensures err { OnErr result (into.new.items ≡ into.old.items) }
        ensures counted { steps.new ≡ steps.old + 1 }
    {
        self.subs.counted_matches_into(key, into, steps)?;
        keep_takers(local, &self.subs, into);
        Ok(())
    }

    /// Makes a list the ascending ids of the subscribers that receive a publication on the key that a number stands for,
    /// as `recipients_into` does. It reads the list that the number keeps, and tests no keys: it counts no step.
    ///
    /// # Errors
    ///
    /// Want of memory alone; the list is as before then.
    pub fn recipients_of_number_into<L: Ledger>(
        &self,
        mapping: Mapping,
        number: u16,
        local: bool,
        into: &mut Vec<u32>,
        _steps: &mut Steps<L>,
    ) -> Result<(), AllocError>
        requires { IsSome (key_at number (numbers_of mapping self.now)) }
        ensures ok { OnOk result (ForSome (key_at number (numbers_of mapping self.now)) (λ key. into.new.items ≡ recipients local key.text self.now.rows)) }
        ensures err { OnErr result (into.new.items ≡ into.old.items) }
        ensures uncounted { _steps.new ≡ _steps.old }
    {
        let Some(row) = find_in(mapping, &self.own, &self.told, number) else {
            unreachable!()
        };
        copy_ids(&row.matches, into)?;
        keep_takers(local, &self.subs, into);
        Ok(())
    }

    /// The next subscriber behind the last one, if there was one, that receives a publication on that key. `local`
    /// says that the publication was made in this session. By number it reads the list that the number keeps.
    pub fn next_recipient<L: Ledger>(
        &self,
        key: KeyRef<'_>,
        local: bool,
        after: Option<u32>,
        steps: &mut Steps<L>,
    ) -> Option<u32>
        requires { IsSome (text_meant key self.now) }
        ensures next { ForSome (text_meant key.entry self.now) (λ text. result ≡ next_recipient local text after self.now.rows) }
        ensures walk { ForSome (text_meant key.entry self.now) (λ text. GoesOn local text after self.now.rows result) }
        ensures uncounted { IsByNumber key.entry → steps.new ≡ steps.old }
    {
        match key {
            KeyRef::Number(mapping, number) => {
                let Some(row) = find_in(mapping, &self.own, &self.told, number) else {
                    unreachable!()
                };
                first_by_id(local, &self.subs, ids_behind(&row.matches, after))
            }
            KeyRef::Text(key) => first_in_tree(local, &self.subs, key, after, steps),
        }
    }
}
