//! A list of keys that takes no memory while it is empty.

ghost use Rattle.std.specs.Prelude.{◌≡◌, [], IfOk, bytes_eq};
ghost use Rattle.std.specs.Cmp.{partial_equiv_from_equiv, on_equiv};
ghost use Rattle.std.specs.Cmp.Lexicographic.{pointwise, nat_list_eq_equiv};
ghost use Rattle.std.proofs.lemmas.Cmp.{lists_equiv};
ghost use Rattle.zs_keys.specs.Key.{Key};

use std::alloc::{AllocError, Global};
use std::fmt;
use std::marker::Model;
use zs_keys::KeyExpr;

/// Where the keys of a list lie.
#[derive(Debug, Drop)]
enum Keys {
    Nothing,
    Many(Vec<KeyExpr<'static>>),
}

/// Key expressions in their order. No keys take no memory.
#[derive(Drop)]
pub struct KeyList {
    keys: Keys,
}

impl Model for KeyList {
    ghost use Rattle.std.specs.Prelude.{List};
    ghost use Rattle.zs_keys.specs.Key.{Key};
    ghost use Rattle.zs_model.specs.KeyList.{keys_of};

    ghost Value = { List Key };

    ghost view = { λ l. keys_of l.keys };
}

impl KeyList {
    /// No keys.
    pub fn new() -> KeyList
        ensures { result ≡ [] }
    {
        KeyList {
            keys: Keys::Nothing,
        }
    }

    /// These keys, in the memory that they have.
    pub fn from_vec(keys: Vec<KeyExpr<'static>>) -> KeyList
        ensures { result ≡ keys.entry.items }
    {
        KeyList {
            keys: Keys::Many(keys),
        }
    }

    /// The list itself, in the memory that it has.
    pub fn into_vec(self, alloc: Global) -> Vec<KeyExpr<'static>>
        ensures { result.items ≡ self }
    {
        match self.keys {
            Keys::Nothing => Vec::new(alloc),
            Keys::Many(keys) => keys,
        }
    }

    /// All of them, in order.
    pub fn as_slice(&self) -> &[KeyExpr<'static>]
        ensures { result.now ≡ self.now }
    {
        match &self.keys {
            Keys::Nothing => &[],
            Keys::Many(keys) => keys.as_slice(),
        }
    }

    /// The same list. The texts of its keys share their memory.
    pub fn try_clone(&self, alloc: Global) -> Result<KeyList, AllocError>
        ensures { IfOk result (λ copy. copy ≡ self.now) }
    {
        Ok(match &self.keys {
            Keys::Nothing => KeyList::new(),
            Keys::Many(keys) => KeyList::from_vec(copies(alloc, keys)?),
        })
    }
}

/// A list of the same keys.
fn copies(alloc: Global, keys: &[KeyExpr<'static>]) -> Result<Vec<KeyExpr<'static>>, AllocError>
    ensures { IfOk result (λ copies. copies.items ≡ keys.now) }
{
    let mut copies = Vec::with_capacity(alloc, keys.len())?;
    'copies: for key in keys {
        copies.push(copy_of(alloc, key)?)?;
    }
    Ok(copies)
}

/// The same key, in the same memory.
pub fn copy_of(alloc: Global, key: &KeyExpr<'static>) -> Result<KeyExpr<'static>, AllocError>
    ensures { IfOk result (λ copy. copy ≡ key.now) }
{
    match key.borrowing_clone().into_owned(alloc) {
        Ok(copy) => Ok(copy),
        Err(_) => Err(AllocError),
    }
}

impl PartialEq for KeyList {
    ghost eq = { pointwise (λ k l. bytes_eq k.text l.text) };

    ghost laws = { partial_equiv_from_equiv (lists_equiv (on_equiv (λ (k : Key). k.text) nat_list_eq_equiv)) };

    /// The same texts in the same order. How a session declared the keys makes no difference.
    fn eq(&self, other: &Self) -> bool {
        self.as_slice() == other.as_slice()
    }
}

impl Eq for KeyList {
    ghost laws = { lists_equiv (on_equiv (λ (k : Key). k.text) nat_list_eq_equiv) };
}

impl fmt::Debug for KeyList {
    /// Prints the list as a slice of its keys: `[]` where there are none.
    fn fmt<W: fmt::Write>(&self, f: &mut fmt::Formatter<W>) -> fmt::Result {
        fmt::Debug::fmt(&self.as_slice(), f)
    }
}
