//! The liveliness tokens of the other side, and the keys of those that a key meets.
ghost use Rattle.std.specs.Prelude.{◌≡◌, ◌==◌, ◌++◌, [], not, filter, IfOk, OnOk, OnErr};
ghost use Rattle.std.specs.List.{find, list_any};
ghost use Rattle.std.specs.Option.{option_copied};
ghost use Rattle.zs_keyed.specs.Ascending.{Ascend};
ghost use Rattle.zs_liveliness.specs.Liveliness.{put_new, met_keys};
ghost use Rattle.zs_liveliness.specs.RemoteTokens.{key_in, keys_at};

use crate::remote_token::RemoteToken;
use std::alloc::{AllocError, Global};
use std::marker::Model;
use zs_keyed::KeyedRows;
use zs_keys::KeyExpr;

/// The liveliness tokens that the other side told, in ascending number, with a tree of their keys. No call that answers
/// want of memory has changed anything.
#[derive(Drop)]
pub struct RemoteTokens {
    alloc: Global,
    rows: KeyedRows<RemoteToken>,
}

impl Model for RemoteTokens {
    ghost use Rattle.std.specs.Prelude.{List};
    ghost use Rattle.zs_liveliness.specs.declared.remote_token.RemoteToken.{RemoteToken};

    ghost Value = { List RemoteToken };

    ghost view = { λ t. t.rows };
}

impl RemoteTokens {
    /// No tokens. It takes its memory from `alloc`.
    pub fn new(alloc: Global) -> RemoteTokens
        ensures { result ≡ [] }
    {
        RemoteTokens {
            alloc,
            rows: KeyedRows::new(alloc),
        }
    }

    /// Records a token, unless one of its number is known.
    ///
    /// # Errors
    ///
    /// Want of memory alone.
    pub fn record(&mut self, token: RemoteToken) -> Result<(), AllocError>
        ensures ok { OnOk result (self.new ≡ put_new (λ t. t.number) token self.old) }
        ensures err { OnErr result (self.new ≡ self.old) }
    {
        self.rows.put(token)
    }

    /// Forgets the token of that number, if it is known.
    pub fn forget(&mut self, number: u32)
        ensures { self.new ≡ filter (λ t. not (t.number == number)) self.old }
    {
        self.rows.remove(number);
    }

    /// Whether a token of that number is known.
    pub fn has(&self, number: u32) -> bool
        ensures { result ≡ list_any (λ t. t.number == number) self.now }
    {
        self.rows.has(number)
    }

    /// The token of that number, if it is known.
    pub fn find(&self, number: u32) -> Option<&RemoteToken>
        ensures { option_copied result ≡ find (λ t. t.number == number) self.now }
    {
        self.rows.find(number)
    }

    /// The keys of the tokens that a key meets, in the order of their numbers. The copies share memory.
    ///
    /// # Errors
    ///
    /// Want of memory alone.
    pub fn met_keys(&self, key: &KeyExpr<'_>) -> Result<Vec<KeyExpr<'static>>, AllocError>
        ensures { IfOk result (λ keys. keys.items ≡ met_keys key.now.text self.now) }
    {
        let mut numbers = Vec::new(self.alloc);
        self.rows.matches_into(key, &mut numbers)?;
        let keys = keys_of(self.alloc, &self.rows, &numbers)?;
        Ok(keys)
    }
}

/// The keys of the tokens of these numbers.
fn keys_of(
    alloc: Global,
    tokens: &KeyedRows<RemoteToken>,
    numbers: &[u32],
) -> Result<Vec<KeyExpr<'static>>, AllocError>
    requires { Ascend (λ t. t.number) tokens.now }
    ensures { IfOk result (λ keys. keys.items ≡ keys_at tokens.now numbers.now) }
{
    let mut keys = Vec::with_capacity(alloc, numbers.len())?;
    for number in numbers {
        push_key(alloc, tokens.find(*number), &mut keys)?;
    }
    Ok(keys)
}

/// Adds the key of a token, if there is one.
fn push_key(
    alloc: Global,
    token: Option<&RemoteToken>,
    keys: &mut Vec<KeyExpr<'static>>,
) -> Result<(), AllocError>
    ensures { OnOk result (keys.new.items ≡ keys.old.items ++ key_in (option_copied token.entry)) }
{
    match token {
        Some(token) => {
            keys.push(copy_of(alloc, &token.key)?)?;
            Ok(())
        }
        None => Ok(()),
    }
}

/// The same key, in the same memory.
fn copy_of(alloc: Global, key: &KeyExpr<'static>) -> Result<KeyExpr<'static>, AllocError>
    ensures { IfOk result (λ copy. copy ≡ key.now) }
{
    match key.borrowing_clone().into_owned(alloc) {
        Ok(copy) => Ok(copy),
        Err(_) => Err(AllocError),
    }
}
