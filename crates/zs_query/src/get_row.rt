//! What a get asked, apart from the replies that it has had.
ghost use Rattle.std.specs.Prelude.{◌≡◌};
ghost use Rattle.zs_query.specs.Gets.{wants, less, takes_key};
ghost use Rattle.zs_query.specs.GetRows.{keys_of};

use crate::get_marks::GetKeys;
use crate::side::Side;
use zs_keys::KeyExpr;
use zs_wire::ConsolidationMode;

/// What a get asked, and for whose finals it waits.
#[derive(Debug)]
pub struct GetRow {
    pub number: u32,
    pub key: KeyExpr<'static>,
    /// Whether it takes replies on any key, and not only on those that its own has a key in common with.
    pub any_key: bool,
    /// Which of the replies on one key are handed out.
    pub mode: ConsolidationMode,
    /// Whether it waits for the final of this session's queryables.
    pub local_wanted: bool,
    /// Whether it waits for the network's final.
    pub network_wanted: bool,
    /// The moment, in milliseconds, at which it ends whatever is missing.
    pub deadline: u64,
    /// The querier that asked, if one did.
    pub querier: Option<u32>,
    /// The cancellation token that ends it, if it has one.
    pub cancellation_token: Option<u32>,
}

impl Drop for GetRow {
    /// Frees the key. The other fields are plain values.
    fn drop(self) {
        let GetRow {
            number: _,
            key,
            any_key: _,
            mode: _,
            local_wanted: _,
            network_wanted: _,
            deadline: _,
            querier: _,
            cancellation_token: _,
        } = self;
        drop(key);
    }
}

impl GetRow {
    /// Its number, and the keys under which it is found.
    pub(crate) fn keys(&self) -> GetKeys
        ensures { result ≡ keys_of self.now }
    {
        GetKeys {
            number: self.number,
            deadline: self.deadline,
            cancellation_token: wide(self.cancellation_token),
            querier: wide(self.querier),
        }
    }

    /// Whether it waits for the final of that side.
    pub(crate) fn wants(&self, side: Side) -> bool
        ensures { result ≡ wants side self.now }
    {
        match side {
            Side::Local => self.local_wanted,
            Side::Network => self.network_wanted,
        }
    }

    /// Waits for the final of that side no longer.
    pub(crate) fn take_final(&mut self, side: Side)
        ensures { self.new ≡ less side self.old }
    {
        match side {
            Side::Local => self.local_wanted = false,
            Side::Network => self.network_wanted = false,
        }
    }

    /// Whether it takes replies on that key.
    pub(crate) fn takes_key(&self, key: &KeyExpr<'static>) -> bool
        ensures { result ≡ takes_key self.now key.now.text }
    {
        self.any_key || self.key.meets(key)
    }
}

/// A number as a key of an index.
fn wide(number: Option<u32>) -> Option<u64>
    ensures { result ≡ number }
{
    match number {
        Some(number) => Some(u64::from(number)),
        None => None,
    }
}
