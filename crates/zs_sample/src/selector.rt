//! Selectors: a key with parameters, as a query is given them.
ghost use Rattle.std.specs.Prelude.{◌≡◌, ◌↔◌, IsTrue, IsOk, IfOk, IfErr};
ghost use Rattle.zs_keys.specs.Key.{undeclared};
ghost use Rattle.zs_keys.specs.Text.{is_canonical};
ghost use Rattle.zs_sample.specs.Selector.{key_part, parameters_part};

use std::alloc::{AllocError, Global};
use std::marker::Model;
use zs_keys::{KeyError, KeyExpr};
use zs_wire::Parameters;

/// What a query asks for: a key, and parameters for whoever answers. In a text a `?` stands between them.
#[derive(Drop, PartialEq, Eq)]
pub struct Selector<'a> {
    key: KeyExpr<'a>,
    parameters: Parameters<'a>,
}

impl<'a> Model for Selector<'a> {
    ghost use Rattle.zs_sample.specs.Selector.{Selected};

    ghost Value = { Selected };

    ghost view = { λ s. record { key = s.key; parameters = s.parameters } };

    ghost inverse = { λ s. record { key = s.key; parameters = s.parameters } };
}

impl<'a> Selector<'a> {
    ghost use Rattle.zs_keys.specs.declared.key_error.KeyError.{KeyError};

    /// The selector of this text, which is cut at its first `?`.
    ///
    /// # Errors
    ///
    /// `BadKeyExpr` where what stands before the `?` is not canonical.
    pub fn new(text: &'a str) -> Result<Selector<'a>, KeyError>
        ensures canonical { IsOk result ↔ IsTrue (is_canonical (key_part text.now)) }
        ensures ok { IfOk result (λ made. made ≡ record { key = undeclared (key_part text.now); parameters = parameters_part text.now }) }
        ensures err { IfErr result (λ error. error ≡ KeyError.BadKeyExpr) }
    {
        let (key, parameters) = match text.split_once('?') {
            Some(parts) => parts,
            None => (text, ""),
        };
        let key = KeyExpr::new(key)?;
        Ok(Selector {
            key,
            parameters: Parameters::of(parameters),
        })
    }

    /// A selector of this key and these parameters.
    pub fn owned(key: KeyExpr<'a>, parameters: Parameters<'a>) -> Selector<'a>
        ensures { result ≡ record { key = key.entry; parameters = parameters.entry } }
    {
        Selector { key, parameters }
    }

    /// A selector that borrows this key and these parameters.
    pub fn borrowed(key: &'a KeyExpr<'a>, parameters: &'a Parameters<'a>) -> Selector<'a>
        ensures { result ≡ record { key = key.now; parameters = parameters.now } }
    {
        Selector {
            key: key.borrowing_clone(),
            parameters: parameters.borrowing_clone(),
        }
    }

    /// The key.
    pub fn key_expr(&self) -> &KeyExpr<'a>
        ensures { result.now ≡ self.now.key }
    {
        &self.key
    }

    /// The parameters.
    pub fn parameters(&self) -> &Parameters<'a>
        ensures { result.now ≡ self.now.parameters }
    {
        &self.parameters
    }

    /// The key and the parameters.
    pub fn split(self) -> (KeyExpr<'a>, Parameters<'a>)
        ensures key { result.0 ≡ self.entry.key }
        ensures parameters { result.1 ≡ self.entry.parameters }
    {
        (self.key, self.parameters)
    }

    /// The same selector in memory of its own.
    pub fn into_owned(self, alloc: Global) -> Result<Selector<'static>, AllocError>
        ensures { IfOk result (λ owned. owned ≡ self.entry) }
    {
        let Ok(key) = self.key.into_owned(alloc) else {
            return Err(AllocError);
        };
        let parameters = self.parameters.into_owned(alloc)?;
        Ok(Selector { key, parameters })
    }
}
