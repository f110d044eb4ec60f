//! Parameters of selectors.

ghost use Rattle.std.specs.Prelude.{◌≡◌, ◌==◌, length, IfOk, OnOk, OnErr, option_copied};
ghost use Rattle.zs_wire.specs.Parameters.{trimmed_text, pairs, value_of, contains_name, text_with, text_without, text_with_all};

use crate::parameter_pairs::ParameterPairs;
use crate::parameter_text::{other_text, trimmed, with_pair, with_pairs};
use std::alloc::{AllocError, Global};
use std::borrow::CowStr;
use std::marker::Model;

/// The parameters of a selector: pairs of a name and a value in a text, as in `_time=[..];x=1;y`, borrowed or owned.
///
/// Contracts see the text, as the bytes of its UTF-8.
#[derive(Drop)]
pub struct Parameters<'a> {
    text: CowStr<'a>,
}

impl<'a> Model for Parameters<'a> {
    ghost use Rattle.std.specs.Prelude.{ℕ, List};
    ghost use Rattle.std.specs.Cow.{cow_str_bytes};

    ghost Value = { List ℕ };

    ghost view = { λ p. cow_str_bytes p.text };
}

impl<'a> Parameters<'a> {
    /// The parameters of this text, which loses all `;`, `=` and `|` at its end.
    pub fn of(text: &'a str) -> Parameters<'a>
        ensures { result ≡ trimmed_text text.now }
    {
        Parameters {
            text: CowStr::Borrowed(trimmed(text)),
        }
    }

    /// The text.
    pub fn as_str(&self) -> &str
        ensures { result.now ≡ self.now }
    {
        self.text.as_str()
    }

    /// Whether the text is empty.
    pub fn is_empty(&self) -> bool
        ensures { result ≡ (length self.now == 0) }
    {
        self.as_str().is_empty()
    }

    /// Each pair of name and value, in order. Without a `=` the value is empty.
    pub fn iter(&self) -> ParameterPairs<'_>
        ensures { result ≡ pairs self.now }
    {
        ParameterPairs::of(self.as_str())
    }

    /// The value of the first pair with this name.
    pub fn get(&self, name: &str) -> Option<&str>
        ensures { option_copied result ≡ value_of name.now self.now }
    {
        'pairs: for (found, value) in self.iter() {
            if found == name {
                return Some(value);
            }
        }
        None
    }

    /// Whether there is a pair with this name.
    pub fn contains_key(&self, name: &str) -> bool
        ensures { result ≡ contains_name name.now self.now }
    {
        self.get(name).is_some()
    }

    /// Puts a pair behind all others, in place of those with its name.
    pub fn insert(&mut self, alloc: Global, name: &str, value: &str) -> Result<(), AllocError>
        ensures ok { OnOk result (self.new ≡ text_with name.now value.now self.old) }
        ensures err { OnErr result (self.new ≡ self.old) }
    {
        let made = with_pair(alloc, self.as_str(), name, value)?;
        self.text = CowStr::Owned(made);
        Ok(())
    }

    /// Takes away all pairs with this name, and tells whether there was one. Where there was none the text stays.
    pub fn remove(&mut self, alloc: Global, name: &str) -> Result<bool, AllocError>
        ensures found { IfOk result (λ found. found ≡ contains_name name.now self.old) }
        ensures ok { OnOk result (self.new ≡ text_without name.now self.old) }
        ensures err { OnErr result (self.new ≡ self.old) }
    {
        if !self.contains_key(name) {
            return Ok(false);
        }
        let made = other_text(alloc, self.as_str(), name)?;
        self.text = CowStr::Owned(made);
        Ok(true)
    }

    /// Inserts each pair of the other parameters, in order.
    pub fn extend(&mut self, alloc: Global, other: &Parameters<'_>) -> Result<(), AllocError>
        ensures ok { OnOk result (self.new ≡ text_with_all (pairs other.now) self.old) }
        ensures err { OnErr result (self.new ≡ self.old) }
    {
        let made = with_pairs(alloc, self.as_str(), other.iter())?;
        self.text = CowStr::Owned(made);
        Ok(())
    }

    /// The same text, borrowed.
    pub fn borrowing_clone(&self) -> Parameters<'_>
        ensures { result ≡ self.now }
    {
        Parameters {
            text: CowStr::Borrowed(self.as_str()),
        }
    }

    /// The same text in memory of its own.
    pub fn into_owned(self, alloc: Global) -> Result<Parameters<'static>, AllocError>
        ensures { IfOk result (λ owned. owned ≡ self.entry) }
    {
        Ok(Parameters {
            text: CowStr::Owned(self.text.into_owned(alloc)?),
        })
    }
}
