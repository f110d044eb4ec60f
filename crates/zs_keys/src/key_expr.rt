//! Key expressions.

ghost use Rattle.std.specs.Prelude.{◌≡◌, ◌↔◌, ◌<◌, IsTrue, IsOk, IfOk, IfErr, Some, None, string_bytes, IsCharBoundary};
ghost use Rattle.std.specs.Option.{ForSome, option_map};
ghost use Rattle.zs_keys.specs.Prefix.{nonwild_prefix};
ghost use Rattle.zs_keys.specs.Text.{is_canonical};
ghost use Rattle.zs_keys.specs.Matching.{intersects, includes};

use crate::declaration::Declared;
use crate::inclusion::includes;
use crate::key_error::KeyError;
use crate::key_text::KeyText;
use crate::matching::texts_meet;
use crate::plain::{is_plain, plainness};
use crate::prefix::nonwild_prefix;
use crate::steps::Steps;
use std::alloc::Global;
use std::marker::Model;
use std::sync::ledger::Ledger;

/// A canonical text that names a set of keys, borrowed or owned, and how it was declared, if it was.
///
/// Its chunks stand between `/`. A chunk `*` stands for any one chunk and `**` for any number of them, and `$*` inside
/// a chunk for any characters; none of them stands for a verbatim chunk, which begins with `@`. Comparisons, hashes
/// and Display see the text alone.
pub struct KeyExpr<'a> {
    text: KeyText<'a>,
    plain: bool,
    declaration: Option<Declared>,
}

impl Drop for KeyExpr<'_> {
    /// Gives up the text, where it is owned. What was declared is not taken back.
    fn drop(self) {
        let KeyExpr {
            text,
            plain: _,
            declaration: _,
        } = self;
        drop(text);
    }
}

impl<'a> Model for KeyExpr<'a> {
    ghost use Rattle.std.specs.Prelude.{◌≡◌, IsTrue, IsCharBoundary};
    ghost use Rattle.std.specs.Option.{ForSome};
    ghost use Rattle.zs_keys.specs.KeyText.{key_text_bytes};
    ghost use Rattle.zs_keys.specs.Plain.{is_plain};
    ghost use Rattle.zs_keys.specs.Text.{is_canonical};
    ghost use Rattle.zs_keys.specs.Key.{Key};

    ghost Value = { Key };

    ghost view = { λ k. record { text = key_text_bytes k.text; declaration = k.declaration } };

    ghost invariant = { λ k. IsTrue (is_canonical (key_text_bytes k.text))
        × ForSome k.declaration (λ d. IsCharBoundary (key_text_bytes k.text) d.prefix_len)
        × (k.plain ≡ is_plain (key_text_bytes k.text)) };
}

impl<'a> KeyExpr<'a> {
    ghost use Rattle.zs_keys.specs.declared.key_error.KeyError.{KeyError};
    ghost use Rattle.zs_keys.specs.Key.{undeclared, text_refusal};

    /// The key expression with this text and no declaration.
    ///
    /// # Errors
    ///
    /// `BadKeyExpr` where the text is not canonical.
    pub fn new(text: &'a str) -> Result<KeyExpr<'a>, KeyError>
        ensures canonical { IsOk result ↔ IsTrue (is_canonical text.now) }
        ensures ok { IfOk result (λ key. key ≡ undeclared text.now) }
        ensures err { IfErr result (λ error. error ≡ KeyError.BadKeyExpr) }
    {
        let Some(plain) = plainness(text) else {
            return Err(KeyError::BadKeyExpr);
        };
        Ok(KeyExpr {
            text: KeyText::Borrowed(text),
            plain,
            declaration: None,
        })
    }

    /// The key expression with this text and no declaration.
    ///
    /// # Errors
    ///
    /// `BadKeyExpr` where the text is not canonical.
    pub fn from_string(text: String) -> Result<KeyExpr<'static>, KeyError>
        ensures ok { IfOk result (λ key. (key ≡ undeclared (string_bytes text)) × (text_refusal key.text ≡ None)) }
        ensures err { IfErr result (λ error. text_refusal (string_bytes text) ≡ Some error) }
    {
        KeyExpr::of_parts(text, None)
    }

    /// The key expression with this text and declaration, where the text is canonical.
    pub(crate) fn of_parts(
        text: String,
        declaration: Option<Declared>,
    ) -> Result<KeyExpr<'static>, KeyError>
        requires { ForSome declaration (λ d. IsCharBoundary (string_bytes text) d.prefix_len) }
        ensures ok { IfOk result (λ key. (key ≡ record { text = string_bytes text; declaration = declaration })
            × (text_refusal key.text ≡ None)) }
        ensures err { IfErr result (λ error. text_refusal (string_bytes text) ≡ Some error) }
    {
        let Some(plain) = plainness(text.as_str()) else {
            return Err(KeyError::BadKeyExpr);
        };
        Ok(KeyExpr {
            text: KeyText::Own(text),
            plain,
            declaration,
        })
    }

    /// The text.
    pub fn as_str(&self) -> &str
        ensures text { result.now ≡ self.now.text }
        ensures canonical { IsTrue (is_canonical self.now.text) }
    {
        self.text.as_str()
    }

    /// The same text without its declaration, borrowed.
    pub fn as_keyexpr(&self) -> KeyExpr<'_>
        ensures { result ≡ undeclared self.now.text }
    {
        KeyExpr {
            text: self.text.lend(),
            plain: self.plain,
            declaration: None,
        }
    }

    /// The text, as a string of its own. It is copied only where it is borrowed or shared.
    ///
    /// # Errors
    ///
    /// `NoMemory` alone.
    pub fn into_string(self, alloc: Global) -> Result<String, KeyError>
        ensures ok { IfOk result (λ text. string_bytes text ≡ self.entry.text) }
        ensures err { IfErr result (λ error. error ≡ KeyError.NoMemory) }
    {
        let KeyExpr {
            text,
            plain: _,
            declaration: _,
        } = self;
        Ok(text.into_string(alloc)?)
    }

    /// How it was declared, if it was. The declared prefix ends at a character of the text.
    pub fn declaration(&self) -> Option<Declared>
        ensures declaration { result ≡ self.now.declaration }
        ensures prefix { ForSome self.now.declaration (λ d. IsCharBoundary self.now.text d.prefix_len) }
    {
        self.declaration
    }

    /// The same text, declared so.
    pub fn with_declaration(self, declared: Declared) -> KeyExpr<'a>
        requires { IsCharBoundary self.text declared.prefix_len }
        ensures { result ≡ record self.entry { declaration = Some declared } }
    {
        let KeyExpr {
            text,
            plain,
            declaration: _,
        } = self;
        KeyExpr {
            text,
            plain,
            declaration: Some(declared),
        }
    }

    /// The same text without a declaration.
    pub fn without_declaration(self) -> KeyExpr<'a>
        ensures { result ≡ undeclared self.entry.text }
    {
        let KeyExpr {
            text,
            plain,
            declaration: _,
        } = self;
        KeyExpr {
            text,
            plain,
            declaration: None,
        }
    }

    /// The same key expression with a text of its own, which its copies share from now on: a copy of what is borrowed
    /// from it takes no memory.
    ///
    /// # Errors
    ///
    /// `NoMemory` alone.
    pub fn into_owned(self, alloc: Global) -> Result<KeyExpr<'static>, KeyError>
        ensures ok { IfOk result (λ key. key ≡ self.entry) }
        ensures err { IfErr result (λ error. error ≡ KeyError.NoMemory) }
    {
        let KeyExpr {
            text,
            plain,
            declaration,
        } = self;
        Ok(KeyExpr {
            text: text.into_shared(alloc)?,
            plain,
            declaration,
        })
    }

    /// The same key expression, borrowed.
    pub fn borrowing_clone(&'a self) -> KeyExpr<'a>
        ensures { result ≡ self.now }
    {
        KeyExpr {
            text: self.text.lend(),
            plain: self.plain,
            declaration: self.declaration,
        }
    }

    /// Whether both key expressions have a key in common. It counts one step.
    pub fn intersects<L: Ledger>(&self, other: &KeyExpr<'_>, steps: &mut Steps<L>) -> bool
        ensures answer { result ≡ intersects self.now.text other.now.text }
        ensures counted { steps.old < steps.new }
    {
        steps.tick();
        self.meets(other)
    }

    /// [`intersects`](KeyExpr::intersects) for a caller that counts no steps.
    #[tactic(auto, using(crate::proofs::EqualLemmas::equal_steps))]
    pub fn meets(&self, other: &KeyExpr<'_>) -> bool
        ensures { result ≡ intersects self.now.text other.now.text }
    {
        if self.plain && other.plain {
            return self.as_str() == other.as_str();
        }
        texts_meet(self.as_str(), other.as_str())
    }

    /// Whether each key of the other key expression is one of this one.
    pub fn includes(&self, other: &KeyExpr<'_>) -> bool
        ensures { result ≡ includes self.now.text other.now.text }
    {
        includes(self.as_str(), other.as_str())
    }

    /// The part before the first wild chunk, if there is one: the whole text where it has no `*`.
    pub fn nonwild_prefix(&self) -> Option<KeyExpr<'_>>
        ensures { result ≡ option_map undeclared (nonwild_prefix self.now.text) }
    {
        let Some(front) = nonwild_prefix(self.text.as_str()) else {
            return None;
        };
        Some(KeyExpr {
            text: KeyText::Borrowed(front),
            plain: is_plain(front),
            declaration: None,
        })
    }
}
