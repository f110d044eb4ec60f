//! Key expressions that are made of two texts.

ghost use Rattle.std.specs.Prelude.{◌≡◌, ◌++◌, ◌∷◌, IfOk, IfErr, Some, None, string_bytes, IsCharBoundary};
ghost use Rattle.std.specs.Option.{ForSome};
ghost use Rattle.zs_keys.specs.Canonize.{canonize};
ghost use Rattle.zs_keys.specs.Key.{joins_stars};

use crate::canonize::canonize;
use crate::declaration::Declared;
use crate::key_error::KeyError;
use crate::key_expr::KeyExpr;
use std::alloc::{AllocError, Global};

/// Two texts, one behind the other.
fn joined_text(alloc: Global, front: &str, back: &str) -> Result<String, AllocError>
    ensures { IfOk result (λ text. string_bytes text ≡ front.now ++ back.now) }
{
    let mut text = String::from_str(alloc, front)?;
    text.push_str(back)?;
    Ok(text)
}

/// Two texts with a `/` between them.
fn slash_joined_text(alloc: Global, front: &str, back: &str) -> Result<String, AllocError>
    ensures { IfOk result (λ text. string_bytes text ≡ front.now ++ (0x2f ∷ back.now)) }
{
    let mut text = joined_text(alloc, front, "/")?;
    text.push_str(back)?;
    Ok(text)
}

/// Whether the text ends with `*` and the suffix begins with `*`.
fn joins_stars(text: &str, suffix: &str) -> bool
    ensures { result ≡ joins_stars text.now suffix.now }
{
    text.ends_with("*") && suffix.starts_with("*")
}

impl<'a> KeyExpr<'a> {
    ghost use Rattle.zs_keys.specs.declared.key_error.KeyError.{KeyError};
    ghost use Rattle.zs_keys.specs.Key.{undeclared, text_refusal, concat_refusal, IsCause, join_text, join_key, kept_declaration};

    /// The text with a suffix put behind it, and the same declaration. Unlike [`concat`](KeyExpr::concat) it lets
    /// stars meet, where a canonical text comes out. Without a suffix it is a copy, which shares the text where it can.
    ///
    /// # Errors
    ///
    /// `BadKeyExpr` where that is not canonical, and `NoMemory`.
    pub fn with_suffix(&self, alloc: Global, suffix: &str) -> Result<KeyExpr<'static>, KeyError>
        ensures ok { IfOk result (λ key. (key ≡ record self.now { text = self.now.text ++ suffix.now })
            × (text_refusal key.text ≡ None)) }
        ensures err { IfErr result (λ error. IsCause error (text_refusal (self.now.text ++ suffix.now))) }
    {
        if suffix.is_empty() {
            return self.borrowing_clone().into_owned(alloc);
        }
        let text = joined_text(alloc, self.as_str(), suffix)?;
        KeyExpr::of_parts(text, self.declaration())
    }

    /// The text with a suffix put behind it, and the same declaration.
    ///
    /// # Errors
    ///
    /// `ConcatStars` where the text ends with `*` and the suffix begins with `*`, else `BadKeyExpr` where what comes
    /// out is not canonical; and `NoMemory`.
    pub fn concat(&self, alloc: Global, suffix: &str) -> Result<KeyExpr<'static>, KeyError>
        ensures ok { IfOk result (λ key. (key ≡ record self.now { text = self.now.text ++ suffix.now })
            × (concat_refusal self.now.text suffix.now ≡ None)) }
        ensures err { IfErr result (λ error. IsCause error (concat_refusal self.now.text suffix.now)) }
    {
        if joins_stars(self.as_str(), suffix) {
            return Err(KeyError::ConcatStars);
        }
        self.with_suffix(alloc, suffix)
    }

    /// The canonical form of a text, as a key expression without a declaration.
    ///
    /// # Errors
    ///
    /// `BadKeyExpr` where that form is not canonical, since the text has another fault; and `NoMemory`.
    pub fn autocanonize(alloc: Global, text: String) -> Result<KeyExpr<'static>, KeyError>
        ensures ok { IfOk result (λ key. (key ≡ undeclared (canonize (string_bytes text)))
            × (text_refusal key.text ≡ None)) }
        ensures err { IfErr result (λ error. IsCause error (text_refusal (canonize (string_bytes text)))) }
    {
        let form = canonize(alloc, text.as_str())?;
        Ok(KeyExpr::from_string(form)?)
    }

    /// The declaration, where the part of the text that it stands for begins this text too.
    fn declaration_in(&self, text: &str) -> Option<Declared>
        ensures kept { result ≡ kept_declaration self.now.text text.now self.now.declaration }
        ensures prefix { ForSome result (λ d. IsCharBoundary text.now d.prefix_len) }
    {
        let Some(declared) = self.declaration() else {
            return None;
        };
        let (prefix, _) = self.as_str().split_at(declared.prefix_len as usize);
        if !text.starts_with(prefix) {
            return None;
        }
        Some(declared)
    }

    /// The text and a suffix with a `/` between them, in canonical form. The declaration stays exactly where the part
    /// of the text that it stands for begins that form too.
    ///
    /// # Errors
    ///
    /// `BadKeyExpr` where the form is not canonical, and `NoMemory`.
    pub fn join(&self, alloc: Global, suffix: &str) -> Result<KeyExpr<'static>, KeyError>
        ensures ok { IfOk result (λ key. (key ≡ join_key self.now suffix.now) × (text_refusal key.text ≡ None)) }
        ensures err { IfErr result (λ error. IsCause error (text_refusal (join_text self.now.text suffix.now))) }
    {
        let text = slash_joined_text(alloc, self.as_str(), suffix)?;
        let form = canonize(alloc, text.as_str())?;
        let declaration = self.declaration_in(form.as_str());
        Ok(KeyExpr::of_parts(form, declaration)?)
    }

    /// The operator `/`: [`join`](KeyExpr::join) of the text of another key expression. Two canonical texts always have
    /// a canonical form.
    ///
    /// # Errors
    ///
    /// `NoMemory` alone.
    pub fn div(&self, alloc: Global, rhs: &KeyExpr<'_>) -> Result<KeyExpr<'static>, KeyError>
        ensures ok { IfOk result (λ key. key ≡ join_key self.now rhs.now.text) }
        ensures err { IfErr result (λ error. error ≡ KeyError.NoMemory) }
    {
        let _canonical = self.as_str();
        self.join(alloc, rhs.as_str())
    }
}
