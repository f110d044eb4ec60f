//! Where the text of a key expression lives.

ghost use Rattle.std.specs.Prelude.{◌≡◌, IfOk, string_bytes};
ghost use Rattle.zs_keys.specs.KeyText.{key_text_bytes};

use std::alloc::{AllocError, Global};
use std::sync::Arc;

/// A text that is borrowed, or lives in memory of its own.
#[derive(Drop)]
pub(crate) enum KeyText<'a> {
    /// A text of someone else.
    Borrowed(&'a str),
    /// The shared text of another key expression.
    Lent(&'a Arc<String>),
    /// A text that nobody shares.
    Own(String),
    /// A text that its copies share.
    Shared(Arc<String>),
}

impl<'a> KeyText<'a> {
    /// The text.
    pub(crate) fn as_str(&self) -> &str
        ensures { result.now ≡ key_text_bytes self.now }
    {
        match self {
            KeyText::Borrowed(text) => text,
            KeyText::Lent(text) => text.as_str(),
            KeyText::Own(text) => text.as_str(),
            KeyText::Shared(text) => text.as_str(),
        }
    }

    /// The same text, borrowed. What is made of it shares the text, where this one does.
    pub(crate) fn lend(&self) -> KeyText<'_>
        ensures { key_text_bytes result ≡ key_text_bytes self.now }
    {
        match self {
            KeyText::Borrowed(text) => KeyText::Borrowed(text),
            KeyText::Lent(text) => KeyText::Lent(text),
            KeyText::Own(text) => KeyText::Borrowed(text.as_str()),
            KeyText::Shared(text) => KeyText::Lent(text),
        }
    }

    /// The same text, which its copies share from now on. Only a borrowed text that nobody shares is copied.
    pub(crate) fn into_shared(self, alloc: Global) -> Result<KeyText<'static>, AllocError>
        ensures { IfOk result (λ text. key_text_bytes text ≡ key_text_bytes self.entry) }
    {
        Ok(KeyText::Shared(match self {
            KeyText::Borrowed(text) => Arc::new(alloc, String::from_str(alloc, text)?)?,
            KeyText::Lent(text) => Arc::try_clone(text)?,
            KeyText::Own(text) => Arc::new(alloc, text)?,
            KeyText::Shared(text) => text,
        }))
    }

    /// The text as a string. It is copied only where it is borrowed, or where others share it.
    pub(crate) fn into_string(self, alloc: Global) -> Result<String, AllocError>
        ensures { IfOk result (λ text. string_bytes text ≡ key_text_bytes self.entry) }
    {
        match self {
            KeyText::Borrowed(text) => String::from_str(alloc, text),
            KeyText::Lent(text) => String::from_str(alloc, text.as_str()),
            KeyText::Own(text) => Ok(text),
            KeyText::Shared(text) => match Arc::try_unwrap(text) {
                Ok(text) => Ok(text),
                Err(text) => String::from_str(alloc, text.as_str()),
            },
        }
    }
}
