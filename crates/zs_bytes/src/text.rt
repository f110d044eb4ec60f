//! Texts that are never changed, whose copies share their memory.
ghost use Rattle.std.specs.Prelude.{◌≡◌, ◌↔◌, [], IsTrue, IfOk, codes, encode_utf8_all};
ghost use Rattle.std.specs.Str.{chars};
ghost use Rattle.zs_bytes.specs.Text.{held_bytes};

use std::alloc::{AllocError, Global};
use std::fmt;
use std::marker::Model;
use std::sync::ArcStr;

/// Where a text lies.
#[derive(Drop)]
enum Held {
    Empty,
    ZenohBytes,
    Shared(ArcStr),
}

impl Held {
    /// The text in UTF-8: a constant, or what lies in shared memory.
    fn as_str(&self) -> &str
        ensures { result.now ≡ held_bytes self.now }
    {
        match self {
            Held::Empty => "",
            Held::ZenohBytes => "zenoh/bytes",
            Held::Shared(text) => text.as_str(),
        }
    }

    /// The same text in the same place. It fails only where a shared one has more copies than can be counted.
    fn try_clone(&self) -> Result<Held, AllocError>
        ensures { IfOk result (λ copy. held_bytes copy ≡ held_bytes self.now) }
    {
        Ok(match self {
            Held::Empty => Held::Empty,
            Held::ZenohBytes => Held::ZenohBytes,
            Held::Shared(text) => Held::Shared(text.clone()?),
        })
    }
}

/// A text that is never changed. Its copies share its memory. Contracts see it as the list of its characters.
pub struct Text {
    held: Held,
}

impl Drop for Text {
    /// Gives up the text. Memory that other copies share stays.
    fn drop(self) {
        let Text { held } = self;
        drop(held);
    }
}

impl Model for Text {
    ghost use Rattle.std.specs.Prelude.{ℕ, List};
    ghost use Rattle.std.specs.Str.{chars};
    ghost use Rattle.zs_bytes.specs.Text.{held_bytes};

    ghost Value = { List ℕ };

    ghost view = { λ t. chars (held_bytes t.held) };
}

impl Text {
    /// A copy of the text.
    pub fn of(alloc: Global, text: &str) -> Result<Text, AllocError>
        ensures { IfOk result (λ made. made ≡ chars text.now) }
    {
        Ok(Text {
            held: Held::Shared(ArcStr::from_str(alloc, text)?),
        })
    }

    /// The text without a character. It takes no memory, nor do its copies.
    pub fn empty() -> Text
        ensures { result ≡ [] }
    {
        Text { held: Held::Empty }
    }

    /// The name of Zenoh's default encoding. It takes no memory, nor do its copies.
    pub fn zenoh_bytes() -> Text
        ensures { result ≡ codes "zenoh/bytes" }
    {
        Text {
            held: Held::ZenohBytes,
        }
    }

    /// The text, as its characters and as their UTF-8 bytes.
    pub fn as_str(&self) -> &str
        ensures characters { chars result.now ≡ self.now }
        ensures bytes { result.now ≡ encode_utf8_all self.now }
    {
        self.held.as_str()
    }

    /// Whether it has no character.
    pub fn is_empty(&self) -> bool
        ensures { IsTrue result ↔ (self.now ≡ []) }
    {
        self.as_str().is_empty()
    }

    /// The same text, in the same memory.
    pub fn try_clone(&self, _alloc: Global) -> Result<Text, AllocError>
        ensures { IfOk result (λ copy. copy ≡ self.now) }
    {
        Ok(Text {
            held: self.held.try_clone()?,
        })
    }
}

impl fmt::Debug for Text {
    /// Shows the text in quotes, with its escapes, as Debug of a `str` does.
    fn fmt<W: fmt::Write>(&self, f: &mut fmt::Formatter<W>) -> fmt::Result {
        fmt::Debug::fmt(&self.as_str(), f)
    }
}
