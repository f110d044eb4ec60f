//! Encodings, which say what a payload is: Zenoh's `Encoding` as a text.
ghost use Rattle.std.specs.Prelude.{◌≡◌, ◌==◌, codes, IfOk, encode_utf8_all};
ghost use Rattle.std.specs.List.{before_first};
ghost use Rattle.std.specs.Str.{chars};
ghost use Rattle.zs_sample.specs.Encoding.{encoding_of, with_schema};

use std::alloc::{AllocError, Global};
use std::marker::Model;
use zs_bytes::Text;

/// The text inside an encoding. Those that are known cost no memory.
#[derive(Drop)]
enum Name {
    ZenohBytes,
    ZenohString,
    TextPlain,
    ApplicationJson,
    Other(Text),
}

/// What a payload is: a text such as `application/json`. Contracts see its characters.
///
/// Comparisons, hashes and Display see the text alone.
pub struct Encoding {
    name: Name,
}

impl Drop for Encoding {
    /// Gives up the name. Memory that its copies share stays.
    fn drop(self) {
        let Encoding { name } = self;
        drop(name);
    }
}

impl Model for Encoding {
    ghost use Rattle.std.specs.Prelude.{ℕ, List};
    ghost use Rattle.zs_sample.specs.Encoding.{name_chars};

    ghost Value = { List ℕ };

    ghost view = { λ e. name_chars e.name };
}

impl Default for Encoding {
    ghost is_default = { λ e. e ≡ codes "zenoh/bytes" };

    /// `zenoh/bytes`, Zenoh's default.
    fn default() -> Encoding {
        Encoding::ZENOH_BYTES
    }
}

impl Encoding {
    /// `zenoh/bytes`, plain bytes: the default.
    pub const ZENOH_BYTES: Encoding = Encoding {
        name: Name::ZenohBytes,
    };

    /// `zenoh/string`, a text in UTF-8.
    pub const ZENOH_STRING: Encoding = Encoding {
        name: Name::ZenohString,
    };

    /// `text/plain`
    pub const TEXT_PLAIN: Encoding = Encoding {
        name: Name::TextPlain,
    };

    /// `application/json`
    pub const APPLICATION_JSON: Encoding = Encoding {
        name: Name::ApplicationJson,
    };

    /// The encoding of that name. The empty text is the default, `zenoh/bytes`.
    pub fn of(alloc: Global, text: &str) -> Result<Encoding, AllocError>
        ensures made { IfOk result (λ made. made ≡ encoding_of (chars text.now)) }
    {
        Ok(Encoding::of_text(Text::of(alloc, text)?))
    }

    /// The encoding of that name. The empty text is the default, `zenoh/bytes`.
    pub fn of_text(text: Text) -> Encoding
        ensures { result ≡ encoding_of text }
    {
        if text.is_empty() {
            return Encoding::ZENOH_BYTES;
        }
        Encoding {
            name: Name::Other(text),
        }
    }

    /// This encoding with a schema, which replaces the one that it has: all that stands behind its first `;`.
    pub fn with_schema(self, alloc: Global, schema: &str) -> Result<Encoding, AllocError>
        ensures { IfOk result (λ made. made ≡ with_schema self (chars schema.now)) }
    {
        let base = before_schema(self.as_str());
        let name = format!(in alloc; "{base};{schema}")?;
        Ok(Encoding {
            name: Name::Other(Text::of(alloc, name.as_str())?),
        })
    }

    /// The encoding's name.
    pub fn as_str(&self) -> &str
        ensures characters { chars result.now ≡ self.now }
        ensures bytes { result.now ≡ encode_utf8_all self.now }
    {
        match &self.name {
            Name::ZenohBytes => "zenoh/bytes",
            Name::ZenohString => "zenoh/string",
            Name::TextPlain => "text/plain",
            Name::ApplicationJson => "application/json",
            Name::Other(text) => text.as_str(),
        }
    }

    /// The encoding's name as a text, such as a message carries. That of the default takes no memory, and that of a name of
    /// the application's own shares its memory.
    pub fn to_text(&self, alloc: Global) -> Result<Text, AllocError>
        ensures { IfOk result (λ text. text ≡ self.now) }
    {
        match &self.name {
            Name::ZenohBytes => Ok(Text::zenoh_bytes()),
            Name::Other(text) => text.try_clone(alloc),
            _ => Text::of(alloc, self.as_str()),
        }
    }

    /// The same encoding.
    pub fn try_clone(&self, alloc: Global) -> Result<Encoding, AllocError>
        ensures { IfOk result (λ copy. copy ≡ self.now) }
    {
        match &self.name {
            Name::ZenohBytes => Ok(Encoding::ZENOH_BYTES),
            Name::ZenohString => Ok(Encoding::ZENOH_STRING),
            Name::TextPlain => Ok(Encoding::TEXT_PLAIN),
            Name::ApplicationJson => Ok(Encoding::APPLICATION_JSON),
            Name::Other(text) => {
                let text = text.try_clone(alloc)?;
                Ok(Encoding {
                    name: Name::Other(text),
                })
            },
        }
    }
}

/// What stands before the first `;` of a name.
fn before_schema(name: &str) -> &str
    ensures { chars result.now ≡ before_first (λ c. c == 0x3b) (chars name.now) }
{
    match name.split_once(';') {
        Some((base, _)) => base,
        None => name,
    }
}
