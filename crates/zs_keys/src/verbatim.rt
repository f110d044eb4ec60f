//! Verbatim chunks.

ghost use Rattle.std.specs.Prelude.{◌≡◌};
ghost use Rattle.zs_keys.specs.Text.{is_verbatim};

/// Whether a chunk begins with `@`, so that no wild sign stands for it.
pub(crate) fn is_verbatim(chunk: &str) -> bool
    ensures { result ≡ is_verbatim chunk.now }
{
    chunk.as_bytes().first() == Some(&b'@')
}
