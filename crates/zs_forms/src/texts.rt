//! Texts that are given as bytes.

ghost use Rattle.std.specs.Prelude.{◌≡◌, IfOk};
ghost use Rattle.zs_forms.specs.Texts.{text_in, encoding_in};

use std::alloc::{AllocError, Global};
use zs_bytes::Text;

/// The text that the bytes are, if they are UTF-8.
#[tactic(auto, using(crate::proofs::Utf8::utf8_tests))]
pub fn text_in(alloc: Global, bytes: &[u8]) -> Result<Option<Text>, AllocError>
    ensures { IfOk result (λ found. found ≡ text_in bytes.now) }
{
    let Ok(text) = str::from_utf8(bytes) else {
        return Ok(None);
    };
    let text = Text::of(alloc, text)?;
    Ok(Some(text))
}

/// The encoding that the bytes name, if they are UTF-8: none where there are none.
pub(crate) fn encoding_in(alloc: Global, bytes: &[u8]) -> Result<Option<Option<Text>>, AllocError>
    ensures { IfOk result (λ found. found ≡ encoding_in bytes.now) }
{
    if bytes.is_empty() {
        return Ok(Some(None));
    }
    let Some(text) = text_in(alloc, bytes)? else {
        return Ok(None);
    };
    Ok(Some(Some(text)))
}
