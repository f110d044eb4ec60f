//! A walk over the chunks of a text.

ghost use Rattle.std.specs.Prelude.{◌≡◌, ◌==◌, ◌≤◌, [], ◌∷◌, length, MatchOption};
ghost use Rattle.std.specs.List.{position_or_len};
ghost use Rattle.zs_keys.specs.Text.{chunks};

/// How many bytes stand before the first `/`, or how many there are where none is one.
fn bytes_before_slash(bytes: &[u8]) -> usize
    ensures { result ≡ position_or_len (λ byte. byte == 0x2f) bytes.now }
{
    for (place, &byte) in bytes.iter().enumerate() {
        if byte == b'/' {
            return place;
        }
    }
    bytes.len()
}

/// The chunks of a text that a walk still has before it: none, or those of the text that is left.
#[derive(Clone, Copy)]
pub(crate) struct Chunks<'a> {
    rest: Option<&'a str>,
}

impl<'a> Chunks<'a> {
    ghost use Rattle.zs_keys.specs.Chunks.{chunks_left};

    /// The walk over all chunks of the text.
    pub(crate) fn of(text: &'a str) -> Chunks<'a>
        ensures { chunks_left result ≡ chunks text.now }
    {
        Chunks { rest: Some(text) }
    }

    /// The next chunk, and the walk behind it.
    pub(crate) fn next_chunk(self) -> Option<(&'a str, Chunks<'a>)>
        ensures { MatchOption result (chunks_left self.entry ≡ [])
            (λ p. chunks_left self.entry ≡ p.0.now ∷ chunks_left p.1) }
    {
        let text = self.rest?;
        let place = bytes_before_slash(text.as_bytes());
        if place >= text.len() {
            return Some((text, Chunks { rest: None }));
        }
        let (chunk, _) = text.split_at(place);
        let (_, rest) = text.split_at(place + 1);
        Some((chunk, Chunks { rest: Some(rest) }))
    }
}
