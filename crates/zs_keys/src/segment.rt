//! The chunks between two verbatim ones.

ghost use Rattle.std.specs.Prelude.{◌≡◌, [], ◌∷◌, MatchOption};
ghost use Rattle.zs_keys.specs.Matching.{is_free};
ghost use Rattle.zs_keys.specs.Chunks.{chunks_left};
ghost use Rattle.zs_keys.specs.Segments.{behind};

use crate::chunks::Chunks;
use crate::verbatim::is_verbatim;

/// The chunks that a walk still has before it up to the next verbatim one.
#[derive(Clone, Copy)]
pub(crate) struct Segment<'a> {
    chunks: Chunks<'a>,
}

impl<'a> Segment<'a> {
    ghost use Rattle.zs_keys.specs.Chunks.{chunks_left};
    ghost use Rattle.zs_keys.specs.Segments.{front, segment_left};

    /// The chunks before the first verbatim one.
    pub(crate) fn of(chunks: Chunks<'a>) -> Segment<'a>
        ensures { segment_left result ≡ front is_free (chunks_left chunks.entry) }
    {
        Segment { chunks }
    }

    /// The next chunk, and the walk behind it.
    pub(crate) fn next_free(self) -> Option<(&'a str, Segment<'a>)>
        ensures { MatchOption result (segment_left self.entry ≡ [])
            (λ p. segment_left self.entry ≡ p.0.now ∷ segment_left p.1) }
    {
        let (chunk, chunks) = self.chunks.next_chunk()?;
        if is_verbatim(chunk) {
            return None;
        }
        Some((chunk, Segment { chunks }))
    }
}

/// The first verbatim chunk, and the walk behind it.
pub(crate) fn next_verbatim<'a>(chunks: Chunks<'a>) -> Option<(&'a str, Chunks<'a>)>
    ensures { MatchOption result (behind is_free (chunks_left chunks.entry) ≡ [])
        (λ p. behind is_free (chunks_left chunks.entry) ≡ p.0.now ∷ chunks_left p.1) }
{
    let mut rest = chunks;
    while let Some((chunk, others)) = rest.next_chunk() {
        rest = others;
        if is_verbatim(chunk) {
            return Some((chunk, rest));
        }
    }
    None
}
