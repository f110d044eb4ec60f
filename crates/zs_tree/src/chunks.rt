//! A walk over the chunks of a text.

ghost use Rattle.std.specs.Prelude.{◌≡◌, [], ◌∷◌, MatchOption};
ghost use Rattle.zs_keys.specs.Text.{chunks};

/// The chunks of a text that a walk still has before it: none, or those of the text that is left.
#[derive(Clone, Copy)]
pub(crate) struct Chunks<'a> {
    rest: Option<&'a str>,
}

impl<'a> Chunks<'a> {
    ghost use Rattle.zs_tree.specs.Chunks.{chunks_left};

    /// The walk over all chunks of the text.
    pub(crate) fn of(text: &'a str) -> Chunks<'a>
        ensures { chunks_left result ≡ chunks text.now }
    {
        Chunks { rest: Some(text) }
    }

    /// The next chunk, and the walk behind it.
    pub(crate) fn next_chunk(self) -> Option<(&'a str, Chunks<'a>)>
        ensures { MatchOption result (chunks_left self.entry ≡ [])
            (λ p. chunks_left self.entry ≡ p.0.now ∷ chunks_left p.1) }
    {
        let text = self.rest?;
        match text.split_once('/') {
            Some((chunk, rest)) => Some((chunk, Chunks { rest: Some(rest) })),
            None => Some((text, Chunks { rest: None })),
        }
    }
}
