//! A walk over the units of a chunk.

ghost use Rattle.std.specs.Prelude.{◌≡◌, [], ◌∷◌, MatchOption};
ghost use Rattle.zs_keys.specs.Matching.{units};

/// The units of a chunk that a walk still has before it, with `$` for each `$*`.
#[derive(Clone, Copy)]
pub(crate) struct Units<'a> {
    rest: &'a [u8],
}

impl<'a> Units<'a> {
    ghost use Rattle.zs_keys.specs.Units.{units_left};

    /// The walk over all units of the chunk.
    pub(crate) fn of(chunk: &'a str) -> Units<'a>
        ensures { units_left result ≡ units chunk.now }
    {
        Units {
            rest: chunk.as_bytes(),
        }
    }

    /// The next unit, and the walk behind it.
    pub(crate) fn next_unit(self) -> Option<(u8, Units<'a>)>
        ensures { MatchOption result (units_left self.entry ≡ [])
            (λ p. units_left self.entry ≡ p.0 ∷ units_left p.1) }
    {
        let mut rest = self.rest;
        while let [unit, others @ ..] = rest {
            rest = others;
            if *unit != b'*' {
                return Some((*unit, Units { rest }));
            }
        }
        None
    }
}
