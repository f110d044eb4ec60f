//! The part of a key expression before its first wild chunk.

ghost use Rattle.std.specs.Prelude.{◌≡◌, Some, None, MatchOption};
ghost use Rattle.zs_keys.specs.Prefix.{before_slash, nonwild_prefix};

/// What stands before the last `/`, if there is one.
fn before_slash(text: &str) -> Option<&str>
    ensures { MatchOption result (before_slash text.now ≡ None) (λ front. before_slash text.now ≡ Some front.now) }
{
    let Some((front, _)) = text.rsplit_once('/') else {
        return None;
    };
    Some(front)
}

/// Without a `*` the whole text, else what stands before the last `/` before the first `*`, if there is such a `/`.
pub(crate) fn nonwild_prefix(text: &str) -> Option<&str>
    ensures { MatchOption result (nonwild_prefix text.now ≡ None) (λ front. nonwild_prefix text.now ≡ Some front.now) }
{
    let Some((plain, _)) = text.split_once('*') else {
        return Some(text);
    };
    before_slash(plain)
}
