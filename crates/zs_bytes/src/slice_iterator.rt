//! The slices of a payload, one at a time.

ghost use Rattle.std.specs.Prelude.{◌≡◌, ◌≤◌, Some, IfSome, length};
ghost use Rattle.std.specs.Iterator.{YieldsFirstRef, UpTo, at_most, item_count};

use bytes::Bytes;
use std::marker::Model;

/// Gives each slice of a payload once, in order. Contracts see the slices that are left.
#[derive(Drop)]
pub struct ZBytesSliceIterator<'a> {
    rest: &'a [Bytes],
}

impl<'a> Model for ZBytesSliceIterator<'a> {
    ghost use Rattle.std.specs.Prelude.{ℕ, List};

    ghost Value = { List (List ℕ) };

    ghost view = { λ i. i.rest.now };
}

impl<'a> ZBytesSliceIterator<'a> {
    /// An iterator over these slices.
    pub(crate) fn over(rest: &'a [Bytes]) -> ZBytesSliceIterator<'a>
        ensures { result ≡ rest.now }
    {
        ZBytesSliceIterator { rest }
    }
}

impl<'a> Iterator for ZBytesSliceIterator<'a> {
    type Item = &'a [u8];

    ghost next_gives = { YieldsFirstRef (λ rest. rest) };

    ghost remaining = { item_count (λ rest. rest) };

    /// The first slice that is left, as the payload holds it: nothing is copied.
    fn next(&mut self) -> Option<&'a [u8]> {
        let (first, rest) = self.rest.split_first()?;
        self.rest = rest;
        Some(first.as_slice())
    }

    /// How many slices are left, exactly: the lower bound is the upper one.
    fn size_hint(&self) -> (usize, Option<usize>)
        ensures lower { result.0 ≤ length self.now }
        ensures upper { IfSome result.1 (UpTo (at_most (length self.now))) }
        ensures exact { result ≡ (length self.now, Some (length self.now)) }
    {
        (self.rest.len(), Some(self.rest.len()))
    }
}
