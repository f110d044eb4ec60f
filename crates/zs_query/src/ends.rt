//! Gets that end at one moment, each with the replies that are handed out then.
ghost use Rattle.std.specs.Prelude.{◌≡◌, ◌==◌, map, IfOk, length, slice_get};
ghost use Rattle.std.specs.Option.{option_copied};

use crate::replies::Replies;
use std::alloc::{AllocError, Global};
use std::marker::Model;

/// The ends of gets: the number of each, and the replies that it hands out at last.
#[derive(Debug, Drop)]
pub struct Ends {
    items: Vec<(u32, Replies)>,
}

impl Model for Ends {
    ghost use Rattle.std.specs.Prelude.{ℕ, List};
    ghost use Rattle.zs_sample.specs.Reply.{Replied};

    ghost Value = { List (ℕ × List Replied) };

    ghost view = { λ e. e.items.items };
}

impl Ends {
    /// These ends.
    pub(crate) fn of(items: Vec<(u32, Replies)>) -> Ends
        ensures { result ≡ items.items }
    {
        Ends { items }
    }

    /// How many there are.
    pub fn len(&self) -> usize
        ensures { result ≡ length self.now }
    {
        self.items.len()
    }

    /// Whether there is none.
    pub fn is_empty(&self) -> bool
        ensures { result ≡ (length self.now == 0) }
    {
        self.items.is_empty()
    }

    /// The end at that place, if there is one.
    pub fn get(&self, index: usize) -> Option<&(u32, Replies)>
        ensures { option_copied result ≡ slice_get self.now index }
    {
        self.items.get(index)
    }

    /// The numbers of the gets that end.
    pub fn numbers(&self, alloc: Global) -> Result<Vec<u32>, AllocError>
        ensures { IfOk result (λ numbers. numbers.items ≡ map (λ end. end.0) self.now) }
    {
        numbers_of(alloc, &self.items)
    }

    /// The ends as a list.
    pub fn into_vec(self) -> Vec<(u32, Replies)>
        ensures { result.items ≡ self }
    {
        self.items
    }
}

/// The numbers of these ends, in their order. An error is want of memory alone.
fn numbers_of(alloc: Global, ends: &[(u32, Replies)]) -> Result<Vec<u32>, AllocError>
    ensures { IfOk result (λ numbers. numbers.items ≡ map (λ end. end.0) ends.now) }
{
    let mut numbers = Vec::with_capacity(alloc, ends.len())?;
    for end in ends {
        numbers.push(end.0)?;
    }
    Ok(numbers)
}
