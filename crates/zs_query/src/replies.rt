//! Replies that are handed out together, at the end of a get.
ghost use Rattle.std.specs.Prelude.{◌≡◌, ◌==◌, length, slice_get};
ghost use Rattle.std.specs.Option.{option_copied};

use std::marker::Model;
use zs_sample::Reply;

/// Replies in the order in which they are to be handed out.
#[derive(Debug, Drop)]
pub struct Replies {
    items: Vec<Reply>,
}

impl Model for Replies {
    ghost use Rattle.std.specs.Prelude.{List};
    ghost use Rattle.zs_sample.specs.Reply.{Replied};

    ghost Value = { List Replied };

    ghost view = { λ r. r.items.items };
}

impl Replies {
    /// These replies.
    pub(crate) fn of(items: Vec<Reply>) -> Replies
        ensures { result ≡ items.items }
    {
        Replies { items }
    }

    /// How many there are.
    pub fn len(&self) -> usize
        ensures { result ≡ length self.now }
    {
        self.items.len()
    }

    /// Whether there is none.
    pub fn is_empty(&self) -> bool
        ensures { result ≡ (length self.now == 0) }
    {
        self.items.is_empty()
    }

    /// The reply at that place, if there is one.
    pub fn get(&self, index: usize) -> Option<&Reply>
        ensures { option_copied result ≡ slice_get self.now index }
    {
        self.items.get(index)
    }

    /// The replies as a list.
    pub fn into_vec(self) -> Vec<Reply>
        ensures { result.items ≡ self }
    {
        self.items
    }
}
