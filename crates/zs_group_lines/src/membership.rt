//! What a side has of a group.

ghost use Rattle.std.specs.Prelude.{◌≡◌, IfOk, OnOk};
ghost use Rattle.zs_group_lines.specs.Tokens.{oldest};
ghost use Rattle.zs_group_lines.specs.Membership.{nobody, noted, hears, view_of};

use crate::hearing::hear_effects;
use crate::tokens::Tokens;
use std::alloc::{AllocError, Global};
use zs_events::{Effects, Event, Turn};
use zs_members::View;

/// The number of the liveliness subscriber that a side declares first: what it is handed is what the side hears of the other.
const HEARER: u32 = 2;

/// What a side has of a group: the tokens that it holds itself, and what it hears of the other's.
#[derive(Drop)]
pub struct Membership {
    tokens: Tokens,
    heard: View,
}

impl Membership {
    /// Nobody is there.
    pub fn new(alloc: Global) -> Membership
        ensures { result ≡ nobody }
    {
        Membership {
            tokens: Tokens::new(alloc),
            heard: View::new(alloc),
        }
    }

    /// What it is behind an event of the side's application, by its turn.
    ///
    /// # Errors
    ///
    /// Want of memory alone. Then it may have taken some of it.
    pub fn note(&mut self, event: &Event, turn: &Turn) -> Result<(), AllocError>
        ensures { OnOk result (self.new ≡ noted event.now turn.now self.old) }
    {
        self.tokens.note(event, turn.answer)?;
        hear_effects(&mut self.heard, HEARER, &turn.effects)
    }

    /// What it is behind a message of the other side, by the effects of its turn.
    ///
    /// # Errors
    ///
    /// Want of memory alone. Then it may have taken some of it.
    pub fn hear(&mut self, effects: &Effects) -> Result<(), AllocError>
        ensures { OnOk result (self.new ≡ hears effects.now self.old) }
    {
        hear_effects(&mut self.heard, HEARER, effects)
    }

    /// The number of the side's oldest token on a key, if it holds one.
    pub fn oldest(&self, key: &str) -> Option<u32>
        ensures { result ≡ oldest key.now self.now.tokens }
    {
        self.tokens.oldest(key)
    }

    /// Whom the side sees: the tokens that it holds and those that it hears of, by name.
    ///
    /// # Errors
    ///
    /// Want of memory alone, which also stands for a count that can't rise any more.
    pub fn view(&self) -> Result<View, AllocError>
        ensures { IfOk result (λ view. view ≡ view_of self.now) }
    {
        let mut view = self.heard.try_clone()?;
        match self.tokens.count_in(&mut view) {
            Ok(()) => Ok(view),
            Err(why) => {
                drop(view);
                Err(why)
            }
        }
    }
}
