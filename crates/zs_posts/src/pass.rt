//! Passes that posts lend, outside and inside.
ghost use Rattle.std.specs.Prelude.{◌≡◌, true, false, IfOk, IfErr};
ghost use Rattle.zs_posts.specs.Passes.{LentSeen};

use crate::key::Key;
use crate::tag::Tag;
use std::marker::Model;
use zs_gate::{Inside, Pass};

/// A pass of a post's gate, outside, with the tag by which its post takes it back.
#[derive(Drop)]
pub struct Lent {
    pub(crate) key: Key,
    pub(crate) pass: Pass,
    pub(crate) tag: Tag,
}

impl Model for Lent {
    ghost use Rattle.std.specs.Prelude.{◌≡◌};
    ghost use Rattle.zs_posts.specs.Passes.{LentSeen};

    ghost Value = { LentSeen };

    ghost view = { λ l. record { key = l.key; gate = l.pass.gate; room = l.tag.room; number = l.tag.number; noted = l.pass.noted } };

    ghost invariant = { λ l. l.tag.gate ≡ l.pass.gate };
}

/// A pass that is inside of its gate. It must leave: a program that lets it go doesn't compile.
pub struct Within {
    key: Key,
    inside: Inside,
    tag: Tag,
}

impl Model for Within {
    ghost use Rattle.std.specs.Prelude.{◌≡◌, false};
    ghost use Rattle.zs_posts.specs.Passes.{LentSeen};

    ghost Value = { LentSeen };

    ghost view = { λ w. record { key = w.key; gate = w.inside; room = w.tag.room; number = w.tag.number; noted = false } };

    ghost invariant = { λ w. w.tag.gate ≡ w.inside };
}

impl Lent {
    /// The key that it was asked for under.
    pub fn key(&self) -> Key
        ensures { result ≡ self.now.key }
    {
        self.key
    }

    /// Steps inside. The pass comes back only where this call's own step found the gate's mark.
    pub fn enter(self) -> Result<Within, Lent>
        ensures ok { IfOk result (λ within. within ≡ record self { noted = false }) }
        ensures err { IfErr result (λ lent. lent ≡ record self { noted = true }) }
    {
        let Lent { key, pass, tag } = self;
        match pass.enter() {
            Ok(inside) => Ok(Within { key, inside, tag }),
            Err(pass) => Err(Lent { key, pass, tag }),
        }
    }
}

impl Within {
    /// What shows that the pass is inside.
    pub fn inside(&self) -> &Inside
        ensures { result.now ≡ self.now.gate }
    {
        &self.inside
    }

    /// The number of its tag. In one room no two gates have one number.
    pub fn number(&self) -> u64
        ensures { result ≡ self.now.number }
    {
        self.tag.number()
    }

    /// Steps outside.
    pub fn leave(self) -> Lent
        ensures { result ≡ self }
    {
        let Within { key, inside, tag } = self;
        let pass = inside.leave();
        Lent { key, pass, tag }
    }
}
