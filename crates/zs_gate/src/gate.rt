//! A gate, and its door.
ghost use Rattle.std.specs.Prelude.{◌≡◌, ◌+◌, ◌↔◌, false, IfOk, OnErr};

use crate::keeper::Keeper;
use crate::pass::Pass;
use crate::post::Post;
use std::alloc::{AllocError, Global};
use std::error::Error;
use std::fmt;
use std::marker::Model;

/// A gate has a door, which gives passes out, and a keeper, which can drain it: from then on no pass enters,
/// and once each that was inside has left, none ever is again. So whoever ends a callback knows that it no longer runs.
pub struct Gate;

/// Gives the passes of a gate out and takes them back. Contracts see its gate, and how many passes are out.
#[derive(Drop)]
pub struct Door {
    pub(crate) post: Post,
    pub(crate) out: u32,
}

impl Model for Door {
    ghost use Rattle.std.specs.Prelude.{◌≡◌};
    ghost use Rattle.zs_gate.specs.declared.view.View.TheVariants.{Door as IsDoor};
    ghost use Rattle.zs_gate.specs.Places.{DoorSeen};

    ghost Value = { DoorSeen };

    ghost view = { λ d. record { gate = d.post.gate; out = d.out } };

    ghost invariant = { λ d. d.post.knows ≡ IsDoor d.out };
}

/// Why a door gave no pass.
#[derive(Clone, Copy, Debug, PartialEq, Eq)]
pub enum NoPass {
    /// 4294967295 passes are out.
    Full,
    /// There was no memory.
    NoMemory,
}

impl fmt::Display for NoPass {
    /// Writes in words why there was no pass.
    fn fmt<W: fmt::Write>(&self, f: &mut fmt::Formatter<W>) -> fmt::Result {
        f.write_str(match self {
            NoPass::Full => "all passes of the gate are out",
            NoPass::NoMemory => "out of memory",
        })
    }
}

impl Error for NoPass {}

impl From<AllocError> for NoPass {
    ghost use Rattle.std.specs.Prelude.{◌≡◌};
    ghost use Rattle.zs_gate.specs.declared.gate.NoPass.TheVariants.{NoMemory};

    ghost from_gives = { λ _ why. why ≡ NoMemory };

    /// An allocation that failed gives no pass for want of memory.
    fn from(_error: AllocError) -> NoPass {
        NoPass::NoMemory
    }
}

impl Gate {
    /// Opens a gate without the mark, of which no pass is out.
    pub fn open(alloc: Global) -> Result<(Door, Keeper), AllocError>
        ensures { IfOk result (λ opened. opened.0 ≡ record { gate = opened.1; out = 0 }) }
    {
        let mut keeper = Post::open(alloc)?;
        let door = keeper.give_door()?;
        Ok((Door { post: door, out: 0 }, Keeper { post: keeper }))
    }
}

impl Door {
    /// One pass more. At `Err` nothing has changed.
    pub fn pass(&mut self) -> Result<Pass, NoPass>
        ensures ok { IfOk result (λ pass. (pass ≡ record { gate = self.old.gate; noted = false }) × (self.new ≡ record { gate = self.old.gate; out = self.old.out + 1 })) }
        ensures full { (result ≡ Err NoPass.Full) ↔ (self.old.out ≡ 4294967295) }
        ensures err { OnErr result (self.new ≡ self.old) }
    {
        if self.out == u32::MAX {
            return Err(NoPass::Full);
        }
        let post = self.post.give_pass()?;
        self.out += 1;
        Ok(Pass { post })
    }

    /// Ends a pass of this door, which is then out no more.
    pub fn take_back(&mut self, pass: Pass)
        requires { pass.gate ≡ self.old.gate }
        ensures { (self.new.gate ≡ self.old.gate) × (self.new.out + 1 ≡ self.old.out) }
    {
        let Pass { post } = pass;
        self.post.take_pass(post);
        self.out -= 1;
    }
}
