//! A pass of a gate, outside and inside.
ghost use Rattle.std.specs.Prelude.{◌≡◌, true, false, IfOk, IfErr};

use crate::post::Post;
use std::marker::Model;

/// A pass of a gate that is outside. Its door counts it until it is taken back.
/// Contracts see its gate, and the note whether its last step found the gate's mark.
#[derive(Drop)]
pub struct Pass {
    pub(crate) post: Post,
}

impl Model for Pass {
    ghost use Rattle.std.specs.Prelude.{◌≡◌};
    ghost use Rattle.zs_gate.specs.declared.view.View.TheVariants.{Out};
    ghost use Rattle.zs_gate.specs.Views.{noted_of};
    ghost use Rattle.zs_gate.specs.Places.{PassSeen};

    ghost Value = { PassSeen };

    ghost view = { λ p. record { gate = p.post.gate; noted = noted_of p.post.knows } };

    ghost invariant = { λ p. p.post.knows ≡ Out (noted_of p.post.knows) };
}

/// A pass that is inside: while it lasts, no `Drained` of its gate is there. Contracts see its gate.
///
/// One that is dropped stays counted, so its gate is never drained.
#[derive(Drop)]
pub struct Inside {
    pub(crate) post: Post,
}

impl Model for Inside {
    ghost use Rattle.std.specs.Prelude.{◌≡◌};
    ghost use Rattle.atomic_table.specs.Seated.{TableId, table_id_coded};
    ghost use Rattle.zs_gate.specs.declared.view.View.TheVariants.{Inside as IsIn};

    ghost Value = { TableId };

    ghost coded = { table_id_coded };

    ghost view = { λ i. i.post.gate };

    ghost invariant = { λ i. i.post.knows ≡ IsIn };
}

impl Pass {
    /// Steps inside. The pass comes back only where this call's own step found the mark, so only after the keeper drained the gate.
    pub fn enter(self) -> Result<Inside, Pass>
        ensures ok { IfOk result (λ inside. inside ≡ self.gate) }
        ensures err { IfErr result (λ pass. pass ≡ record { gate = self.gate; noted = true }) }
    {
        let Pass { mut post } = self;
        if post.enter() {
            return Ok(Inside { post });
        }
        post.retreat();
        Err(Pass { post })
    }
}

impl Inside {
    /// Steps outside, and wakes the keeper that waits for the last one to leave.
    pub fn leave(self) -> Pass
        ensures { result ≡ record { gate = self; noted = false } }
    {
        let Inside { mut post } = self;
        post.leave();
        Pass { post }
    }
}
