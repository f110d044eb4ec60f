//! The keeper of a gate, which drains it.
ghost use Rattle.std.specs.Prelude.{◌≡◌, true, ◌+◌, ◌<◌, ◌≤◌, IfOk, IfErr};

use crate::gate::Door;
use crate::pass::{Inside, Pass};
use crate::post::{Post, Sight};
use std::alloc::AllocError;
use std::marker::Model;
use std::sync::Wait;

/// The keeper of a gate that isn't marked. Contracts see its gate.
#[derive(Drop)]
pub struct Keeper {
    pub(crate) post: Post,
}

impl Model for Keeper {
    ghost use Rattle.std.specs.Prelude.{◌≡◌, false};
    ghost use Rattle.atomic_table.specs.Seated.{TableId, table_id_coded};
    ghost use Rattle.zs_gate.specs.declared.view.View.TheVariants.{Keeper as IsKeeper};
    ghost use Rattle.zs_gate.specs.declared.view.Phase.TheVariants.{Open};

    ghost Value = { TableId };

    ghost coded = { table_id_coded };

    ghost view = { λ k. k.post.gate };

    ghost invariant = { λ k. k.post.knows ≡ IsKeeper false Open };
}

/// The keeper of a gate that it has marked. Contracts see its gate, how often it looked, and how many the last look counted.
#[derive(Drop)]
pub struct Draining {
    post: Post,
}

impl Model for Draining {
    ghost use Rattle.std.specs.Prelude.{◌≡◌, false};
    ghost use Rattle.zs_gate.specs.declared.view.View.TheVariants.{Keeper as IsKeeper};
    ghost use Rattle.zs_gate.specs.declared.view.Phase.TheVariants.{Draining as IsDraining};
    ghost use Rattle.zs_gate.specs.Views.{looks_of, count_of};
    ghost use Rattle.zs_gate.specs.Places.{DrainingSeen};

    ghost Value = { DrainingSeen };

    ghost view = { λ d. record { gate = d.post.gate; looks = looks_of d.post.knows; count = count_of d.post.knows } };

    ghost invariant = { λ d. d.post.knows ≡ IsKeeper false (IsDraining (looks_of d.post.knows) (count_of d.post.knows)) };
}

/// Shows that a gate is marked and that no one is inside, now and for ever. Contracts see its gate.
#[derive(Drop)]
pub struct Drained {
    post: Post,
}

impl Model for Drained {
    ghost use Rattle.std.specs.Prelude.{◌≡◌};
    ghost use Rattle.atomic_table.specs.Seated.{TableId, table_id_coded};
    ghost use Rattle.zs_gate.specs.declared.view.View.TheVariants.{Keeper as IsKeeper};
    ghost use Rattle.zs_gate.specs.declared.view.Phase.TheVariants.{Drained as IsDrained};
    ghost use Rattle.zs_gate.specs.Views.{has_door_of};

    ghost Value = { TableId };

    ghost coded = { table_id_coded };

    ghost view = { λ d. d.post.gate };

    ghost invariant = { λ d. d.post.knows ≡ IsKeeper (has_door_of d.post.knows) IsDrained };
}

impl Keeper {
    /// Marks the gate, for ever: a pass that enters from now on comes back.
    pub fn drain(self) -> Draining
        ensures { result ≡ record { gate = self; looks = 0; count = 0 } }
    {
        let Keeper { mut post } = self;
        post.mark();
        Draining { post }
    }

    /// A pass that found the mark and a keeper that hasn't drained the gate never stand together: no one can call this.
    pub fn excludes(&mut self, late: Pass)
        requires { late ≡ record { gate = self.old; noted = true } }
        ensures { ⊥ }
    {
        let Pass { post: late } = late;
        self.post.clash_late(late);
    }

    // A sight of the gate's mark, for whoever has no seat.
    pub(crate) fn sight(&self) -> Result<Sight, AllocError>
        ensures { IfOk result (λ sight. sight ≡ self.now) }
    {
        self.post.sight()
    }

    /// Ends a gate of which no pass is out. Where one is, keeper and door come back as they were.
    pub fn shut(self, door: Door) -> Result<Drained, (Keeper, Door)>
        requires { door.gate ≡ self }
        ensures ok { IfOk result (λ drained. (drained ≡ self) × (door.out ≡ 0)) }
        ensures err { IfErr result (λ back. (back.0 ≡ self) × (back.1 ≡ door) × (0 < door.out)) }
    {
        if door.out > 0 {
            return Err((self, door));
        }
        let Keeper { post: mut keeper } = self;
        let Door { post, out: _ } = door;
        keeper.take_door(post);
        keeper.mark();
        keeper.look_alone();
        Ok(Drained { post: keeper })
    }
}

impl Draining {
    /// Looks once. It is still draining only where this look counted someone.
    pub fn look(self) -> Result<Drained, Draining>
        ensures ok { IfOk result (λ drained. drained ≡ self.gate) }
        ensures err { IfErr result (λ draining. (draining.gate ≡ self.gate) × (draining.looks ≡ self.looks + 1) × (1 ≤ draining.count)) }
    {
        let Draining { mut post } = self;
        if post.look() == 0 {
            return Ok(Drained { post });
        }
        Err(Draining { post })
    }

    /// Looks until no one is inside, and sleeps in between. It never returns to whoever is inside of the gate itself.
    pub fn wait<R: Wait>(self, rt: &R) -> Drained
        ensures { result ≡ self.gate }
    {
        let Draining { mut post } = self;
        for _ in rt.forever() {
            let count = post.look();
            if count == 0 {
                return Drained { post };
            }
            post.park(rt, count);
        }
        unreachable!()
    }
}

impl Drained {
    /// A `Drained` and an `Inside` of one gate never stand together: no one can call this.
    pub fn excludes(self, inside: Inside)
        requires { inside ≡ self }
        ensures { ⊥ }
    {
        let Drained { post } = self;
        let Inside { post: inside } = inside;
        post.clash(inside);
    }
}
