//! The steps of a gate's word, each taken from a seat that knows what the step needs.
//!
//! One seat at a gate's table, with the table. Each method is one step of the gate, or one cut or union of seats.
ghost use Rattle.std.specs.Prelude.{◌≡◌, ◌≢◌, ℕ, ◌^◌, ◌<◌, [], Bool, true, false, IfOk, OnErr, MatchBool};
ghost use Rattle.std.specs.Arc.{arc_value};
ghost use Rattle.atomic_table.specs.Seated.{TableId, table_id_coded};
ghost use Rattle.zs_gate.specs.declared.view.View.TheVariants.{Keeper, Door, Out, Inside, Knock};
ghost use Rattle.zs_gate.specs.declared.view.Phase.TheVariants.{Open, Draining, Drained};
ghost use Rattle.zs_gate.specs.Views.{number};
ghost use Rattle.zs_gate.specs.Plays.{keeper_after_mark, keeper_after_look, one_more, one_less};
ghost use Rattle.zs_gate.specs.Places.{Place};

use crate::view::{
    Check, Clash, Drain, Enter, GiveDoor, GivePass, Leave, Look, LookAlone, Retreat, Rule,
    TakeDoor, TakePass, View,
};
use atomic_table::{Seat, Table};
use std::alloc::{AllocError, Global};
use std::marker::Model;
use std::sync::{Arc, Wait};

// The word with the mark and one pass.
const LAST: u64 = 3;

// What a sleep compares.
pub const LOW_HALF: u64 = 0xffff_ffff;

type Board = Arc<Table<(), View, (), Rule, Global>, Global>;

// To a contract it is its gate and what it knows.
#[derive(Drop)]
pub struct Post {
    board: Board,
    seat: Seat<(), View>,
}

impl Model for Post {
    ghost Value = { Place };

    ghost view = { λ p. record { gate = p.seat.table_id; knows = p.seat.me.0 } };

    ghost invariant = { λ p. (p.seat.table_id ≡ (arc_value p.board).shared.table_id) × (p.seat.table_id.words ≡ 1) × (p.seat.me.1 ≡ []) };
}

impl Post {
    // The first seat of a new gate: a keeper that has the door.
    pub fn open(alloc: Global) -> Result<Post, AllocError>
        ensures { IfOk result (λ p. p.knows ≡ Keeper true Open) }
    {
        let (table, seat) = Table::of_words(alloc, &[0], &())?;
        let board = Arc::new(alloc, table)?;
        Ok(Post { board, seat })
    }

    // The door's seat, which the keeper gives out.
    pub fn give_door(&mut self) -> Result<Post, AllocError>
        requires { self.old.knows ≡ Keeper true Open }
        ensures { IfOk result (λ p. (p ≡ record { gate = self.old.gate; knows = Door 0 }) × (self.new ≡ record { gate = self.old.gate; knows = Keeper false Open })) }
    {
        let board = Arc::try_clone(&self.board)?;
        let seat = self.board.shared.split_seat::<GiveDoor>(&mut self.seat);
        Ok(Post { board, seat })
    }

    // A pass, which the door gives out.
    pub fn give_pass(&mut self) -> Result<Post, AllocError>
        requires { (out : ℕ) × (self.old.knows ≡ Door out) × (out < 4294967295) }
        ensures ok { IfOk result (λ p. (p ≡ record { gate = self.old.gate; knows = Out false }) × (self.new ≡ record { gate = self.old.gate; knows = one_more self.old.knows })) }
        ensures err { OnErr result (self.new ≡ self.old) }
    {
        let board = Arc::try_clone(&self.board)?;
        let seat = self.board.shared.split_seat::<GivePass>(&mut self.seat);
        Ok(Post { board, seat })
    }

    // The door takes a pass in. The second look shows that it had one out.
    pub fn take_pass(&mut self, pass: Post)
        requires door { (out : ℕ) × (self.old.knows ≡ Door out) }
        requires pass { (noted : Bool) × (pass ≡ record { gate = self.old.gate; knows = Out noted }) }
        ensures { (self.new ≡ record { gate = self.old.gate; knows = one_less self.old.knows pass.knows }) × (number self.new.knows < 2 ^ 32) }
    {
        let Post { board: _, seat } = pass;
        self.board
            .shared
            .join_seat::<TakePass>(&mut self.seat, seat);
        self.board.shared.load::<Check>(&mut self.seat, 0);
    }

    // The keeper takes the door in, of which no pass is out.
    pub fn take_door(&mut self, door: Post)
        requires keeper { self.old.knows ≡ Keeper false Open }
        requires door { door ≡ record { gate = self.old.gate; knows = Door 0 } }
        ensures { self.new ≡ record { gate = self.old.gate; knows = Keeper true Open } }
    {
        let Post { board: _, seat } = door;
        self.board
            .shared
            .join_seat::<TakeDoor>(&mut self.seat, seat);
    }

    // A pass steps in, and says whether it is inside.
    pub fn enter(&mut self) -> bool
        requires { (noted : Bool) × (self.old.knows ≡ Out noted) }
        ensures gate { self.new.gate ≡ self.old.gate }
        ensures knows { MatchBool result (self.new.knows ≡ Inside) (self.new.knows ≡ Knock) }
    {
        self.board.shared.fetch_add::<Enter>(&mut self.seat, 0, 2) % 2 == 0
    }
    // A pass that found the mark steps back.
    pub fn retreat(&mut self)
        requires { self.old.knows ≡ Knock }
        ensures { self.new ≡ record { gate = self.old.gate; knows = Out true } }
    {
        let found = self.board.shared.fetch_sub::<Retreat>(&mut self.seat, 0, 2);
        self.wake_if_last(found);
    }

    // A pass that is inside leaves.
    pub fn leave(&mut self)
        requires { self.old.knows ≡ Inside }
        ensures { self.new ≡ record { gate = self.old.gate; knows = Out false } }
    {
        let found = self.board.shared.fetch_sub::<Leave>(&mut self.seat, 0, 2);
        self.wake_if_last(found);
    }

    // Wakes the keeper, which may sleep, where the word went from one pass with the mark to the mark alone.
    fn wake_if_last(&self, found: u64) {
        if found == LAST {
            self.board.shared.wake_all(0);
        }
    }

    // The keeper sets the mark.
    pub fn mark(&mut self)
        requires { (has_door : Bool) × (self.old.knows ≡ Keeper has_door Open) }
        ensures { self.new ≡ record { gate = self.old.gate; knows = keeper_after_mark self.old.knows } }
    {
        self.board.shared.fetch_or::<Drain>(&mut self.seat, 0, 1);
    }

    // The keeper looks how many are inside or knock.
    pub fn look(&mut self) -> u64
        requires { (looks : ℕ) × (count : ℕ) × (self.old.knows ≡ Keeper false (Draining looks count)) }
        ensures gate { self.new.gate ≡ self.old.gate }
        ensures count { result < 2 ^ 33 }
        ensures none { result ≡ 0 → self.new.knows ≡ Keeper false Drained }
        ensures some { result ≢ 0 → self.new.knows ≡ keeper_after_look self.old.knows result }
    {
        self.board.shared.load::<Look>(&mut self.seat, 0) / 2
    }

    // A keeper that has the door finds no one.
    pub fn look_alone(&mut self)
        requires { (looks : ℕ) × (count : ℕ) × (self.old.knows ≡ Keeper true (Draining looks count)) }
        ensures { self.new ≡ record { gate = self.old.gate; knows = Keeper true Drained } }
    {
        self.board.shared.load::<LookAlone>(&mut self.seat, 0);
    }

    // Sleeps while as many as `count` are inside or knock, beside the mark. It may also return for no reason.
    pub fn park<R: Wait>(&self, rt: &R, count: u64)
        requires { count < 2 ^ 33 }
    {
        let word = 2 * count + 1;
        self.board.shared.park(rt, 0, (word & LOW_HALF) as u32);
    }

    // A drained keeper never meets a pass that is inside.
    pub fn clash(mut self, inside: Post)
        requires keeper { (has_door : Bool) × (self.knows ≡ Keeper has_door Drained) }
        requires inside { inside ≡ record { gate = self.gate; knows = Inside } }
        ensures { ⊥ }
    {
        let Post { board: _, seat } = inside;
        self.board.shared.join_seat::<Clash>(&mut self.seat, seat);
        self.board.shared.load::<Check>(&mut self.seat, 0);
    }

    // An open keeper never meets a pass that found the mark.
    pub fn clash_late(&mut self, late: Post)
        requires keeper { self.old.knows ≡ Keeper false Open }
        requires late { late ≡ record { gate = self.old.gate; knows = Out true } }
        ensures { ⊥ }
    {
        let Post { board: _, seat } = late;
        self.board.shared.join_seat::<Clash>(&mut self.seat, seat);
        self.board.shared.load::<Check>(&mut self.seat, 0);
    }

    // A sight of the gate's word.
    pub fn sight(&self) -> Result<Sight, AllocError>
        ensures { IfOk result (λ sight. sight ≡ self.now.gate) }
    {
        let board = Arc::try_clone(&self.board)?;
        Ok(Sight { board })
    }
}

// The word of a gate, for whoever has no seat. To a contract it is the gate.
#[derive(Drop)]
pub struct Sight {
    board: Board,
}

impl Model for Sight {
    ghost Value = { TableId };

    ghost coded = { table_id_coded };

    ghost view = { λ s. (arc_value s.board).shared.table_id };

    ghost invariant = { λ s. (arc_value s.board).shared.table_id.words ≡ 1 };
}

impl Sight {
    // Whether the word has the mark now. It is never taken away.
    pub fn is_marked(&self) -> bool {
        self.board.shared.peek(0) % 2 == 1
    }
}
