//! Numbers that stand for gates, so that a pass can be told to be of a door that is found again later.
ghost use Rattle.std.specs.Prelude.{◌≡◌, IfOk, OnErr};

use crate::numbering::{Compare, Copy, Draw, Pair, Rule, Sit, View};
use atomic_table::{Seat, Table};
use std::alloc::{AllocError, Global};
use std::marker::Model;
use std::sync::Arc;
use zs_gate::Keeper;

type Board = Arc<Table<Keeper, View, (), Rule, Global>, Global>;

/// Which room it is, for whoever keeps what belongs to one, as a lock's key does. Contracts see the room.
#[derive(Drop)]
pub struct Room {
    board: Board,
}

impl Model for Room {
    ghost use Rattle.std.specs.Prelude.{◌≡◌};
    ghost use Rattle.std.specs.Arc.{arc_value};
    ghost use Rattle.atomic_table.specs.Seated.{TableId, table_id_coded};

    ghost Value = { TableId };

    ghost coded = { table_id_coded };

    ghost view = { λ r. (arc_value r.board).shared.table_id };

    ghost invariant = { λ r. (arc_value r.board).shared.table_id.words ≡ 1 };
}

/// Draws numbers for gates, each once. Contracts see the room that it draws them in.
#[derive(Drop)]
pub struct Maker {
    board: Board,
}

impl Model for Maker {
    ghost use Rattle.std.specs.Prelude.{◌≡◌};
    ghost use Rattle.std.specs.Arc.{arc_value};
    ghost use Rattle.atomic_table.specs.Seated.{TableId, table_id_coded};

    ghost Value = { TableId };

    ghost coded = { table_id_coded };

    ghost view = { λ m. (arc_value m.board).shared.table_id };

    ghost invariant = { λ m. (arc_value m.board).shared.table_id.words ≡ 1 };
}

/// A number that was drawn for a gate. Contracts see its room, the number and the gate.
#[derive(Drop)]
pub struct Tag {
    board: Board,
    seat: Seat<Keeper, View>,
    number: u64,
}

impl Model for Tag {
    ghost use Rattle.std.specs.Prelude.{◌≡◌, []};
    ghost use Rattle.std.specs.Arc.{arc_value};
    ghost use Rattle.zs_posts.specs.declared.numbering.View.TheVariants.{Tag as IsTag};
    ghost use Rattle.zs_posts.specs.Numbering.{tagged_gate};
    ghost use Rattle.zs_posts.specs.Tags.{TagSeen};

    ghost Value = { TagSeen };

    ghost view = { λ t. record { room = t.seat.table_id; number = t.number; gate = tagged_gate t.seat.me.0 } };

    ghost invariant = { λ t. (t.seat.table_id ≡ (arc_value t.board).shared.table_id) × (t.seat.table_id.words ≡ 1) × (t.seat.me.0 ≡ IsTag t.number (tagged_gate t.seat.me.0)) × (t.seat.me.1 ≡ []) };
}

impl Maker {
    /// A room of its own, in which no number was drawn.
    pub fn open(alloc: Global) -> Result<Maker, AllocError> {
        let (table, _) = Table::of_words(alloc, &[0], &())?;
        let board = Arc::new(alloc, table)?;
        Ok(Maker { board })
    }

    /// Which room it is.
    ///
    /// # Errors
    ///
    /// Want of memory alone.
    pub fn room(&self) -> Result<Room, AllocError>
        ensures { IfOk result (λ room. room ≡ self.now) }
    {
        let board = Arc::try_clone(&self.board)?;
        Ok(Room { board })
    }

    /// Draws a number for a gate.
    ///
    /// # Errors
    ///
    /// Want of memory, which also stands for the end of the numbers, behind 2^64 - 1 of them.
    pub fn make(&self, keeper: &Keeper) -> Result<Tag, AllocError>
        ensures { IfOk result (λ tag. (tag.room ≡ self.now) × (tag.gate ≡ keeper.now)) }
    {
        let board = Arc::try_clone(&self.board)?;
        let (number, mut seat) = self.board.shared.load_new_seat::<Sit>(0);
        if number == u64::MAX {
            return Err(AllocError);
        }
        let shared = &self.board.shared;
        let found = shared.compare_exchange_with::<Draw>(&mut seat, 0, number, number + 1, keeper);
        if found != number {
            return Err(AllocError);
        }
        Ok(Tag {
            board,
            seat,
            number,
        })
    }
}

impl Tag {
    /// The number. In one room no two gates have one number.
    pub fn number(&self) -> u64
        ensures { result ≡ self.now.number }
    {
        self.number
    }

    /// The same tag once more.
    ///
    /// # Errors
    ///
    /// Want of memory alone.
    pub fn again(&mut self) -> Result<Tag, AllocError>
        ensures same { self.new ≡ self.old }
        ensures ok { IfOk result (λ tag. tag ≡ self.old) }
    {
        let board = Arc::try_clone(&self.board)?;
        let seat = self.board.shared.split_seat::<Copy>(&mut self.seat);
        Ok(Tag {
            board,
            seat,
            number: self.number,
        })
    }

    /// Two tags of one room and one number are of one gate.
    pub fn agrees(&mut self, other: Tag)
        requires room { other.room ≡ self.old.room }
        requires number { other.number ≡ self.old.number }
        ensures same { self.new ≡ self.old }
        ensures gate { other.gate ≡ self.old.gate }
    {
        let Tag {
            board: _,
            seat,
            number: _,
        } = other;
        self.board.shared.join_seat::<Pair>(&mut self.seat, seat);
        self.board.shared.load::<Compare>(&mut self.seat, 0);
    }
}
