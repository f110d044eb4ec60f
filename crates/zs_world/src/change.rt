//! What an accepted event changes, part by part.

ghost use Rattle.std.specs.Prelude.{◌≡◌, [], Some, None};
ghost use Rattle.zs_world.specs.Decisions.{decision_of};

use std::alloc::Global;
use zs_entity_tables::Met;
use zs_events::{BackgroundKind, Effects, EntityKind, Refusal, Turn};
use zs_keys::KeyExpr;
use zs_model::{PubRow, QuerierRow};
use zs_query::{GetRow, RequestRow};
use zs_sample::Reply;
use zs_tables::{
    ListenerRow, LivelinessGet, LivelinessSub, QueryableRow, RemoteQueryable, RemoteSubscriber,
    RemoteToken, SubRow,
};

/// What an accepted event makes of the keys that the session declared.
#[derive(Drop)]
pub enum KeyChange {
    /// A key that isn't held is declared: it draws a number.
    Declare { number: u16, key: KeyExpr<'static> },
    /// A held key is declared once more.
    Hold { number: u16 },
    /// A held key is given back once.
    Release { number: u16 },
}

/// What the application declares and can undeclare, as its table keeps it.
#[derive(Drop)]
pub enum EntityRow {
    Sub(SubRow),
    Pub(PubRow),
    Queryable(QueryableRow),
    Querier(QuerierRow),
    Listener(ListenerRow),
    /// A liveliness token, by its number.
    Token(u32),
    /// A subscriber to liveliness.
    Lsub(LivelinessSub),
}

/// What an accepted event makes of what the application declared and can undeclare.
#[derive(Drop)]
pub enum EntityChange {
    /// One is declared: it draws a number.
    Add(EntityRow),
    /// One ends. A querier's gets end with it, and the listeners to a publisher or a querier.
    End { kind: EntityKind, id: u32 },
    /// One is left to itself.
    Leave { kind: BackgroundKind, id: u32 },
}

/// What an accepted event makes of what the network told.
#[derive(Drop)]
pub enum NetworkChange {
    /// A number stands for a key from now on.
    TellKey { number: u16, key: KeyExpr<'static> },
}

/// What an accepted event makes of the tokens that the network tells, and of the gets of them.
#[derive(Drop)]
pub enum LivelinessChange {
    /// The tokens that live are asked for: that draws a number.
    AskTokens { row: LivelinessGet },
    /// A get of tokens has had all, and ends.
    EndAsking { number: u32 },
    /// The network told a token.
    RecordToken { token: RemoteToken },
    /// The network ended a token.
    ForgetToken { number: u32 },
}

/// What an accepted event makes of the gets.
#[derive(Drop)]
pub enum GetChange {
    /// A get is asked: it draws a number.
    Ask { row: GetRow },
    /// A reply reached a get.
    Take { number: u32, reply: Reply },
    /// The network has no more replies to a get.
    Final { number: u32 },
    /// A moment has come.
    Advance { moment: u64 },
}

/// What an accepted event makes of the query values.
#[derive(Drop)]
pub enum ValueChange {
    /// A request from the network is handed to these queryables, if there are any: each draws a value.
    HandOut {
        row: RequestRow,
        met: Met,
    },
    /// A get is asked, and its request is handed to these queryables.
    AskHere {
        get: GetRow,
        row: RequestRow,
        met: Met,
    },
    /// A value is drawn for the query of this one.
    ShareOf {
        value: u32,
    },
    /// A value is given back. The last one of a get's request gives the get this session's final.
    GiveBack {
        value: u32,
    },
}

/// What an accepted event makes of the cancellation tokens.
#[derive(Drop)]
pub enum CancellationChange {
    /// A cancellation token is made: it draws a number.
    Draw,
    /// A cancellation token is taken, and its gets end.
    Take { cancellation_token: u32 },
}

/// What an accepted event makes of those whom the network tells and a listener can match.
#[derive(Drop)]
pub enum MatchingChange {
    /// The network tells a subscriber, in place of one of its number.
    TellSub { row: RemoteSubscriber },
    /// The network ends a subscriber.
    ForgetSub { number: u32 },
    /// The network tells a queryable, in place of one of its number.
    TellQueryable { row: RemoteQueryable },
    /// The network ends a queryable.
    ForgetQueryable { number: u32 },
}

/// What an accepted event changes, with the copies that it needs. It names one area, but for
/// the close, and for what ends gets or asks one beside: query values, queriers and cancellation tokens.
#[derive(Drop)]
pub enum Change {
    Nothing,
    OfKeys(KeyChange),
    OfEntities(EntityChange),
    OfNetwork(NetworkChange),
    OfGets(GetChange),
    OfLiveliness(LivelinessChange),
    OfValues(ValueChange),
    OfCancellation(CancellationChange),
    OfMatching(MatchingChange),
    /// The session is closed.
    Shut,
}

/// What a session makes of an event: its turn, and what it changes. A plan of the session makes it.
#[derive(Drop)]
pub struct Decision {
    pub turn: Turn,
    pub change: Change,
}

impl Decision {
    /// An event that is refused, and why: it changes nothing and has no effects.
    pub fn refused(alloc: Global, refusal: Refusal) -> Decision
        ensures { result ≡ decision_of (Some refusal) None [] Change.Nothing }
    {
        Decision {
            turn: Turn::refused(alloc, refusal),
            change: Change::Nothing,
        }
    }

    /// An accepted event that brings nothing about but its number.
    pub fn quiet(alloc: Global, number: Option<u32>, change: Change) -> Decision
        ensures { result ≡ decision_of None number [] change }
    {
        Decision {
            turn: Turn::quiet(alloc, number),
            change,
        }
    }

    /// An accepted event that draws no number.
    pub fn of(effects: Effects, change: Change) -> Decision
        ensures { result ≡ decision_of None None effects change }
    {
        Decision {
            turn: Turn::of(effects),
            change,
        }
    }

    /// An accepted event with all that it may bring about: a number where it draws one, effects and a change.
    pub fn accepted(number: Option<u32>, effects: Effects, change: Change) -> Decision
        ensures { result ≡ decision_of None number effects change }
    {
        Decision {
            turn: Turn::accepted(number, effects),
            change,
        }
    }

    /// The turn.
    pub fn turn(&self) -> &Turn
        ensures { result.now ≡ self.now.turn }
    {
        &self.turn
    }

    /// The turn, and the change that `SessionTables::apply` makes.
    pub fn into_parts(self) -> (Turn, Change)
        ensures turn { result.0 ≡ self.turn }
        ensures change { result.1 ≡ self.change }
    {
        (self.turn, self.change)
    }
}
