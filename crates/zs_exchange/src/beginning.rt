//! What an event makes of the posts of a session, and how it is taken back.
ghost use Rattle.std.specs.Prelude.{◌≡◌, ◌≤◌, true, List, Option, map, option_map, IfOk, OnOk, OnErr};
ghost use Rattle.std.specs.Arc.{arc_value};
ghost use Rattle.std.specs.List.{AllByRecursion};
ghost use Rattle.std.specs.Vec.{vec_len, vec_capacity};
ghost use Rattle.zs_posts.specs.declared.call.Wanted.{Wanted as IsWanted};
ghost use Rattle.zs_posts.specs.Settled.{PostsSeen, IsSettled};
ghost use Rattle.zs_posts.specs.Calls.{call_seen, all_lents, turn_keys};
ghost use Rattle.zs_posts.specs.Lending.{is_overdrawn, returned_all};
ghost use Rattle.zs_posts.specs.Turns.{IsTurn};
ghost use Rattle.zs_turns.specs.Calls.{wanted_of};
ghost use Rattle.zs_exchange.specs.Begun.{Opens, IsFree, Begins, Overdraws, closed, ended_all};

use std::alloc::{AllocError, Global};
use std::sync::Arc;
use zs_events::Effect;
use zs_gate::NoPass;
use zs_hands::HandsRoom;
use zs_posts::{Call, Key, Name, Posts};
use zs_turns::{Item, wanted};

/// Opens a post under the name's key, if there is a name. At `Err` nothing has changed.
fn open<H: Drop>(
    posts: &mut Posts<H>,
    alloc: Global,
    name: Option<Name>,
    handler: &Option<Arc<H>>,
) -> Result<(), AllocError>
    ensures free { OnOk result (IsFree name posts.old) }
    ensures opens { OnOk result (Opens name (option_map arc_value handler.now) posts.old posts.new) }
    ensures closes { OnOk result (closed name posts.new ≡ posts.old) }
    ensures err { OnErr result (posts.new ≡ posts.old) }
{
    let Some(name) = name else {
        return Ok(());
    };
    match posts.open(alloc, name, handler) {
        Ok(()) => Ok(()),
        Err(_) => Err(AllocError),
    }
}

/// Lets that post go.
fn close<H: Drop>(posts: &mut Posts<H>, name: Option<Name>)
    ensures { posts.new ≡ closed name posts.old }
{
    let Some(name) = name else {
        return;
    };
    let post = posts.take_out(name.key);
    drop(post);
}

/// The calls of a turn, with room for what they tell.
#[derive(Drop)]
pub(crate) struct TurnCalls<H, D> {
    pub calls: Vec<Call<H, Item>>,
    pub room: HandsRoom<Item, D>,
    ghost wide: { (vec_len calls ≤ vec_capacity room.ran) × (vec_len calls ≤ vec_capacity room.reports) },
}

/// Lends the passes of the calls of a turn's effects. At `Err` nothing has changed.
fn lend<H: Drop, D: Drop>(
    posts: &mut Posts<H>,
    alloc: Global,
    tag: u64,
    effects: &[Effect],
) -> Result<TurnCalls<H, D>, NoPass>
    ensures turn { IfOk result (λ lent. IsTurn (wanted_of tag effects.now) posts.old (map call_seen lent.calls.items) posts.new) }
    ensures back { IfOk result (λ lent. returned_all (all_lents (map call_seen lent.calls.items)) posts.new.rows ≡ posts.old.rows) }
    ensures full { result ≡ Err NoPass.Full → is_overdrawn (turn_keys (wanted_of tag effects.now) posts.old.rows) posts.old.rows ≡ true }
    ensures err { OnErr result (posts.new ≡ posts.old) }
{
    let Ok(wanted) = wanted(alloc, tag, effects, posts) else {
        return Err(NoPass::NoMemory);
    };
    let Ok(room) = HandsRoom::new(alloc, wanted.len()) else {
        drop(wanted);
        return Err(NoPass::NoMemory);
    };
    match posts.lend_turn(alloc, wanted) {
        Ok(calls) => Ok(TurnCalls { calls, room }),
        Err(why) => {
            drop(room);
            Err(why)
        }
    }
}

/// Opens a post, if there is a name for it, and lends the passes of the calls of a turn's effects. At `Err` nothing has
/// changed.
pub(crate) fn begin<H: Drop, D: Drop>(
    posts: &mut Posts<H>,
    alloc: Global,
    name: Option<Name>,
    handler: &Option<Arc<H>>,
    tag: u64,
    effects: &[Effect],
) -> Result<TurnCalls<H, D>, NoPass>
    ensures ok { IfOk result (λ begun. Begins name (option_map arc_value handler.now) (wanted_of tag effects.now) posts.old (map call_seen begun.calls.items) posts.new) }
    ensures full { result ≡ Err NoPass.Full → Overdraws name (option_map arc_value handler.now) (wanted_of tag effects.now) posts.old }
    ensures err { OnErr result (posts.new ≡ posts.old) }
{
    let Ok(()) = open(posts, alloc, name, handler) else {
        return Err(NoPass::NoMemory);
    };
    posts.tell_settled();
    match lend(posts, alloc, tag, effects) {
        Ok(lent) => Ok(lent),
        Err(why) => {
            close(posts, name);
            Err(why)
        }
    }
}

/// Takes that back.
pub(crate) fn undo<H: Drop, T: Drop>(
    posts: &mut Posts<H>,
    name: Option<Name>,
    calls: Vec<Call<H, T>>,
)
    requires of_room { AllByRecursion (λ l. l.room ≡ posts.old.room) (all_lents (map call_seen calls.items)) }
    requires settled { IsSettled (returned_all (all_lents (map call_seen calls.items)) posts.old.rows) posts.old.ready }
    ensures { (handler : Option H) (wanted : List (IsWanted T)) (first : PostsSeen H) → Begins name handler wanted first (map call_seen calls.items) posts.old → posts.new ≡ first }
{
    posts.unlend_turn(calls);
    close(posts, name);
}

/// Ends the posts of the keys, one after another.
pub(crate) fn end_all<H>(posts: &mut Posts<H>, keys: Vec<Key>)
    ensures { posts.new ≡ ended_all keys.items posts.old }
{
    let mut left = keys.into_iter();
    while let Some(key) = left.next() {
        posts.end(key);
    }
}
