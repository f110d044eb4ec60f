//! All posts of a session.
ghost use Rattle.std.specs.Prelude.{◌≡◌, ℕ, ◌+◌, ◌≤◌, true, false, cond, [], ◌∷◌, ◌++◌, length, map, Some, None, option_map, ◌<◌, IfOk, IfSome, IfNone, OnOk, OnErr, MatchOption, slice_get};
ghost use Rattle.std.specs.Arc.{arc_value};
ghost use Rattle.std.specs.List.{AllByRecursion, remove};
ghost use Rattle.std.specs.Option.{is_some, option_to_list};
ghost use Rattle.std.specs.Vec.{vec_len};
ghost use Rattle.std.specs.VecDeque.{deque_len, deque_capacity};
ghost use Rattle.atomic_table.specs.Seated.{TableId};
ghost use Rattle.zs_posts.specs.Posts.{post_at, spent_at, is_spent};
ghost use Rattle.zs_posts.specs.Lending.{fresh, with_post, without, lend_all, is_overdrawn, returned_all};
ghost use Rattle.zs_posts.specs.Calls.{handler_at, passes_lents, call_seen, all_lents, turn_keys, calls_of};
ghost use Rattle.zs_posts.specs.Settled.{IsSettled, if_spent, without_spent, ended, given_back, all_given_back, first_of, without_first, held_at, taken_out};

use crate::call::{Call, Wanted};
use crate::key::{Key, Name};
use crate::pass::Lent;
use crate::passes::Passes;
use crate::post::Post;
use crate::post_map::{NotOpened, PostMap};
use crate::tag::Room;
use std::alloc::{AllocError, Global};
use std::collections::VecDeque;
use std::marker::Model;
use std::sync::Arc;
use zs_gate::NoPass;

/// The gates of a session, each a post under its key. A post that was ended leaves its key once no pass of it is out, and
/// waits until it is given out. Contracts see the room of all tags, the posts by key and those that wait.
#[derive(Drop)]
pub struct Posts<H> {
    map: PostMap<H>,
    // It has room for each post under a key, so that one can come to wait without memory.
    ready: VecDeque<Post<H>>,
}

impl<H> Model for Posts<H> {
    ghost use Rattle.std.specs.Prelude.{◌+◌, ◌≤◌, length};
    ghost use Rattle.std.specs.VecDeque.{deque_len, deque_capacity};
    ghost use Rattle.zs_posts.specs.Settled.{PostsSeen, IsSettled};

    ghost Value = { PostsSeen H };

    ghost view = { λ p. record { room = p.map.room; rows = p.map.rows; ready = p.ready.items } };

    ghost invariant = { λ p. (length p.map.rows + deque_len p.ready ≤ deque_capacity p.ready) × IsSettled p.map.rows p.ready.items };
}

// Lets the post of a key wait, if it was ended and no pass of it is out.
fn settle<H>(map: &mut PostMap<H>, ready: &mut VecDeque<Post<H>>, key: Key)
    requires { length map.old.rows + deque_len ready.old ≤ deque_capacity ready.old }
    ensures rows { map.new ≡ record map.old { rows = without_spent key map.old.rows } }
    ensures ready { ready.new.items ≡ ready.old.items ++ if_spent (post_at key map.old.rows) }
    ensures room { length map.new.rows + deque_len ready.new ≤ deque_capacity ready.new }
{
    if !map.is_spent(key) {
        return;
    }
    let Some(post) = map.remove(key) else {
        unreachable!()
    };
    ready.push_back_reserved(post);
}

// Where the first post of a key waits.
fn place_of<H>(ready: &VecDeque<Post<H>>, key: Key) -> Option<usize>
    ensures none { IfNone result (first_of key ready.now.items ≡ None) }
    ensures first { IfSome result (λ i. first_of key ready.now.items ≡ slice_get ready.now.items i) }
    ensures others { IfSome result (λ i. without_first key ready.now.items ≡ remove ready.now.items i) }
    ensures within { IfSome result (λ i. i < deque_len ready.now) }
{
    for i in 0..ready.len() {
        let Some(post) = ready.get(i) else {
            unreachable!()
        };
        if post.is_of(key) {
            return Some(i);
        }
    }
    None
}

impl<H> Posts<H> {
    ghost use Rattle.zs_posts.specs.Settled.{PostsSeen};
    ghost use Rattle.zs_posts.specs.Turns.{IsOpened, IsTurn};

    /// No post, in a room of its own.
    ///
    /// # Errors
    ///
    /// Want of memory alone.
    pub fn new(alloc: Global) -> Result<Posts<H>, AllocError>
        ensures rows { IfOk result (λ p. p.rows ≡ []) }
        ensures ready { IfOk result (λ p. p.ready ≡ []) }
    {
        let map = PostMap::new(alloc)?;
        Ok(Posts {
            map,
            ready: VecDeque::new(alloc),
        })
    }

    /// What is true of all posts: those that were ended and have no pass out wait, and no other one does.
    pub fn tell_settled(&self)
        ensures { IsSettled self.now.rows self.now.ready }
    {
        let _ = &self.ready;
    }

    /// The room of all tags.
    ///
    /// # Errors
    ///
    /// Want of memory alone.
    pub fn room(&self) -> Result<Room, AllocError>
        ensures { IfOk result (λ room. room ≡ self.now.room) }
    {
        self.map.room()
    }

    /// Whether a key has a post, under it or waiting.
    pub fn holds(&self, key: Key) -> bool
        ensures { result ≡ is_some (held_at key self.now) }
    {
        if self.map.get(key).is_some() {
            return true;
        }
        place_of(&self.ready, key).is_some()
    }

    /// Whether a key has a handler, which isn't waiting.
    pub fn handles(&self, key: Key) -> bool
        ensures { result ≡ is_some (handler_at key self.now.rows) }
    {
        match self.map.get(key) {
            Some(post) => post.has_handler(),
            None => false,
        }
    }

    /// Opens a post with a gate that isn't marked, under a name's key. At `Err` nothing has changed.
    ///
    /// # Errors
    ///
    /// Where the key has a post, and for want of memory.
    pub fn open(
        &mut self,
        alloc: Global,
        name: Name,
        handler: &Option<Arc<H>>,
    ) -> Result<(), NotOpened>
    where
        H: Drop,
        ensures ok { OnOk result ((gate : TableId) × (number : ℕ) × (self.new ≡ record self.old { rows = with_post name.key (fresh name (option_map arc_value handler.now) gate self.old.room number) self.old.rows })) }
        ensures none { OnOk result (post_at name.key self.old.rows ≡ None) }
        ensures err { OnErr result (self.new ≡ self.old) }
        ensures held { result ≡ Err NotOpened.Held → is_some (post_at name.key self.old.rows) ≡ true }
    {
        let count = self.map.len();
        let Ok(()) = self.ready.reserve(count + 1) else {
            return Err(NotOpened::NoMemory);
        };
        self.map.open(alloc, name, handler)
    }

    /// Lends the passes of the calls of items: one call for each item whose key has a handler, in order, with one pass of
    /// each gate that it is made inside of. At `Err` nothing has changed.
    ///
    /// # Errors
    ///
    /// Where all passes of a gate are out, and for want of memory.
    pub fn lend_turn<T: Drop>(
        &mut self,
        alloc: Global,
        wanted: Vec<Wanted<T>>,
    ) -> Result<Vec<Call<H, T>>, NoPass>
    where
        H: Drop,
        ensures few { IfOk result (λ calls. vec_len calls ≤ vec_len wanted) }
        ensures calls { IfOk result (λ calls. map call_seen calls.items ≡ calls_of wanted.items self.old.rows) }
        ensures posts { IfOk result (λ _. self.new ≡ record self.old { rows = lend_all (turn_keys wanted.items self.old.rows) self.old.rows }) }
        ensures back { IfOk result (λ calls. returned_all (all_lents (map call_seen calls.items)) self.new.rows ≡ self.old.rows) }
        ensures fits { IfOk result (λ _. is_overdrawn (turn_keys wanted.items self.old.rows) self.old.rows ≡ false) }
        ensures of_room { IfOk result (λ calls. AllByRecursion (λ l. l.room ≡ self.old.room) (all_lents (map call_seen calls.items))) }
        ensures full { result ≡ Err NoPass.Full → is_overdrawn (turn_keys wanted.items self.old.rows) self.old.rows ≡ true }
        ensures err { OnErr result (self.new ≡ self.old) }
    {
        self.map.lend_turn(alloc, wanted)
    }

    /// Takes the passes of calls back that were lent by the last `lend_turn`: with its calls the posts are as they were before it.
    pub fn unlend_turn<T: Drop>(&mut self, calls: Vec<Call<H, T>>)
    where
        H: Drop,
        requires of_room { AllByRecursion (λ l. l.room ≡ self.old.room) (all_lents (map call_seen calls.items)) }
        requires settled { IsSettled (returned_all (all_lents (map call_seen calls.items)) self.old.rows) self.old.ready }
        ensures { self.new ≡ record self.old { rows = returned_all (all_lents (map call_seen calls.items)) self.old.rows } }
    {
        self.map.unlend_each(calls);
    }

    /// Opens a post as `open` does and then lends as `lend_turn` does, both or neither. At `Err` nothing has changed.
    ///
    /// # Errors
    ///
    /// Where all passes of a gate are out, and for want of memory, which also stands for a key that has a post.
    pub fn open_and_lend<T: Drop>(
        &mut self,
        alloc: Global,
        name: Name,
        handler: &Option<Arc<H>>,
        wanted: Vec<Wanted<T>>,
    ) -> Result<Vec<Call<H, T>>, NoPass>
    where
        H: Drop,
        ensures few { IfOk result (λ calls. vec_len calls ≤ vec_len wanted) }
        ensures ok { IfOk result (λ calls. (opened : PostsSeen H) × IsOpened name (option_map arc_value handler.now) self.old opened × IsTurn wanted.items opened (map call_seen calls.items) self.new) }
        ensures none { IfOk result (λ _. post_at name.key self.old.rows ≡ None) }
        ensures full { result ≡ Err NoPass.Full → (opened : PostsSeen H) × IsOpened name (option_map arc_value handler.now) self.old opened × (is_overdrawn (turn_keys wanted.items opened.rows) opened.rows ≡ true) }
        ensures err { OnErr result (self.new ≡ self.old) }
    {
        let Ok(()) = self.open(alloc, name, handler) else {
            return Err(NoPass::NoMemory);
        };
        match self.lend_turn(alloc, wanted) {
            Ok(calls) => Ok(calls),
            Err(why) => {
                let post = self.take_out(name.key);
                drop(post);
                Err(why)
            }
        }
    }

    /// Takes a pass back. One whose post is gone goes with it.
    pub fn give_back(&mut self, lent: Lent)
        requires { lent.room ≡ self.old.room }
        ensures { self.new ≡ given_back lent self.old }
    {
        let key = lent.key();
        self.map.unlend(Some(lent));
        settle(&mut self.map, &mut self.ready, key);
    }

    /// Takes the passes of a call back.
    pub fn give_all_back(&mut self, passes: Passes)
        requires { AllByRecursion (λ l. l.room ≡ self.old.room) (passes_lents passes) }
        ensures { self.new ≡ all_given_back (passes_lents passes) self.old }
    {
        let Passes {
            own,
            session,
            parent,
            token,
        } = passes;
        self.give_back(own);
        self.give_if_back(session);
        self.give_if_back(parent);
        self.give_if_back(token);
    }

    // Takes a pass back, if there is one.
    fn give_if_back(&mut self, lent: Option<Lent>)
        requires { AllByRecursion (λ l. l.room ≡ self.old.room) (option_to_list lent) }
        ensures { self.new ≡ all_given_back (option_to_list lent) self.old }
    {
        match lent {
            Some(lent) => self.give_back(lent),
            None => {}
        }
    }

    /// Notes that the post of a key was ended, if it has one.
    pub fn end(&mut self, key: Key)
        ensures { self.new ≡ ended key self.old }
    {
        self.map.flag(key);
        settle(&mut self.map, &mut self.ready, key);
    }

    /// Gives out a post that was ended and has no pass out, the first to wait first.
    pub fn next_ended(&mut self) -> Option<Post<H>>
        ensures posts { self.old ≡ record self.new { ready = option_to_list result ++ self.new.ready } }
        ensures spent { IfSome result (λ p. (p.ended ≡ true) × (p.out ≡ 0)) }
        ensures none { IfNone result (AllByRecursion (λ e. is_spent e.1 ≡ false) self.old.rows × (self.old.ready ≡ [])) }
    {
        self.ready.pop_front()
    }

    /// Gives out the post of a key, under it or waiting, whether or not passes of it are out.
    pub fn take_out(&mut self, key: Key) -> Option<Post<H>>
        ensures post { result ≡ held_at key self.old }
        ensures posts { self.new ≡ taken_out key self.old }
    {
        match self.map.remove(key) {
            Some(post) => Some(post),
            None => self.take_waiting(key),
        }
    }

    // Gives out the first post of a key that waits.
    fn take_waiting(&mut self, key: Key) -> Option<Post<H>>
        ensures post { result ≡ first_of key self.old.ready }
        ensures posts { self.new ≡ record self.old { ready = without_first key self.old.ready } }
    {
        match place_of(&self.ready, key) {
            Some(place) => self.ready.remove(place),
            None => None,
        }
    }
}
