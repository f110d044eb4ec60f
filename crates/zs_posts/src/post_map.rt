//! Posts under their keys.

// Posts of one room by their keys.
ghost use Rattle.std.specs.Prelude.{◌≡◌, ℕ, true, [], ◌∷◌, length, Some, None, option_map, IfOk, IfSome, OnOk, OnErr};
ghost use Rattle.std.specs.Arc.{arc_value};
ghost use Rattle.std.specs.Option.{is_some, option_to_list, IsSomeAnd};
ghost use Rattle.atomic_table.specs.Seated.{TableId};
ghost use Rattle.zs_posts.specs.Posts.{post_at, changed, flagged, lowered_by, spent_at};
ghost use Rattle.zs_posts.specs.Lending.{fresh, with_post, without, is_overdrawn, returned_all, IsLent};

use crate::call::Target;
use crate::key::{Key, Name};
use crate::pass::Lent;
use crate::post::Post;
use crate::tag::{Maker, Room};
use std::alloc::{AllocError, Global};
use std::collections::BTreeMap;
use std::marker::Model;
use std::sync::Arc;
use zs_gate::NoPass;

/// Why no post was opened under a key.
#[derive(Clone, Copy, Debug, PartialEq, Eq)]
pub enum NotOpened {
    /// There is one.
    Held,
    /// There was no memory.
    NoMemory,
}

#[derive(Drop)]
pub(crate) struct PostMap<H> {
    maker: Maker,
    posts: BTreeMap<Key, Post<H>>,
}

impl<H> Model for PostMap<H> {
    ghost use Rattle.std.specs.List.{AllByRecursion};
    ghost use Rattle.zs_posts.specs.Posts.{MapSeen, IsOfRoom};

    ghost Value = { MapSeen H };

    ghost view = { λ m. record { room = m.maker; rows = m.posts.entries } };

    ghost invariant = { λ m. AllByRecursion (IsOfRoom m.maker) m.posts.entries };
}

impl<H> PostMap<H> {
    ghost use Rattle.zs_posts.specs.Calls.{target_seen, target_for};

    // A room of its own, with no post.
    pub(crate) fn new(alloc: Global) -> Result<PostMap<H>, AllocError>
        ensures { IfOk result (λ m. m.rows ≡ []) }
    {
        let maker = Maker::open(alloc)?;
        Ok(PostMap {
            maker,
            posts: BTreeMap::new(alloc),
        })
    }

    // The room of all tags.
    pub(crate) fn room(&self) -> Result<Room, AllocError>
        ensures { IfOk result (λ room. room ≡ self.now.room) }
    {
        self.maker.room()
    }

    // How many there are.
    pub(crate) fn len(&self) -> usize
        ensures { result ≡ length self.now.rows }
    {
        self.posts.len()
    }

    // The post of a key.
    pub(crate) fn get(&self, key: Key) -> Option<&Post<H>>
        ensures { option_map (λ p. p.now) result ≡ post_at key self.now.rows }
    {
        self.posts.get(&key)
    }

    // The handler of a key with its post's name, if there is one.
    pub(crate) fn target(&self, key: Key) -> Result<Option<Target<H>>, AllocError>
        ensures { IfOk result (λ target. option_map target_seen target ≡ target_for (post_at key self.now.rows)) }
    {
        match self.posts.get(&key) {
            Some(post) => post.target(),
            None => Ok(None),
        }
    }

    // Opens a post under a name's key.
    pub(crate) fn open(
        &mut self,
        alloc: Global,
        name: Name,
        handler: &Option<Arc<H>>,
    ) -> Result<(), NotOpened>
    where
        H: Drop,
        ensures ok { OnOk result ((gate : TableId) × (number : ℕ) × (self.new ≡ record self.old { rows = with_post name.key (fresh name (option_map arc_value handler.now) gate self.old.room number) self.old.rows })) }
        ensures none { OnOk result (post_at name.key self.old.rows ≡ None) }
        ensures err { OnErr result (self.new ≡ self.old) }
        ensures held { result ≡ Err NotOpened.Held → is_some (post_at name.key self.old.rows) ≡ true }
    {
        if self.posts.contains_key(&name.key) {
            return Err(NotOpened::Held);
        }
        let Ok(post) = Post::open(alloc, &self.maker, name, handler) else {
            return Err(NotOpened::NoMemory);
        };
        let old = match self.posts.insert(name.key, post) {
            Ok(old) => old,
            Err(failed) => {
                drop(failed);
                return Err(NotOpened::NoMemory);
            }
        };
        drop(old);
        Ok(())
    }

    // Takes the post of a key out.
    pub(crate) fn remove(&mut self, key: Key) -> Option<Post<H>>
        ensures post { result ≡ post_at key self.old.rows }
        ensures rows { self.new ≡ record self.old { rows = without key self.old.rows } }
    {
        self.posts.remove(&key)
    }

    // Lends a pass of the post of a key, if there is a key and a post. At `Err` nothing has changed.
    pub(crate) fn lend(&mut self, key: Option<Key>) -> Result<Option<Lent>, NoPass>
        ensures ok { IfOk result (λ lent. IsLent self.old.room (option_to_list key) self.old.rows (option_to_list lent) self.new.rows) }
        ensures room { self.new.room ≡ self.old.room }
        ensures full { result ≡ Err NoPass.Full → is_overdrawn (option_to_list key) self.old.rows ≡ true }
        ensures err { OnErr result (self.new ≡ self.old) }
    {
        let Some(key) = key else {
            return Ok(None);
        };
        let Some(post) = self.posts.get_mut(&key) else {
            return Ok(None);
        };
        let lent = match post.lend(key) {
            Ok(lent) => lent,
            Err(why) => return Err(why),
        };
        Ok(Some(lent))
    }

    // Takes a pass back.
    pub(crate) fn unlend(&mut self, lent: Option<Lent>)
        requires { IfSome lent (λ l. l.room ≡ self.old.room) }
        ensures { self.new ≡ record self.old { rows = returned_all (option_to_list lent) self.old.rows } }
    {
        match lent {
            Some(lent) => self.take_back(lent.key(), lent),
            None => {}
        }
    }

    // Has the post of a key take a pass back.
    fn take_back(&mut self, key: Key, lent: Lent)
        requires { lent.room ≡ self.old.room }
        ensures { self.new ≡ record self.old { rows = changed (lowered_by lent) key self.old.rows } }
    {
        let Some(post) = self.posts.get_mut(&key) else {
            return;
        };
        post.take_back(lent);
    }

    // Notes that the post of a key was ended.
    pub(crate) fn flag(&mut self, key: Key)
        ensures { self.new ≡ record self.old { rows = changed flagged key self.old.rows } }
    {
        let Some(post) = self.posts.get_mut(&key) else {
            return;
        };
        post.end();
    }

    // Whether the post of a key was ended and has no pass out.
    pub(crate) fn is_spent(&self, key: Key) -> bool
        ensures { result ≡ spent_at key self.now.rows }
    {
        match self.posts.get(&key) {
            Some(post) => post.is_spent(),
            None => false,
        }
    }
}
