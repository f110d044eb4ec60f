//! Posts and their passes, as a session uses them.

use std::alloc::AllocGlobal;
use std::process::Abort;
use std::sync::Arc;
use zs_events::Kind;
use zs_posts::{Call, Key, Name, NotOpened, Posts, Wanted};

#[derive(Drop)]
struct Nobody;

// The key of a post that has a handler, and that of one that has none.
const HANDLED: Key = Key::Of(Kind::Subscriber, 1);

const PLAIN: Key = Key::Of(Kind::Publisher, 2);

/// The name of a post under that key: at place 0, with neither a parent nor a token.
fn named(key: Key) -> Name {
    Name {
        key,
        parent: None,
        token: None,
        place: 0,
    }
}

// What is behind a lock that threads share goes from one thread to another.
fn crosses_threads<T: Send>(_value: &T) {}

// Whether both posts are opened, and no second one under a key.
fn opens_both<R: AllocGlobal + Abort>(rt: &R, posts: &mut Posts<Nobody>) -> bool {
    let handler = Some(Arc::new(rt.alloc(), Nobody).expect(rt, "a handler"));
    let opened = (
        posts.open(rt.alloc(), named(HANDLED), &handler),
        posts.open(rt.alloc(), named(PLAIN), &None),
        posts.open(rt.alloc(), named(HANDLED), &None),
    );
    opened == (Ok(()), Ok(()), Err(NotOpened::Held))
}

// Lends the passes of a turn that has an item for each key.
fn lend<R: AllocGlobal + Abort>(rt: &R, posts: &mut Posts<Nobody>) -> Vec<Call<Nobody, u64>> {
    let handled = Wanted {
        key: HANDLED,
        item: 7,
    };
    let plain = Wanted {
        key: PLAIN,
        item: 8,
    };
    let wanted = Vec::from_array(rt.alloc(), [handled, plain]).expect(rt, "two items");
    posts.lend_turn(rt.alloc(), wanted).expect(rt, "passes")
}

// Whose post is given out next of those that were ended.
fn next_ended(posts: &mut Posts<Nobody>) -> Option<Key> {
    let post = posts.next_ended()?;
    let key = post.name().key;
    drop(post);
    Some(key)
}

// Whether the post of a key is given out.
fn takes_out(posts: &mut Posts<Nobody>, key: Key) -> bool {
    match posts.take_out(key) {
        Some(post) => {
            drop(post);
            true
        }
        None => false,
    }
}

// Whether both posts are ended, of which the plain one alone waits, and the other one is there.
fn gives_out_each(posts: &mut Posts<Nobody>) -> bool {
    posts.end(HANDLED);
    posts.end(PLAIN);
    let ended = (next_ended(posts), next_ended(posts));
    let left = (posts.holds(HANDLED), takes_out(posts, HANDLED));
    (ended, left) == ((Some(PLAIN), None), (true, true))
}

// A post that has a pass out is given out by its key alone, and one that has none once it was ended.
#[test]
fn ended_posts_are_given_out(rt: HostRuntime) {
    let mut posts = Posts::new(rt.alloc()).expect(&rt, "posts");
    assert!(rt; opens_both(&rt, &mut posts));
    let calls = lend(&rt, &mut posts);
    crosses_threads(&calls);
    crosses_threads(&posts);
    assert!(rt; (calls.len(), gives_out_each(&mut posts)) == (1, true));
}
