//! The gates of a session, each a post under a key, and the passes that calls of handlers are lent.
//!
//! A call of a handler is made inside of four gates: the session's, that of the publisher or querier whom it concerns,
//! that of the cancellation token, and the handler's own. All of them are posts of one list, each under its key, and a
//! handler's post names its parent's and its token's. So lending, taking back, ending and giving out are said once.
//! A post is found in logarithmic time, and one that was ended and has no pass out waits in a queue, so nobody looks for it.
//!
//! Passes leave the lock under which the posts are, and come back under a later hold of it, when nothing is known of the
//! posts but their type. So each pass has a tag: in one room no two gates have one number (`Tag::agrees`).
//! `specs/Lending.antt` says what posts lend, `specs/Settled.antt` which of them wait.
#![tactic(auto)]

mod call;
mod key;
mod lends;
mod numbering;
mod pass;
mod passes;
mod post;
mod post_map;
mod posts;
mod tag;
mod turn_calls;

pub use call::{Call, Wanted};
pub use key::{Key, Name};
pub use pass::{Lent, Within};
pub use passes::Passes;
pub use post::Post;
pub use post_map::NotOpened;
pub use posts::Posts;
pub use tag::{Maker, Room, Tag};
