//! The ends of handlers.
ghost use Rattle.std.specs.Prelude.{◌≡◌, None, option_map};
ghost use Rattle.std.specs.Arc.{arc_value};
ghost use Rattle.std.specs.Option.{is_some};

use std::sync::{Arc, Wait};
use zs_gate::{Drained, Draining};
use zs_handlers::Handler;
use zs_posts::Post;

/// A gate that has ended, with the handler that must be told, if it was a handler's.
pub struct Ending<H> {
    handler: Option<Arc<H>>,
    drained: Drained,
}

/// A gate that is marked, with its handler, if it was a handler's. Someone may still be inside.
pub struct Closing<H> {
    handler: Option<Arc<H>>,
    draining: Draining,
}

impl<H> Ending<H> {
    /// The end of a post of which no pass is out.
    pub fn of(post: Post<H>) -> Ending<H>
        requires { post.out ≡ 0 }
        ensures handler { option_map arc_value result.handler ≡ post.handler }
        ensures drained { result.drained ≡ post.gate }
    {
        let (handler, drained) = post.shut();
        Ending { handler, drained }
    }

    /// Tells the handler, if there is one, that its callback has ended.
    pub fn tell<T, R: Wait>(self, rt: &R) -> (Drained, Option<H::Done>)
    where
        H: Handler<T> + Drop,
        ensures drained { result.0 ≡ self.drained }
        ensures done { is_some result.1 ≡ is_some self.handler }
    {
        let Ending { handler, drained } = self;
        let Some(handler) = handler else {
            return (drained, None);
        };
        let done = handler.ended(rt, &drained);
        drop(handler);
        (drained, Some(done))
    }

    /// Lets go of the end of a gate without a handler: there is no one to tell.
    pub fn let_go(self)
    where
        H: Drop,
        requires { self.handler ≡ None }
    {
        let Ending { handler, drained } = self;
        drop(handler);
        drop(drained);
    }
}

impl<H> Closing<H> {
    /// Marks the gate of a post, whether or not passes of it are out.
    pub fn of(post: Post<H>) -> Closing<H>
        ensures handler { option_map arc_value result.handler ≡ post.handler }
        ensures gate { result.draining.gate ≡ post.gate }
    {
        let (handler, draining) = post.drain();
        Closing { handler, draining }
    }

    /// Waits until no one is inside. It never returns to whoever is inside of the gate itself.
    pub fn wait<R: Wait>(self, rt: &R) -> Ending<H>
        ensures handler { result.handler ≡ self.handler }
        ensures drained { result.drained ≡ self.draining.gate }
    {
        let Closing { handler, draining } = self;
        let drained = draining.wait(rt);
        Ending { handler, drained }
    }
}
