//! The calls of a session that give builders.
ghost use Rattle.std.specs.Prelude.{◌≡◌};
ghost use Rattle.zs_calls.specs.Publications.{published, on_key, put_of, Deletes};
ghost use Rattle.zs_calls.specs.Gets.{session_get};

use crate::get::SessionGetBuilder;
use crate::publication::{
    OnKey, PublicationBuilder, PublicationBuilderDelete, PublicationBuilderPut,
    SessionDeleteBuilder, SessionPutBuilder,
};
use zs_cell::{Books, Session};
use zs_keys::KeyExpr;
use zs_sample::{Selector, ZBytes};

/// What a session publishes and asks. Nothing happens before the builder's `wait`.
pub trait SessionCalls<H, B: Books> {
    /// A put on a key.
    fn put<'a>(&'a self, key: KeyExpr<'a>, payload: ZBytes) -> SessionPutBuilder<'a, H, B>;

    /// A delete on a key.
    fn delete<'a>(&'a self, key: KeyExpr<'a>) -> SessionDeleteBuilder<'a, H, B>;

    /// A get: what others have under the selector's key.
    fn get<'a>(&'a self, selector: &'a Selector<'a>) -> SessionGetBuilder<'a, H, B>;
}

impl<H, B: Books> SessionCalls<H, B> for Session<H, B> {
    /// A put with the default quality, for all subscribers, of which nothing else is said.
    fn put<'a>(&'a self, key: KeyExpr<'a>, payload: ZBytes) -> SessionPutBuilder<'a, H, B>
        ensures { result ≡ published (on_key self.now key.entry) (put_of payload) }
    {
        PublicationBuilder::new(OnKey::of(self, key), PublicationBuilderPut::of(payload))
    }

    /// A delete with the default quality, for all subscribers, of which nothing else is said.
    fn delete<'a>(&'a self, key: KeyExpr<'a>) -> SessionDeleteBuilder<'a, H, B>
        ensures { result ≡ published (on_key self.now key.entry) Deletes }
    {
        PublicationBuilder::new(OnKey::of(self, key), PublicationBuilderDelete)
    }

    /// A get with the default settings, without a payload and a handler.
    fn get<'a>(&'a self, selector: &'a Selector<'a>) -> SessionGetBuilder<'a, H, B>
        ensures { result ≡ session_get self.now selector.now }
    {
        SessionGetBuilder::of(self, selector)
    }
}
