//! Liveliness tokens in the making.
ghost use Rattle.std.specs.Prelude.{◌≡◌, Some, true, false, IfOk, IfErr};
ghost use Rattle.zs_held.specs.Numbers.{numbered_at};
ghost use Rattle.zs_cell.specs.Steps.{Accepts, Stops};
ghost use Rattle.zs_entities.specs.Builders.{token_event};

use crate::liveliness_token::LivelinessToken;
use std::alloc::AllocError;
use std::marker::Model;
use std::sync::Wait;
use zs_calls::key_arg;
use zs_cell::{Books, Caller, Item, Session, SessionError};
use zs_declaring::{declare_alone, token};
use zs_events::Event;
use zs_handlers::Handler;
use zs_keys::KeyExpr;

/// A liveliness token in the making. Contracts see its session and key.
#[must_use = "nothing is declared before `wait`"]
#[derive(Drop)]
pub struct LivelinessTokenBuilder<'a, H, B: Books> {
    session: &'a Session<H, B>,
    key: KeyExpr<'a>,
}

impl<'a, H, B: Books> Model for LivelinessTokenBuilder<'a, H, B> {
    ghost use Rattle.zs_entities.specs.Builders.{LivelinessTokenMade};

    ghost Value = { LivelinessTokenMade };

    ghost view = { λ b. record { session = b.session.now; key = b.key } };
}

impl<'a, H, B: Books> LivelinessTokenBuilder<'a, H, B> {
    /// A token on that key, which isn't declared yet.
    pub(crate) fn of(
        session: &'a Session<H, B>,
        key: KeyExpr<'a>,
    ) -> LivelinessTokenBuilder<'a, H, B>
        ensures { result ≡ record { session = session.now; key = key.entry } }
    {
        LivelinessTokenBuilder { session, key }
    }
}

impl<'a, H: Drop, B: Books> LivelinessTokenBuilder<'a, H, B> {
    // The event that declares it.
    fn event(&self) -> Result<Event, AllocError>
        ensures event { IfOk result (λ event. event ≡ token_event self.now) }
        ensures number { IfOk result (λ event. numbered_at event ≡ true) }
    {
        let session = self.session;
        let key = key_arg(session.alloc(), session.tag(), &self.key)?;
        Ok(token(key))
    }

    // The token, once it was declared under that number.
    fn into_token(self, id: u32) -> LivelinessToken<'a, H, B>
        ensures { result ≡ record { session = self.entry.session; id = id; key = self.entry.key } }
    {
        let LivelinessTokenBuilder { session, key } = self;
        LivelinessToken::of(session, id, key)
    }
}

impl<'a, H: Handler<Item> + Drop, B: Books> LivelinessTokenBuilder<'a, H, B> {
    /// Declares it.
    ///
    /// # Errors
    ///
    /// `Refused`: `SessionClosedError` behind the close, `IdsExhausted` where no number of an entity is left. Else
    /// `NoMemory`: no event was taken.
    pub fn wait<R: Wait>(
        self,
        rt: &R,
        caller: &mut Caller<B>,
    ) -> Result<LivelinessToken<'a, H, B>, SessionError>
        ensures ok { IfOk result (λ made. Accepts B.Entries.settings H.evicts caller.old caller.new (token_event self.entry) false (Some made.id)) }
        ensures made { IfOk result (λ made. made ≡ record { session = self.entry.session; id = made.id; key = self.entry.key }) }
        ensures err { IfErr result (λ why. Stops B.Entries.settings H.evicts caller.old caller.new (token_event self.entry) false why) }
    {
        let session = self.session;
        let Ok(event) = self.event() else {
            return Err(SessionError::NoMemory);
        };
        match declare_alone(session, rt, event, caller) {
            Ok(id) => Ok(self.into_token(id)),
            Err(why) => Err(why),
        }
    }
}
