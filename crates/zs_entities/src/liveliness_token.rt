//! Liveliness tokens.
ghost use Rattle.std.specs.Prelude.{◌≡◌, IfOk, IfErr, None, false, is_some};
ghost use Rattle.zs_cell.specs.Steps.{AcceptsFor, Stops};
ghost use Rattle.zs_events.specs.declared.entity_kind.EntityKind.TheVariants.{Token as token_kind};
ghost use Rattle.zs_events.specs.declared.event.Event.TheVariants.{Undeclare};
ghost use Rattle.zs_entities.specs.Entities.{global_id};
ghost use Rattle.zs_declaring.specs.Waits.{waited_key};

use crate::undeclaration::Undeclaration;
use std::marker::Model;
use std::sync::Wait;
use zs_calls::Unspent;
use zs_cell::{Books, Caller, Drained, Item, Session, SessionError};
use zs_declaring::undeclare;
use zs_events::EntityKind;
use zs_handlers::Handler;
use zs_keys::KeyExpr;
use zs_wire::EntityGlobalId;

/// What a session holds for whoever is to be seen alive: others see it while it is not undeclared. It is spent: undeclared or
/// abandoned. Contracts see its session, number and key.
#[must_use = "a liveliness token is undeclared or abandoned"]
pub struct LivelinessToken<'a, H, B: Books> {
    session: &'a Session<H, B>,
    id: u32,
    key: KeyExpr<'a>,
}

impl<'a, H, B: Books> Model for LivelinessToken<'a, H, B> {
    ghost use Rattle.zs_entities.specs.Entities.{EntitySeen};

    ghost Value = { EntitySeen };

    ghost view = { λ t. record { session = t.session.now; id = t.id; key = t.key } };
}

impl<'a, H, B: Books> LivelinessToken<'a, H, B> {
    // The token that the session declared under that number.
    pub(crate) fn of(
        session: &'a Session<H, B>,
        id: u32,
        key: KeyExpr<'a>,
    ) -> LivelinessToken<'a, H, B>
        ensures { result ≡ record { session = session.now; id = id; key = key.entry } }
    {
        LivelinessToken { session, id, key }
    }

    /// The key on which it is seen.
    pub fn key_expr(&self) -> &KeyExpr<'a>
        ensures { result.now ≡ self.now.key }
    {
        &self.key
    }

    /// Ends it, once that is waited for.
    pub fn undeclare(self) -> Undeclaration<LivelinessToken<'a, H, B>>
        ensures { result ≡ record { value = self.entry; waits = false } }
    {
        Undeclaration::of(self)
    }

    /// Lets go of it: it lives on until the session is closed.
    pub fn abandon(self) {
        let LivelinessToken {
            session: _,
            id: _,
            key,
        } = self;
        drop(key);
    }
}

impl<'a, H: Drop, B: Books> LivelinessToken<'a, H, B> {
    /// It among the entities of the network.
    pub fn id(&self) -> EntityGlobalId
        ensures { result ≡ global_id self.now.session self.now.id }
    {
        EntityGlobalId {
            zid: self.session.zid(),
            eid: self.id,
        }
    }
}

impl<'a, H: Handler<Item> + Drop, B: Books> LivelinessToken<'a, H, B> {
    // Ends it: where the session takes the event and accepts it, the token is gone.
    fn end<R: Wait>(
        &self,
        rt: &R,
        waits: bool,
        caller: &mut Caller<B>,
    ) -> Result<Option<Drained>, SessionError>
        ensures ok { IfOk result (λ drained. AcceptsFor B.Entries.settings H.evicts caller.old caller.new (Undeclare token_kind self.now.id) false None (waited_key waits (Undeclare token_kind self.now.id)) (is_some drained)) }
        ensures at_once { waits ≡ false → IfOk result (λ drained. drained ≡ None) }
        ensures err { IfErr result (λ why. Stops B.Entries.settings H.evicts caller.old caller.new (Undeclare token_kind self.now.id) false why) }
    {
        undeclare(self.session, rt, EntityKind::Token, self.id, waits, caller)
    }
}

impl<'a, H: Handler<Item> + Drop, B: Books> Undeclaration<LivelinessToken<'a, H, B>> {
    /// Ends the token. It has no callbacks, so no one is waited for.
    ///
    /// # Errors
    ///
    /// `Refused`: `NotFound` where it was ended by its number already, unless the session is closed. Else `NoMemory`:
    /// no event was taken. The token comes back.
    pub fn wait<R: Wait>(
        self,
        rt: &R,
        caller: &mut Caller<B>,
    ) -> Result<Option<Drained>, Unspent<LivelinessToken<'a, H, B>>>
        ensures ok { IfOk result (λ drained. AcceptsFor B.Entries.settings H.evicts caller.old caller.new (Undeclare token_kind self.entry.value.id) false None (waited_key self.entry.waits (Undeclare token_kind self.entry.value.id)) (is_some drained)) }
        ensures at_once { self.entry.waits ≡ false → IfOk result (λ drained. drained ≡ None) }
        ensures err { IfErr result (λ back. Stops B.Entries.settings H.evicts caller.old caller.new (Undeclare token_kind self.entry.value.id) false back.why) }
        ensures back { IfErr result (λ back. back.value ≡ self.entry.value) }
    {
        let (value, waits) = self.into_parts();
        match value.end(rt, waits, caller) {
            Ok(drained) => {
                value.abandon();
                Ok(drained)
            }
            Err(why) => Err(Unspent { why, value }),
        }
    }
}
