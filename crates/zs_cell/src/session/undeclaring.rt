//! Undeclarations after which a caller waits for callbacks that are under way.
ghost use Rattle.std.specs.Prelude.{◌≡◌, None, false, is_some, IfOk, IfErr};
ghost use Rattle.zs_held.specs.Numbers.{numbered_at};
ghost use Rattle.zs_cell.specs.Steps.{AcceptsFor, Stops};
ghost use Rattle.zs_events.specs.Kinds.{kind_of};
ghost use Rattle.zs_cell.specs.Undeclared.{undeclared_key};

use crate::error::SessionError;
use crate::session::Session;
use std::sync::Wait;
use zs_books::Books;
use zs_events::{EntityKind, Event, Kind};
use zs_handlers::Handler;
use zs_hands::Closing;
use zs_held::Receipt;
use zs_posts::Key;
use zs_turns::Item;

type Caller<B> = zs_books::Caller<B, Receipt<B>>;

/// The kind by which gates are found, of what can be undeclared.
fn kind_of(kind: EntityKind) -> Kind
    ensures { result ≡ kind_of kind }
{
    match kind {
        EntityKind::Sub => Kind::Subscriber,
        EntityKind::Pub => Kind::Publisher,
        EntityKind::Queryable => Kind::Queryable,
        EntityKind::Querier => Kind::Querier,
        EntityKind::Listener => Kind::Listener,
        EntityKind::Token => Kind::Token,
        EntityKind::Lsub => Kind::LivelinessSubscriber,
    }
}

// The gate of what an undeclaration names.
fn undeclared_key(event: &Event) -> Option<Key>
    ensures { result ≡ undeclared_key event.now }
{
    match event {
        Event::Undeclare { kind, id } => Some(Key::Of(kind_of(*kind), *id)),
        _ => None,
    }
}

impl<H: Handler<Item> + Drop, B: Books> Session<H, B> {
    /// Steps the session by an undeclaration, and marks the gate of what it names in the same hold of the lock, where the event
    /// is accepted: the gate, if the session still held one, for whoever waits until its callbacks have ended.
    ///
    /// # Errors
    ///
    /// `Refused`: `NotFound` where nothing of that kind and number lives or it was left to itself, unless the session
    /// is closed; an event that is no undeclaration is refused as by `tell`. Else `NoMemory`: no event was taken.
    pub fn submit_and_drain<R: Wait>(
        &self,
        rt: &R,
        event: Event,
        caller: &mut Caller<B>,
    ) -> Result<Option<Closing<H>>, SessionError>
        requires { numbered_at event ≡ false }
        ensures ok { IfOk result (λ closing. AcceptsFor B.Entries.settings H.evicts caller.old caller.new event false None (undeclared_key event) (is_some closing)) }
        ensures err { IfErr result (λ why. Stops B.Entries.settings H.evicts caller.old caller.new event false why) }
    {
        let key = undeclared_key(&event);
        self.tell_and_drain(rt, event, key, caller)
    }
}
