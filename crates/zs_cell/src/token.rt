//! Cancellation tokens of a session.
ghost use Rattle.std.specs.Prelude.{◌≡◌, false, IfErr, OnOk};
ghost use Rattle.zs_events.specs.declared.event.Event.TheVariants.{Cancel};
ghost use Rattle.zs_posts.specs.declared.key.Key.{Key};
ghost use Rattle.zs_cell.specs.Steps.{AcceptsAsking, Stops};

use crate::error::SessionError;
use crate::session::Session;
use std::marker::Model;
use std::sync::Wait;
use zs_books::Books;
use zs_events::Event;
use zs_handlers::Handler;
use zs_held::Receipt;
use zs_posts::Key;
use zs_turns::Item;

type Caller<B> = zs_books::Caller<B, Receipt<B>>;

/// A cancellation token of a session: gets that were given it are cancelled together. One that is dropped uncancelled
/// keeps its gate in the session for as long as the session lives: the close doesn't end it. Contracts see the session
/// and the number.
#[derive(Drop)]
pub struct SessionToken<H, B: Books> {
    session: Session<H, B>,
    number: u32,
}

impl<H, B: Books> Model for SessionToken<H, B> {
    ghost use Rattle.zs_cell.specs.Places.{TokenSeen};

    ghost Value = { TokenSeen };

    ghost view = { λ t. record { session = t.session; number = t.number } };
}

impl<H: Drop, B: Books> SessionToken<H, B> {
    /// The cancellation token that the session drew that number for.
    pub(crate) fn of(session: Session<H, B>, number: u32) -> SessionToken<H, B>
        ensures { result ≡ record { session = session; number = number } }
    {
        SessionToken { session, number }
    }

    /// The number of the token.
    pub fn number(&self) -> u32
        ensures { result ≡ self.now.number }
    {
        self.number
    }

    /// The tag of its session.
    pub fn tag(&self) -> u64
        ensures { result ≡ self.now.session.tag }
    {
        self.session.tag()
    }

    /// Whether the token was cancelled, while the session was open.
    pub fn is_cancelled<R: Wait>(&self, rt: &R) -> bool {
        self.session.is_taken(rt, self.number)
    }
}

impl<H: Handler<Item> + Drop, B: Books> SessionToken<H, B> {
    /// Cancels all gets that were given the token. The first accepted cancel also waits until no callback of them is under way;
    /// it never returns to whoever is inside of one.
    ///
    /// # Errors
    ///
    /// `NoMemory` alone: no event was taken. No cancel is refused, neither behind another one nor behind the close.
    pub fn cancel<R: Wait>(&self, rt: &R, caller: &mut Caller<B>) -> Result<(), SessionError>
        ensures ok { OnOk result (AcceptsAsking B.Entries.settings H.evicts caller.old caller.new (Cancel self.now.number) (Key.CancelToken self.now.number)) }
        ensures err { IfErr result (λ why. Stops B.Entries.settings H.evicts caller.old caller.new (Cancel self.now.number) false why) }
    {
        let event = Event::Cancel {
            cancellation_token: self.number,
        };
        self.session
            .tell_and_wait(rt, event, Key::CancelToken(self.number), caller)
    }
}
