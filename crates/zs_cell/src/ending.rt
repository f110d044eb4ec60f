//! What has ended, and is to be told.
ghost use Rattle.std.specs.Prelude.{◌≡◌, option_map, IfOk, OnErr};
ghost use Rattle.std.specs.Arc.{arc_value};
ghost use Rattle.zs_exchange.specs.Ends.{IsIdle, GivesOut};

use zs_books::Books;
use zs_hands::Ending;
use zs_held::Held;

/// Shows that a session was asked for what has ended, and had nothing left: `next_ending` alone makes one.
#[derive(Drop)]
pub(crate) struct AllTold(());

/// What a session gives out first of that which has ended and that no call is inside of.
pub(crate) fn next_ending<H: Drop, B: Books>(held: &mut Held<H, B>) -> Result<Ending<H>, AllTold>
    ensures first { IfOk result (λ ending. GivesOut held.old.session.exchange.posts (option_map arc_value ending.handler) ending.drained held.new.session.exchange.posts) }
    ensures none { OnErr result (IsIdle held.old.session.exchange.posts) }
    ensures room { held.new.session.exchange.posts.room ≡ held.old.session.exchange.posts.room }
{
    match held.ending() {
        Some(ending) => Ok(ending),
        None => Err(AllTold(())),
    }
}
