//! Cancellation tokens: of each the session keeps no more than whether it was taken.

ghost use Rattle.std.specs.Prelude.{◌≡◌, IfOk};
ghost use Rattle.zs_model.specs.Cancelling.{is_drawn, is_any, is_among};
ghost use Rattle.zs_world.specs.Decisions.{open_decision};

use std::alloc::AllocError;
use zs_events::{Effects, Event, Refusal};
use zs_making::ended_gets::{Ender, push_cut_gets};
use zs_making::tokens::push_asking_ends;
use zs_world::{CancellationChange, Change, Decision, SessionTables};

/// A cancellation token is made: it draws the next number of a count of its own. `IdsExhausted` where none is left.
pub(super) fn decide_cancel_token(world: &SessionTables) -> Result<Decision, AllocError>
    ensures { IfOk result (λ made. made ≡ open_decision world.now Event.CancelToken) }
{
    let number = world.next_cancellation_token;
    if u32::MAX - number < 1 {
        return Ok(Decision::refused(world.alloc, Refusal::IdsExhausted));
    }
    let change = Change::OfCancellation(CancellationChange::Draw);
    Ok(Decision::quiet(world.alloc, Some(number), change))
}

/// A cancellation token is taken: the open gets that have it end, those of liveliness tokens too. `NotFound` where it
/// was never made; one that was taken may be taken again.
pub(super) fn decide_cancel(
    world: &SessionTables,
    cancellation_token: u32,
) -> Result<Decision, AllocError>
    ensures { IfOk result (λ made. made ≡ open_decision world.now (Event.Cancel cancellation_token)) }
{
    if !is_drawn(world, Some(cancellation_token)) {
        return Ok(Decision::refused(world.alloc, Refusal::NotFound));
    }
    let mut effects = Effects::new(world.alloc);
    let asking = world
        .liveliness
        .gets()
        .numbers_with(world.alloc, cancellation_token)?;
    push_cut_gets(
        world.asking.gets(),
        Ender::CancellationToken(cancellation_token),
        &mut effects,
    )?;
    push_asking_ends(&asking, &mut effects)?;
    let change = Change::OfCancellation(CancellationChange::Take { cancellation_token });
    Ok(Decision::of(effects, change))
}

/// Whether a cancellation token was drawn, if one is named.
pub(super) fn is_drawn(world: &SessionTables, cancellation_token: Option<u32>) -> bool
    ensures { result ≡ is_drawn world.now.cancelling.next cancellation_token }
{
    match cancellation_token {
        Some(cancellation_token) => cancellation_token < world.next_cancellation_token,
        None => true,
    }
}

/// Whether a cancellation token was taken, if one is named.
pub(super) fn was_cancelled(world: &SessionTables, cancellation_token: Option<u32>) -> bool
    ensures { result ≡ is_any (is_among world.now.cancelling.taken) cancellation_token }
{
    match cancellation_token {
        Some(cancellation_token) => world.taken_cancellation_tokens.contains(cancellation_token),
        None => false,
    }
}
