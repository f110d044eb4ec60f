//! What a session answers of itself without an event.

ghost use Rattle.std.specs.Prelude.{◌≡◌};
ghost use Rattle.zs_standing.specs.Stands.{ClosedIs, NowIs, IsHeld, IsLive, IsTaken};

use zs_events::Kind;
use zs_world::SessionTables;

/// The greatest moment that has come, 0 where none has.
pub(crate) fn now(world: &SessionTables) -> u64
    ensures now { result ≡ world.now.asking.moment }
    ensures told { NowIs world.now result }
{
    world.asking.moment()
}

/// Whether the session was closed.
pub(crate) fn is_closed(world: &SessionTables) -> bool
    ensures now { result ≡ world.now.closed }
    ensures told { ClosedIs world.now result }
{
    world.closed
}

/// Whether that number is held: a key that the session declared under it was not given back as often as it was declared.
pub(crate) fn held(world: &SessionTables, number: u16) -> bool
    ensures { IsHeld world.now number result }
{
    world.holders.has(number)
}

/// Whether that cancellation token was taken: a cancel named it, while the session was open.
pub(crate) fn is_taken(world: &SessionTables, token: u32) -> bool
    ensures { IsTaken world.now token result }
{
    world.taken_cancellation_tokens.contains(token)
}

/// Whether the application declared something of that kind under that number which lives still, or asked a get under it that
/// is open.
pub(crate) fn is_live(world: &SessionTables, kind: Kind, id: u32) -> bool
    ensures { IsLive world.now kind id result }
{
    match kind {
        Kind::Subscriber => world.tables.has(id),
        Kind::Publisher => world.publishers.has(id),
        Kind::Queryable => world.has_queryable(id),
        Kind::Querier => world.queriers.has(id),
        Kind::Get => world.asking.gets().is_open(id),
        Kind::Token => world.liveliness.has_token(id),
        Kind::LivelinessSubscriber => world.liveliness.subs().has(id),
        Kind::LivelinessGet => world.liveliness.gets().is_open(id),
        Kind::Listener => world.matching.listeners().has(id),
    }
}
