//! Which kinds can have channels.
ghost use Rattle.std.specs.Prelude.{◌≡◌};
ghost use Rattle.zs_channels.specs.Table.{shelf_of};

use zs_events::Kind;

/// Where the channels of a kind stand.
#[derive(Clone, Copy, Debug, PartialEq, Eq)]
pub(crate) enum Shelf {
    Subscribers,
    Gets,
    LivelinessGets,
}

/// That of a kind, if such can have channels.
pub(crate) fn shelf_of(kind: Kind) -> Option<Shelf>
    ensures { result ≡ shelf_of kind }
{
    match kind {
        Kind::Subscriber => Some(Shelf::Subscribers),
        Kind::Get => Some(Shelf::Gets),
        Kind::LivelinessGet => Some(Shelf::LivelinessGets),
        Kind::LivelinessSubscriber => None,
        Kind::Publisher => None,
        Kind::Queryable => None,
        Kind::Querier => None,
        Kind::Token => None,
        Kind::Listener => None,
    }
}
