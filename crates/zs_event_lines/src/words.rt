//! The words that stand for values in the lines of events, and the values that stand for absent options.

ghost use Rattle.std.specs.Prelude.{◌≡◌};
ghost use Rattle.zs_event_lines.specs.Shown.{locality_word, entity_word, background_word, parent_word, history_word, is_best, is_auto, is_congestion};

use zs_events::{BackgroundKind, EntityKind, ParentKind};
use zs_sample::{CongestionControl, ConsolidationMode, Locality, QueryTarget};

/// The word for whose publications are taken, or who is handed them.
pub(crate) fn locality_word(locality: Locality) -> &'static str
    ensures { result.now ≡ locality_word locality }
{
    match locality {
        Locality::Any => "any",
        Locality::SessionLocal => "local",
        Locality::Remote => "remote",
    }
}

/// The word for what can be undeclared by its number.
pub(crate) fn entity_word(kind: EntityKind) -> &'static str
    ensures { result.now ≡ entity_word kind }
{
    match kind {
        EntityKind::Sub => "sub",
        EntityKind::Pub => "pub",
        EntityKind::Queryable => "queryable",
        EntityKind::Querier => "querier",
        EntityKind::Listener => "listener",
        EntityKind::Token => "token",
        EntityKind::Lsub => "lsub",
    }
}

/// The word for what can be left to itself.
pub(crate) fn background_word(kind: BackgroundKind) -> &'static str
    ensures { result.now ≡ background_word kind }
{
    match kind {
        BackgroundKind::Sub => "sub",
        BackgroundKind::Queryable => "queryable",
        BackgroundKind::Listener => "listener",
        BackgroundKind::Lsub => "lsub",
    }
}

/// The word for whose matching is asked for.
pub(crate) fn parent_word(kind: ParentKind) -> &'static str
    ensures { result.now ≡ parent_word kind }
{
    match kind {
        ParentKind::Pub => "pub",
        ParentKind::Querier => "querier",
    }
}

/// The word for whether a liveliness subscriber is told of what lives already.
pub(crate) fn history_word(flag: bool) -> &'static str
    ensures { result.now ≡ history_word flag }
{
    if flag { "history" } else { "live" }
}

/// Whether it is whom queries reach that don't say it.
pub(crate) fn is_best(target: QueryTarget) -> bool
    ensures { result ≡ is_best target }
{
    match target {
        QueryTarget::BestMatching => true,
        QueryTarget::All => false,
        QueryTarget::AllComplete => false,
    }
}

/// Whether it is how replies are kept where nothing is said of it.
pub(crate) fn is_auto(mode: ConsolidationMode) -> bool
    ensures { result ≡ is_auto mode }
{
    match mode {
        ConsolidationMode::Auto => true,
        ConsolidationMode::None => false,
        ConsolidationMode::Monotonic => false,
        ConsolidationMode::Latest => false,
    }
}

/// Whether it is what absence gives.
pub(crate) fn is_congestion(absent: CongestionControl, congestion: CongestionControl) -> bool
    ensures { result ≡ is_congestion absent congestion }
{
    match absent {
        CongestionControl::Drop => match congestion {
            CongestionControl::Drop => true,
            CongestionControl::Block => false,
        },
        CongestionControl::Block => match congestion {
            CongestionControl::Drop => false,
            CongestionControl::Block => true,
        },
    }
}
