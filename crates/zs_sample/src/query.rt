//! What a query says of the replies that it takes.
use std::marker::Model;
use zs_wire::ConsolidationMode;

/// Which replies a query takes: on any key, or on keys that its own key meets.
#[derive(Clone, Copy, Debug, PartialEq, Eq, Hash)]
pub enum ReplyKeyExpr {
    Any,
    MatchingQuery,
}

impl Default for ReplyKeyExpr {
    ghost use Rattle.std.specs.Prelude.{◌≡◌};
    ghost use Rattle.zs_sample.specs.declared.query.ReplyKeyExpr.{ReplyKeyExpr};

    ghost is_default = { λ r. r ≡ ReplyKeyExpr.MatchingQuery };

    /// Only replies on keys that the query's own key meets, Zenoh's default.
    fn default() -> ReplyKeyExpr {
        ReplyKeyExpr::MatchingQuery
    }
}

/// How replies on one key are thinned out. Contracts see the mode.
#[derive(Clone, Copy, Debug, PartialEq, Eq)]
pub struct QueryConsolidation {
    mode: ConsolidationMode,
}

impl Model for QueryConsolidation {
    ghost use Rattle.zs_wire.specs.declared.request.ConsolidationMode.{ConsolidationMode};

    ghost Value = { ConsolidationMode };

    ghost view = { λ c. c.mode };

    ghost inverse = { λ mode. record { mode = mode } };
}

ghost use Rattle.std.specs.Prelude.{◌≡◌};

impl QueryConsolidation {
    /// The session chooses the mode by the query.
    pub const AUTO: QueryConsolidation = QueryConsolidation {
        mode: ConsolidationMode::Auto,
    };

    /// What a query has by itself.
    pub const DEFAULT: QueryConsolidation = QueryConsolidation::AUTO;

    /// Thinned out in this mode.
    pub const fn from_mode(mode: ConsolidationMode) -> QueryConsolidation
        ensures { result ≡ mode }
    {
        QueryConsolidation { mode }
    }

    /// The mode.
    pub fn mode(&self) -> ConsolidationMode
        ensures { result ≡ self.now }
    {
        self.mode
    }
}

impl Default for QueryConsolidation {
    ghost use Rattle.zs_wire.specs.declared.request.ConsolidationMode.{ConsolidationMode};

    ghost is_default = { λ c. c ≡ ConsolidationMode.Auto };

    /// The session chooses, as in Zenoh.
    fn default() -> QueryConsolidation {
        QueryConsolidation::DEFAULT
    }
}
