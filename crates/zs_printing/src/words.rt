//! The words that stand for values in printed lines.

ghost use Rattle.std.specs.Prelude.{◌≡◌};
ghost use Rattle.zs_printing.specs.Words.{refusal_name, kind_word, sample_word, congestion_word, flag_digit, is_reliable, complete_word, truth_word, target_word, consolidation_word, mode_word, what_word};

use zs_events::{Kind, Refusal};
use zs_sample::{CongestionControl, ConsolidationMode, QueryTarget, Reliability, SampleKind};
use zs_wire::{InterestMode, InterestWhat};

/// A refusal's name.
pub fn refusal_name(refusal: Refusal) -> &'static str
    ensures { result.now ≡ refusal_name refusal }
{
    match refusal {
        Refusal::SessionClosedError => "SessionClosedError",
        Refusal::NotFound => "NotFound",
        Refusal::UnknownScope => "UnknownScope",
        Refusal::BadKeyExpr => "BadKeyExpr",
        Refusal::QueryCancelled => "QueryCancelled",
        Refusal::ReplyDisjoint => "ReplyDisjoint",
        Refusal::NotDeclared => "NotDeclared",
        Refusal::IdsExhausted => "IdsExhausted",
        Refusal::Ignored => "Ignored",
    }
}

/// The word for what a number is of.
pub fn kind_word(kind: Kind) -> &'static str
    ensures { result.now ≡ kind_word kind }
{
    match kind {
        Kind::Subscriber => "sub",
        Kind::LivelinessSubscriber => "lsub",
        Kind::Publisher => "pub",
        Kind::Queryable => "queryable",
        Kind::Querier => "querier",
        Kind::Token => "token",
        Kind::Listener => "listener",
        Kind::Get => "get",
        Kind::LivelinessGet => "lget",
    }
}

/// The word for what a sample does.
pub fn sample_word(kind: SampleKind) -> &'static str
    ensures { result.now ≡ sample_word kind }
{
    match kind {
        SampleKind::Put => "put",
        SampleKind::Delete => "del",
    }
}

/// The word for what happens where a queue is full.
pub fn congestion_word(congestion: CongestionControl) -> &'static str
    ensures { result.now ≡ congestion_word congestion }
{
    match congestion {
        CongestionControl::Drop => "drop",
        CongestionControl::Block => "block",
    }
}

/// A flag's digit.
pub fn flag_digit(flag: bool) -> &'static str
    ensures { result.now ≡ flag_digit flag }
{
    if flag { "1" } else { "0" }
}

/// Whether a message may not be lost.
pub fn is_reliable(reliability: Reliability) -> bool
    ensures { result ≡ is_reliable reliability }
{
    match reliability {
        Reliability::BestEffort => false,
        Reliability::Reliable => true,
    }
}

/// The word for whether a queryable has all that is there.
pub fn complete_word(complete: bool) -> &'static str
    ensures { result.now ≡ complete_word complete }
{
    if complete { "complete" } else { "partial" }
}

/// The word for whether anyone matches.
pub fn truth_word(matching: bool) -> &'static str
    ensures { result.now ≡ truth_word matching }
{
    if matching { "true" } else { "false" }
}

/// The word for whom a query reaches.
pub fn target_word(target: QueryTarget) -> &'static str
    ensures { result.now ≡ target_word target }
{
    match target {
        QueryTarget::BestMatching => "best",
        QueryTarget::All => "all",
        QueryTarget::AllComplete => "allcomplete",
    }
}

/// The word for which replies of a query are kept.
pub fn consolidation_word(mode: ConsolidationMode) -> &'static str
    ensures { result.now ≡ consolidation_word mode }
{
    match mode {
        ConsolidationMode::Auto => "auto",
        ConsolidationMode::None => "none",
        ConsolidationMode::Monotonic => "monotonic",
        ConsolidationMode::Latest => "latest",
    }
}

/// The word for when an interest is in declarations.
pub fn mode_word(mode: InterestMode) -> &'static str
    ensures { result.now ≡ mode_word mode }
{
    match mode {
        InterestMode::Current => "current",
        InterestMode::Future => "future",
        InterestMode::CurrentFuture => "currentfuture",
        InterestMode::Final => "final",
    }
}

/// The word for what an interest is in.
pub fn what_word(what: InterestWhat) -> &'static str
    ensures { result.now ≡ what_word what }
{
    match what {
        InterestWhat::Subscribers => "subscribers",
        InterestWhat::Queryables => "queryables",
        InterestWhat::Tokens => "tokens",
        InterestWhat::Nothing => "none",
    }
}
