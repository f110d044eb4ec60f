//! The values that a session hands out: samples and replies, with the encoding and quality of service in them, and
//! the small types that calls are told by.
#![tactic(auto)]

pub use encoding::Encoding;
pub use locality::{Locality, PublisherLocalityConf};
pub use matching::MatchingStatus;
pub use qos::{QoS, QoSBuilder};
pub use quality::{BadPriority, Priority, PriorityConf, Reliability};
pub use query::{QueryConsolidation, ReplyKeyExpr};
pub use reply::Reply;
pub use reply_error::ReplyError;
pub use sample::Sample;
pub use sample_fields::SampleFields;
pub use selector::Selector;
pub use zs_bytes::{Text, ZBytes};
pub use zs_wire::{
    CongestionControl, ConsolidationMode, EntityGlobalId, Parameters, QoSType, QueryTarget,
    SampleKind, SourceInfo, SourceSn, Timestamp, ZenohParameters,
};

mod encoding;
mod encoding_comparisons;
mod locality;
mod matching;
mod qos;
mod quality;
mod query;
mod reply;
mod reply_error;
mod sample;
mod sample_fields;
mod selector;
mod selector_display;
