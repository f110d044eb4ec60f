//! The plain data of what sessions tell each other.
#![tactic(auto)]

pub use body::{Body, Value};
pub use interest::{InterestMode, InterestWhat};
pub use message::Message;
pub use origin::{EntityGlobalId, SourceInfo, SourceSn, Timestamp};
pub use parameter_pairs::ParameterPairs;
pub use parameters::Parameters;
pub use push::Push;
pub use quality::{CongestionControl, QoSType};
pub use request::{ConsolidationMode, QueryTarget, Request};
pub use response::{Answered, Response};
pub use sample_kind::SampleKind;
pub use wire_expr::{Mapping, WireExpr};
pub use zenoh_parameters::ZenohParameters;
pub use zs_bytes::{Text, ZBytes, from_reader};

mod body;
mod comparisons;
mod interest;
pub mod laws;
mod message;
mod origin;
mod parameter_pairs;
mod parameter_text;
mod parameters;
mod push;
mod quality;
mod request;
mod response;
mod sample_kind;
mod wire_expr;
mod zenoh_parameters;
