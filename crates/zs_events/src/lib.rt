//! What can happen to a session, and what it makes of it: events, answers and effects, as plain data.
#![tactic(auto)]

pub use chan::Chan;
pub use entity_kind::{BackgroundKind, EntityKind, ParentKind};
pub use event::Event;
pub use inquiry::{Inquiry, QuerySettings};
pub use key_arg::KeyArg;
pub use publication::{Content, PublicationQuality, PublisherSettings, ReplyQuality};
pub use received::Received;
pub use script_event::ScriptEvent;
pub use turn::{Answer, Effect, Effects, HandOver, Kind, Refusal, Turn};
pub use update::{PushBody, Update, clone_bytes, default_encoding};
pub use zs_shared::Shared;

mod chan;
mod entity_kind;
mod event;
mod inquiry;
mod key_arg;
mod publication;
mod received;
mod script_event;
mod turn;
mod update;
