//! Puts, deletes, gets and replies: each is a builder, and its `wait` steps the session by one event.
//!
//! A builder begins with what nothing is said of; each setter says one thing, and changes nothing else. The calls stand in
//! traits, so that they are methods of a session and of a query.
#![tactic(auto)]

pub use get::SessionGetBuilder;
pub use publication::{
    ByPublisher, OnKey, PublicationBuilder, PublicationBuilderDelete, PublicationBuilderPut,
    PublisherDeleteBuilder, PublisherPutBuilder, SessionDeleteBuilder, SessionPutBuilder,
};
pub use querier_get::QuerierGetBuilder;
pub use query_calls::{QueryCalls, QuerySamples, QueryValues};
pub use reply::{ReplyBuilder, ReplyBuilderDelete, ReplyBuilderPut};
pub use reply_err::ReplyErrBuilder;
pub use reply_sample::ReplySample;
pub use session_calls::SessionCalls;
pub use unspent::Unspent;
pub use zs_cancel::{
    AddError, CancelFailed, CancelResult, CancellationToken, Handlers, Job, JobFailed, NotAdded,
    Outcome, TokenState,
};
pub use zs_cell::key_arg;

mod events;
mod get;
mod publication;
mod querier_get;
mod query_calls;
mod reply;
mod reply_err;
mod reply_sample;
mod session_calls;
mod stepping;
mod texts;
mod unspent;
