//! What an application declares in a session: subscribers, publishers, queryables, queriers, liveliness tokens and listeners to
//! matching, each by a builder whose `wait` steps the session by one event.
//!
//! What was declared must be spent: no entity can be dropped. It is undeclared, left to itself, or abandoned, and then it lives
//! on until the session is closed.
#![tactic(auto)]

pub use background::BackgroundBuilder;
pub use liveliness::Liveliness;
pub use liveliness_get::LivelinessGetBuilder;
pub use liveliness_subscriber::LivelinessSubscriberBuilder;
pub use liveliness_token::LivelinessToken;
pub use liveliness_token_builder::LivelinessTokenBuilder;
pub use matching_listener::MatchingListener;
pub use matching_listener_builder::MatchingListenerBuilder;
pub use publisher::Publisher;
pub use publisher_builder::PublisherBuilder;
pub use querier::Querier;
pub use querier_builder::QuerierBuilder;
pub use queryable::Queryable;
pub use queryable_builder::QueryableBuilder;
pub use session_entities::{SessionEntities, SessionLiveliness};
pub use subscriber::Subscriber;
pub use subscriber_builder::SubscriberBuilder;
pub use undeclaration::Undeclaration;

mod background;
mod liveliness;
mod liveliness_get;
mod liveliness_subscriber;
mod liveliness_token;
mod liveliness_token_builder;
mod matching_listener;
mod matching_listener_builder;
mod publisher;
mod publisher_builder;
mod querier;
mod querier_builder;
mod queryable;
mod queryable_builder;
mod session_entities;
mod subscriber;
mod subscriber_builder;
mod undeclaration;
