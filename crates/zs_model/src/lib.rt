//! What a session is, by plain definitions over the events that it was given: which were accepted, what lives, which keys are held,
//! what each event is answered and brings about. The definitions stand in `specs/`; here are the types that they speak of.
#![tactic(auto)]

pub use aggregates::{aggregate_of, share_text};
pub use key_list::{KeyList, copy_of};
pub use localities::{has_network, has_session};
pub use owned_keys::into_owned;
pub use publisher::{Prefix, PubRow};
pub use querier::QuerierRow;
pub use settings::Settings;

mod aggregates;
mod key_list;
mod localities;
mod owned_keys;
mod publisher;
mod querier;
mod settings;
