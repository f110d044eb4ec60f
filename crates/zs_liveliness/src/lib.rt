//! The liveliness tokens that the other side told, the live subscribers to liveliness, and the open liveliness gets.
#![tactic(auto)]

pub use liveliness_get::LivelinessGet;
pub use liveliness_gets::LivelinessGets;
pub use liveliness_sub::LivelinessSub;
pub use liveliness_subs::LivelinessSubs;
pub use remote_token::RemoteToken;
pub use remote_tokens::RemoteTokens;

mod asking_gets;
mod asking_marks;
mod liveliness_get;
mod liveliness_gets;
mod liveliness_sub;
mod liveliness_subs;
mod remote_token;
mod remote_tokens;
