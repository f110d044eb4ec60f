//! The passes of one call.
use crate::pass::Lent;

/// The passes of one call: one of each gate that it is made inside of. The session's, the parent's and the token's are
/// missing where there is no such gate any more.
#[derive(Drop)]
pub struct Passes {
    pub own: Lent,
    pub session: Option<Lent>,
    pub parent: Option<Lent>,
    pub token: Option<Lent>,
}
