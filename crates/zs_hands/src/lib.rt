//! Calls of handlers inside of their gates, and the ends of handlers.
//!
//! A call is made inside of the session's gate, the parent's, the token's and the handler's own, as far as there is each:
//! it enters them in that order and leaves them in the opposite one. Where one of them is marked, its pass comes back, the
//! handler isn't called and those that were entered before are left all the same.
//!
//! A type of this crate that stands for a duty has no `Drop`: a program that lets it go doesn't compile.
#![tactic(auto)]

mod calling;
mod ending;
mod handed;
mod hands;
mod run;

pub use calling::Under;
pub use ending::{Closing, Ending};
pub use handed::{Handed, RanCall};
pub use hands::{Hands, HandsRoom, Ran};
