//! A group whose members are liveliness tokens, over two linked sessions: who joined under which name, how often, and whom each
//! side sees.
#![tactic(auto)]

pub use laws::views_show_members;
pub use running::group_run;

mod laws;
mod machine;
mod running;
mod sides;
