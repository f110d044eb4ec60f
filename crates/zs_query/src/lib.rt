//! The gets of a session that are open. It passes on the requests (`zs_requests`).
#![tactic(auto)]

pub use ends::Ends;
pub use get_row::GetRow;
pub use get_table::GetTable;
pub use gets::Gets;
pub use laws::{
    ended_gets_stay, gets_stand_for_replies, hands_last, kept_is_free_of_order,
    kept_is_last_passing, open_gets_are_told, opens_last,
};
pub use outcome::{Outcome, Peek};
pub use replies::Replies;
pub use side::Side;
pub use zs_requests::{
    Finished, Finishing, QueryData, RequestRow, RequestTable, Requests, ended_requests_stay,
    values_are_told,
};

mod ends;
mod get_marks;
mod get_row;
mod get_rows;
mod get_table;
mod gets;
mod kept_replies;
mod last_times;
mod laws;
mod open_get;
mod outcome;
mod replies;
mod side;
mod timeout;
mod timestamps;
