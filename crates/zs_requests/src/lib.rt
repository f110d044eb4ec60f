//! What requests ask, the query values that a session has handed out for them, and what a value knows of its request.
#![tactic(auto)]

pub use laws::{ended_requests_stay, values_are_told};
pub use query_data::QueryData;
pub use request_row::{RequestRow, clone_key};
pub use request_table::RequestTable;
pub use requests::{Finished, Finishing, Requests};

mod laws;
mod query_data;
mod query_value;
mod request_row;
mod request_table;
mod requests;
mod values;
