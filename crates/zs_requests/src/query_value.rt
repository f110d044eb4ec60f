//! A query value as it is kept: whom it was handed to, and its request.
use crate::request_row::RequestRow;

/// A query value: a query as one queryable was handed it, or a share of one.
#[derive(Debug, Drop)]
pub(crate) struct QueryValue {
    pub(crate) value: u32,
    /// The queryable that was handed it.
    pub(crate) queryable: u32,
    /// How many requests were handed out before its own.
    pub(crate) request: u64,
    pub(crate) row: RequestRow,
}
