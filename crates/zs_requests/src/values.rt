//! Query values, and the numbers of a request's values.

ghost use Rattle.std.specs.Prelude.{◌≡◌, ◌+◌, ◌^◌, ◌<◌, ◌==◌, length, filter, IfOk};
ghost use Rattle.std.specs.List.{list_any, AllByRecursion};
ghost use Rattle.std.specs.Option.{option_copied};
ghost use Rattle.zs_rows.specs.Rows.{AreNumbered, rows_of};
ghost use Rattle.zs_rows.specs.Ascending.{Ascend};
ghost use Rattle.zs_requests.specs.Unfinished.{values_from, value_at, is_between};
ghost use Rattle.zs_requests.specs.ValueRows.{IsAnother};

use crate::query_value::QueryValue;
use crate::request_row::RequestRow;
use std::alloc::{AllocError, Global};
use zs_rows::{Index, Rows};

/// The value of that number.
pub(crate) fn find_value(values: &Rows<QueryValue>, number: u32) -> Option<&QueryValue>
    requires { AreNumbered (λ v. v.value) values.now }
    ensures { option_copied result ≡ value_at number (rows_of values.now) }
{
    values.find(number)
}

/// A value for each queryable, numbered from `first` on.
pub(crate) fn make_values(
    alloc: Global,
    row: RequestRow,
    request: u64,
    queryables: &[u32],
    first: u32,
) -> Result<Vec<QueryValue>, AllocError>
    requires { first + length queryables.now < 2 ^ 32 }
    ensures { IfOk result (λ made. made.items ≡ values_from first request row queryables.now) }
{
    let mut made = Vec::with_capacity(alloc, queryables.len())?;
    let mut value = first;
    for queryable in queryables {
        made.push(QueryValue {
            value,
            queryable: *queryable,
            request,
            row: row.try_clone(alloc)?,
        })?;
        value += 1;
    }
    Ok(made)
}

/// One more value of the same request and queryable.
pub(crate) fn make_share(
    alloc: Global,
    value: &QueryValue,
    new: u32,
) -> Result<QueryValue, AllocError>
    ensures { IfOk result (λ made. made ≡ record value.now { value = new }) }
{
    let row = value.row.try_clone(alloc)?;
    Ok(QueryValue {
        value: new,
        queryable: value.queryable,
        request: value.request,
        row,
    })
}

/// Whether a value has a number from `first` on that is below `end`.
pub(crate) fn is_used(values: &Rows<QueryValue>, first: u32, end: u32) -> bool
    ensures { result ≡ list_any (λ e. is_between first end e.0) values.now }
{
    values
        .iter()
        .any(|(number, _value)| *number >= first && *number < end)
}

/// Whether another number than that of a value stands under its request.
pub(crate) fn has_other(requests: &Index, value: &QueryValue) -> bool
    ensures { IsAnother value.now.request value.now.value requests.now result }
{
    if requests.next_under(value.request, value.value).is_some() {
        return true;
    }
    match requests.first_under(value.request) {
        Some(first) => first < value.value,
        None => false,
    }
}

/// How many values a request has. They have as many numbers, all of one type.
pub(crate) fn count_of(values: &Rows<QueryValue>, request: u64) -> u32
    requires below { AllByRecursion (λ e. e.0 < 4294967295) values.now }
    ensures { result ≡ length (filter (λ e. e.1.request == request) values.now) }
{
    number_of(values, request) as u32
}

/// The same count as a `usize`. It fits into a `u32`, as the numbers of values ascend.
fn number_of(values: &Rows<QueryValue>, request: u64) -> usize
    ensures count { result ≡ length (filter (λ e. e.1.request == request) values.now) }
    ensures ascending { Ascend (λ e. e.0) values.now }
{
    values
        .iter()
        .filter(|entry| entry.1.request == request)
        .count()
}
