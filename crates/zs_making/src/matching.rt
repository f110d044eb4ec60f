//! Matching: listeners, whether anyone matches, and whom the network tells.

ghost use Rattle.std.specs.Prelude.{◌≡◌, Some, IfOk};
ghost use Rattle.zs_tables.specs.Listeners.{listed};
ghost use Rattle.zs_model.specs.Listeners.{on_pub, on_querier, sought_by};
ghost use Rattle.zs_model.specs.Matching.{as_number};

use std::alloc::{AllocError, Global};
use zs_model::{PubRow, QuerierRow, copy_of};
use zs_sample::QueryTarget;
use zs_tables::{ListenerRow, Sought};

/// A listener to a publisher.
pub fn on_pub(alloc: Global, number: u32, row: &PubRow) -> Result<Option<ListenerRow>, AllocError>
    ensures { IfOk result (λ made. listed made ≡ on_pub number (Some row.now)) }
{
    let key = copy_of(alloc, &row.key)?;
    Ok(Some(ListenerRow {
        id: number,
        parent: row.id,
        destination: row.settings.get().destination,
        sought: Sought::Subscribers,
        key,
    }))
}

/// A listener to a querier.
pub fn on_querier(
    alloc: Global,
    number: u32,
    row: &QuerierRow,
) -> Result<Option<ListenerRow>, AllocError>
    ensures { IfOk result (λ made. listed made ≡ on_querier number (Some row.now)) }
{
    let key = copy_of(alloc, &row.key)?;
    Ok(Some(ListenerRow {
        id: number,
        parent: row.id,
        destination: row.settings.destination,
        sought: sought_by(row.settings.target),
        key,
    }))
}

/// What a listener to a querier with this target listens for.
fn sought_by(target: QueryTarget) -> Sought
    ensures { result ≡ sought_by target }
{
    match target {
        QueryTarget::AllComplete => Sought::CompleteQueryables,
        QueryTarget::All | QueryTarget::BestMatching => Sought::Queryables,
    }
}

/// An answer as a number.
pub fn as_number(answer: bool) -> u32
    ensures { result ≡ as_number answer }
{
    if answer { 1 } else { 0 }
}
