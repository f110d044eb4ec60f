//! Gets that end whatever they miss, and hand nothing out.

ghost use Rattle.std.specs.Prelude.{◌≡◌, ◌++◌, OnOk, filter};
ghost use Rattle.std.specs.Option.{option_copied};
ghost use Rattle.zs_query.specs.Ascending.{Ascend};
ghost use Rattle.zs_query.specs.Asked.{is_end};
ghost use Rattle.zs_query.specs.Gets.{is_behind, first_row};
ghost use Rattle.zs_model.specs.GetEffects.{cut_effects};
ghost use Rattle.zs_making.specs.Spoken.{ender_news};

use crate::get_effects::end_get;
use std::alloc::AllocError;
use zs_events::Effects;
use zs_query::{GetRow, Gets};

/// What ends gets.
#[derive(Clone, Copy)]
pub enum Ender {
    /// The end of the querier that asked them.
    Querier(u32),
    /// The cancellation token that they have.
    CancellationToken(u32),
}

/// Adds the end of each of the open gets that it ends, ascending. It looks at no others.
pub fn push_cut_gets(gets: &Gets, ender: Ender, effects: &mut Effects) -> Result<(), AllocError>
    ensures { OnOk result (effects.new ≡ effects.old ++ cut_effects (ender_news ender) gets.now) }
{
    let mut after = None;
    'gets: while let Some(row) = next_cut(gets, ender, after) {
        effects.push(end_get(row.number))?;
        after = Some(row.number);
    }
    Ok(())
}

/// The get that it ends with the least number above that one, or with the least of all.
fn next_cut(gets: &Gets, ender: Ender, after: Option<u32>) -> Option<&GetRow>
    ensures next { option_copied result ≡ first_row (filter (λ g. is_behind after g.row.number) (filter (λ g. is_end g.row (ender_news ender)) gets.now)) }
    ensures ascending { Ascend (λ g. g.row.number) gets.now }
{
    match ender {
        Ender::Querier(id) => gets.next_of_querier(id, after),
        Ender::CancellationToken(token) => gets.next_of_cancellation_token(token, after),
    }
}
