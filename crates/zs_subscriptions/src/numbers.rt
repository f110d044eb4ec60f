//! The numbers of either mapping.

ghost use Rattle.std.specs.Prelude.{◌≡◌, ◌==◌};
ghost use Rattle.std.specs.List.{find};
ghost use Rattle.std.specs.Option.{option_copied};
ghost use Rattle.zs_subscriptions.specs.Lists.{chosen};

use crate::number_row::NumberRow;
use crate::number_rows::NumberRows;
use zs_wire::Mapping;

/// The row of a number of that mapping.
pub(crate) fn find_in<'a>(
    mapping: Mapping,
    own: &'a NumberRows,
    told: &'a NumberRows,
    number: u16,
) -> Option<&'a NumberRow>
    ensures { option_copied result ≡ find (λ row. row.number == number) (chosen mapping own.now told.now) }
{
    match mapping {
        Mapping::Receiver => own.find(number),
        Mapping::Sender => told.find(number),
    }
}
