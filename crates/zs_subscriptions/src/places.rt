//! Places in ascending lists, by binary search.

ghost use Rattle.std.specs.Prelude.{◌≡◌, filter};
ghost use Rattle.zs_subscriptions.specs.Ascending.{Ascend, IsPlaceOf};
ghost use Rattle.zs_subscriptions.specs.Recipients.{is_behind};

/// Where an id stands in a list, or where it would go.
pub(crate) fn id_place(ids: &[u32], id: u32) -> Result<usize, usize>
    requires { Ascend (λ id. id) ids.now }
    ensures { IsPlaceOf (λ id. id) id ids.now result }
{
    ids.binary_search(&id)
}

/// Where a number stands in a list, or where it would go.
pub(crate) fn number_place(numbers: &[u16], number: u16) -> Result<usize, usize>
    requires { Ascend (λ n. n) numbers.now }
    ensures { IsPlaceOf (λ n. n) number numbers.now result }
{
    numbers.binary_search(&number)
}

/// The ids behind the last one, if there was one.
pub(crate) fn ids_behind(ids: &[u32], after: Option<u32>) -> &[u32]
    requires { Ascend (λ id. id) ids.now }
    ensures { result.now ≡ filter (is_behind after) ids.now }
{
    let Some(after) = after else {
        return ids;
    };
    let start = ids.partition_point(|id| *id <= after);
    &ids[start..]
}
