//! The ends of gets at their deadlines.

ghost use Rattle.std.specs.Prelude.{◌≡◌, ◌++◌, IfOk, OnOk};
ghost use Rattle.zs_rows.specs.Ascending.{Ascend};
ghost use Rattle.zs_rows.specs.Rows.{row_at};
ghost use Rattle.zs_query.specs.Gets.{timeout_error, end_of, end_at, ends_from};

use crate::ends::Ends;
use crate::open_get::OpenGet;
use crate::replies::Replies;
use std::alloc::{AllocError, Global};
use zs_rows::{Numbers, Rows};
use zs_sample::{Encoding, Reply, ReplyError, ZBytes};

/// The ends of the gets of these numbers.
pub(crate) fn ends_of(
    alloc: Global,
    rows: &Rows<OpenGet>,
    numbers: &Numbers,
) -> Result<Ends, AllocError>
    ensures ends { IfOk result (λ ends. ends ≡ ends_from numbers.now rows.now) }
    ensures ascending { Ascend (λ n. n) numbers.now }
{
    let mut ends = Vec::new(alloc);
    for number in numbers.iter() {
        push_end(alloc, &mut ends, rows, *number)?;
    }
    Ok(Ends::of(ends))
}

/// Pushes the end of the get of that number.
fn push_end(
    alloc: Global,
    ends: &mut Vec<(u32, Replies)>,
    rows: &Rows<OpenGet>,
    number: u32,
) -> Result<(), AllocError>
    ensures { OnOk result (ends.new.items ≡ ends.old.items ++ end_at number (row_at number rows.now)) }
{
    let Some(get) = rows.find(number) else {
        return Ok(());
    };
    ends.push((number, last_replies(alloc, get)?))?;
    Ok(())
}

/// What a get hands out at its deadline.
fn last_replies(alloc: Global, get: &OpenGet) -> Result<Replies, AllocError>
    ensures { IfOk result (λ replies. replies ≡ (end_of get.now).1) }
{
    let mut replies = get.kept.copies(alloc)?;
    replies.push(timeout_error(alloc)?)?;
    Ok(Replies::of(replies))
}

/// The error that Zenoh hands out at a deadline: the text `Timeout`, from no replier.
fn timeout_error(alloc: Global) -> Result<Reply, AllocError>
    ensures { IfOk result (λ error. error ≡ timeout_error) }
{
    let payload = ZBytes::from_str(alloc, "Timeout")?;
    let error = ReplyError::of(payload, Encoding::ZENOH_STRING);
    Ok(Reply::of(Err(error), None))
}
