//! Subscribers with numbers, and groups.

ghost use Rattle.std.specs.Prelude.{◌≡◌, ◌<◌, IsSome};
ghost use Rattle.zs_subscriptions.specs.Contents.{numbers_of};
ghost use Rattle.zs_subscriptions.specs.Numbers.{key_at};

use std::alloc::{AllocError, Global};
use std::marker::Brand;
use std::sync::ledger::{Blank, Ledger};
use zs_keys::{KeyError, KeyExpr, Steps};
use zs_sample::Locality;
use zs_tables::{GroupKind, Groups, SubRow, Tables};
use zs_wire::Mapping;

/// Whether subscriber 2 alone receives a publication by a key, and by number 7 of the other side.
fn reaches<L: Ledger>(
    tables: &Tables,
    key: &KeyExpr<'_>,
    found: &mut Vec<u32>,
    blank: Blank,
) -> bool
    requires known { IsSome (key_at 7 (numbers_of Mapping.Sender tables.now)) }
    requires name { blank.name ≡ L.name }
    requires parts { blank.parts ≡ L.parts }
    requires some { 0 < blank.parts }
{
    let mut steps = Steps::<L>::new(blank);
    let by_key = tables.recipients_into(key, true, found, &mut steps);
    let by_number = tables.recipients_of_number_into(Mapping::Sender, 7, false, found, &mut steps);
    by_key.is_ok() && by_number.is_ok() && found.as_slice() == [2].as_slice()
}

/// Whether subscriber 2 is reached by number 7 of the other side, and by the key that it stands for.
fn reaches_by_number(alloc: Global, tables: &Tables) -> bool {
    let mut found = Vec::new(alloc);
    match tables.key_of(Mapping::Sender, 7) {
        Some(key) => reaches::<Brand>(tables, key, &mut found, Blank::new(1)),
        None => false,
    }
}

/// Numbers of this session: two of one text, and then another text for the first one.
static NUMBERS: [(u16, &str); 3] = [(5, "a/b"), (6, "a/b"), (5, "a/c")];

/// Declares the numbers of this session in turn; an error is a text that is no key, or want of memory.
fn declare(tables: &mut Tables) -> Result<(), KeyError> {
    for (number, text) in &NUMBERS {
        let key = KeyExpr::new(text)?;
        tables.set(Mapping::Receiver, *number, key)?;
    }
    Ok(())
}

/// Adds subscriber 2 where no other one has an id as high.
fn add(tables: &mut Tables, key: KeyExpr<'static>) -> Result<(), AllocError> {
    if !tables.is_above(2) {
        return Err(AllocError);
    }
    tables.add(SubRow {
        id: 2,
        origin: Locality::Any,
        key,
    })
}

/// Whether a subscriber on a key is reached by a number of the other side that stands for another one.
pub fn reach(alloc: Global, wild: KeyExpr<'static>, key: KeyExpr<'static>) -> bool {
    let mut tables = Tables::new(alloc);
    let set = tables.set(Mapping::Sender, 7, key).is_ok();
    let declared = declare(&mut tables).is_ok();
    let added = add(&mut tables, wild).is_ok();
    set && declared && added && reaches_by_number(alloc, &tables)
}

/// Whether of two members of a group the first one is told so.
pub fn join(alloc: Global) -> bool {
    let mut groups = Groups::new(alloc);
    let first = groups.join(GroupKind::Subscribers, "a", 2);
    let second = groups.join(GroupKind::Subscribers, "a", 3);
    first == Ok(true) && second == Ok(false)
}
