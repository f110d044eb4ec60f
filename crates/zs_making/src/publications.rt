//! Who receives a publication, and the effects that hand it over.

ghost use Rattle.std.specs.Prelude.{◌≡◌, ◌+◌, ◌++◌, Some, None, IfOk, OnOk, IsSome};
ghost use Rattle.std.specs.Option.{ForSome};
ghost use Rattle.zs_subscriptions.specs.Numbers.{key_at};
ghost use Rattle.zs_subscriptions.specs.Contents.{text_meant, IsByNumber, numbers_of};
ghost use Rattle.zs_subscriptions.specs.Recipients.{recipients};
ghost use Rattle.zs_model.specs.Sends.{prefix_declaration};
ghost use Rattle.zs_model.specs.Publications.{hand_to, hands_to};

use std::alloc::{AllocError, Global};
use std::sync::ledger::Ledger;
use zs_events::{Effect, Effects, HandOver, Kind, Shared};
use zs_keys::{Declared, KeyExpr, Steps};
use zs_model::PubRow;
use zs_sample::Sample;
use zs_tables::{KeyRef, Tables};
use zs_wire::Mapping;

/// The declaration that a publisher's key was named by.
pub fn prefix_declaration(tag: u64, row: &PubRow) -> Option<Declared>
    ensures { result ≡ prefix_declaration tag (Some row.now) }
{
    match row.prefix {
        Some(prefix) => Some(Declared {
            number: prefix.number,
            prefix_len: prefix.len,
            tag,
        }),
        None => None,
    }
}

/// The ascending numbers of the subscribers that receive a publication on that key. `local` says that it was made in
/// this session.
pub fn ids_by<L: Ledger>(
    alloc: Global,
    tables: &Tables,
    local: bool,
    key: KeyRef<'_>,
    text: &KeyExpr<'_>,
    steps: &mut Steps<L>,
) -> Result<Vec<u32>, AllocError>
    requires { text_meant key tables.now ≡ Some text.now.text }
    ensures ids { IfOk result (λ ids. ids.items ≡ recipients local text.now.text tables.now.rows) }
    ensures uncounted { IsByNumber key.entry → steps.new ≡ steps.old }
{
    match key {
        KeyRef::Text(_) => ids_by_text(alloc, tables, local, text, steps),
        KeyRef::Number(mapping, number) => {
            ids_by_number(alloc, tables, local, mapping, number, steps)
        }
    }
}

/// They are found by one look-up of the key's text, which counts as a step.
fn ids_by_text<L: Ledger>(
    alloc: Global,
    tables: &Tables,
    local: bool,
    key: &KeyExpr<'_>,
    steps: &mut Steps<L>,
) -> Result<Vec<u32>, AllocError>
    ensures ids { IfOk result (λ ids. ids.items ≡ recipients local key.now.text tables.now.rows) }
    ensures counted { steps.new ≡ steps.old + 1 }
{
    let mut ids = Vec::new(alloc);
    tables.recipients_into(key, local, &mut ids, steps)?;
    Ok(ids)
}

/// They are read off the list that the number keeps: no key is tested, and no step counted.
fn ids_by_number<L: Ledger>(
    alloc: Global,
    tables: &Tables,
    local: bool,
    mapping: Mapping,
    number: u16,
    steps: &mut Steps<L>,
) -> Result<Vec<u32>, AllocError>
    requires { IsSome (key_at number (numbers_of mapping tables.now)) }
    ensures ids { IfOk result (λ ids. ForSome (key_at number (numbers_of mapping tables.now)) (λ key. ids.items ≡ recipients local key.text tables.now.rows)) }
    ensures uncounted { steps.new ≡ steps.old }
{
    let mut ids = Vec::new(alloc);
    tables.recipients_of_number_into(mapping, number, local, &mut ids, steps)?;
    Ok(ids)
}

/// Adds a sample for each of those subscribers: all hold it in one place.
pub fn hand_to_all(
    effects: &mut Effects,
    ids: &[u32],
    sample: Shared<Sample>,
) -> Result<(), AllocError>
    ensures { OnOk result (effects.new ≡ effects.old ++ hands_to sample ids.now) }
{
    let Some((last, others)) = ids.split_last() else {
        return Ok(());
    };
    hand_copies(effects, others, &sample)?;
    effects.push(hand_to(*last, sample))
}

/// Adds the same sample for each of those subscribers.
fn hand_copies(
    effects: &mut Effects,
    ids: &[u32],
    sample: &Shared<Sample>,
) -> Result<(), AllocError>
    ensures { OnOk result (effects.new ≡ effects.old ++ hands_to sample.now ids.now) }
{
    for id in ids {
        effects.push(hand_to(*id, sample.try_clone()?))?;
    }
    Ok(())
}

/// A sample for the subscriber of that number.
fn hand_to(id: u32, sample: Shared<Sample>) -> Effect
    ensures { result ≡ hand_to sample id }
{
    Effect::Hand(HandOver::Sample {
        kind: Kind::Subscriber,
        id,
        sample,
    })
}
