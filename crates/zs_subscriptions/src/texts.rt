//! The numbers that stand for each text.

ghost use Rattle.std.specs.Prelude.{◌≡◌, ◌==◌, not, filter, [], ◌∷◌, IsTrue, IfOk, OnOk, OnErr};
ghost use Rattle.zs_subscriptions.specs.Ascending.{Ascend, placed_by};
ghost use Rattle.zs_subscriptions.specs.Texts.{first, listed, SameLists, Joins, Leaves, Moves};

use crate::places::number_place;
use std::alloc::{AllocError, Global};
use std::collections::HashMap;

/// For each text the numbers that stand for it, in ascending order.
pub(crate) type Texts = HashMap<String, Vec<u16>>;

/// The least number that stands for a text.
pub(crate) fn first_number(texts: &Texts, text: &str) -> Option<u16>
    ensures { result ≡ first (listed text.now texts.now) }
{
    match texts.get(text) {
        Some(numbers) => numbers.first().copied(),
        None => None,
    }
}

/// Puts a number under a text.
pub(crate) fn join_text(
    alloc: Global,
    texts: &mut Texts,
    text: &str,
    number: u16,
) -> Result<(), AllocError>
    requires { Ascend (λ n. n) (listed text.now texts.old) }
    ensures ok { OnOk result (Joins text.now number texts.old texts.new) }
    ensures err { OnErr result (SameLists texts.old texts.new) }
{
    if let Some(numbers) = texts.get_mut(text) {
        return put_number(numbers, number);
    }
    let numbers = one_number(alloc, number)?;
    texts.insert(String::from_str(alloc, text)?, numbers)?;
    Ok(())
}

/// A list of one number, for a text that none stood for.
fn one_number(alloc: Global, number: u16) -> Result<Vec<u16>, AllocError>
    ensures { IfOk result (λ numbers. numbers.items ≡ number ∷ []) }
{
    let mut numbers = Vec::new(alloc);
    numbers.push(number)?;
    Ok(numbers)
}

/// Puts a number into an ascending list, where it belongs. If it is there already, nothing changes.
fn put_number(numbers: &mut Vec<u16>, number: u16) -> Result<(), AllocError>
    requires { Ascend (λ n. n) numbers.old.items }
    ensures ok { OnOk result (numbers.new.items ≡ placed_by (λ n. n) number numbers.old.items) }
    ensures err { OnErr result (numbers.new.items ≡ numbers.old.items) }
{
    match number_place(numbers, number) {
        Ok(_) => Ok(()),
        Err(at) => Ok(numbers.insert(at, number)?),
    }
}

/// Takes a number out from under a text.
pub(crate) fn leave_text(texts: &mut Texts, text: &str, number: u16)
    requires { Ascend (λ n. n) (listed text.now texts.old) }
    ensures { Leaves text.now number texts.old texts.new }
{
    if take_from(texts, text, number) {
        let _ = texts.remove(text);
    }
}

/// Takes a number out from under a text, and says whether none is left there.
fn take_from(texts: &mut Texts, text: &str, number: u16) -> bool
    requires { Ascend (λ n. n) (listed text.now texts.old) }
    ensures left { Leaves text.now number texts.old texts.new }
    ensures none { IsTrue result → listed text.now texts.new ≡ [] }
{
    let Some(numbers) = texts.get_mut(text) else {
        return false;
    };
    take_number(numbers, number);
    numbers.is_empty()
}

/// Takes a number out of an ascending list, if it is there.
fn take_number(numbers: &mut Vec<u16>, number: u16)
    requires { Ascend (λ n. n) numbers.old.items }
    ensures { numbers.new.items ≡ filter (λ other. not (other == number)) numbers.old.items }
{
    let Ok(at) = number_place(numbers, number) else {
        return;
    };
    numbers.remove(at);
}

/// Puts a number under a new text, in place of an old one.
pub(crate) fn move_text(
    alloc: Global,
    texts: &mut Texts,
    old: &str,
    new: &str,
    number: u16,
) -> Result<(), AllocError>
    requires old { Ascend (λ n. n) (listed old.now texts.old) }
    requires new { Ascend (λ n. n) (listed new.now texts.old) }
    ensures ok { OnOk result (Moves old.now new.now number texts.old texts.new) }
    ensures err { OnErr result (SameLists texts.old texts.new) }
{
    join_text(alloc, texts, new, number)?;
    if old != new {
        leave_text(texts, old, number);
    }
    Ok(())
}
