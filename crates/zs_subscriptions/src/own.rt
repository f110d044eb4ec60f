//! The numbers that this session declared, with the index of them by text.

ghost use Rattle.std.specs.Prelude.{◌≡◌, ◌==◌, List, ℕ, false, not, filter, IfSome, OnOk, OnErr};
ghost use Rattle.std.specs.List.{find, list_any};
ghost use Rattle.zs_subscriptions.specs.Ascending.{Ascend, placed_by};
ghost use Rattle.zs_subscriptions.specs.Lists.{held};
ghost use Rattle.zs_subscriptions.specs.Texts.{listed, ListsNumbers, SameLists, Joins};

use crate::number_row::NumberRow;
use crate::number_rows::NumberRows;
use crate::texts::{Texts, join_text, leave_text, move_text};
use std::alloc::{AllocError, Global};

/// Puts a row where it belongs, over one with its number, and its number under its text.
pub(crate) fn set_own(
    alloc: Global,
    own: &mut NumberRows,
    texts: &mut Texts,
    new: NumberRow,
) -> Result<(), AllocError>
    requires { ListsNumbers (held own.old) texts.old }
    ensures ok { OnOk result (own.new ≡ placed_by (λ row. row.number) new own.old) }
    ensures err { OnErr result (own.new ≡ own.old) }
    ensures texts { ListsNumbers (held own.new) texts.new }
{
    let Some(old) = own.find(new.number) else {
        return add_own(alloc, own, texts, new);
    };
    move_text(alloc, texts, old.key.as_str(), new.key.as_str(), new.number)?;
    own.write_over(new);
    Ok(())
}

/// Puts a row where it belongs, whose number none has, and its number under its text. The row goes in first, and out
/// again where the texts have no memory.
fn add_own(
    alloc: Global,
    own: &mut NumberRows,
    texts: &mut Texts,
    new: NumberRow,
) -> Result<(), AllocError>
    requires order { Ascend (λ row. row.number) own.old }
    requires unused { list_any (λ row. row.number == new.number) own.old ≡ false }
    requires texts { ListsNumbers (held own.old) texts.old }
    ensures ok { OnOk result (own.new ≡ placed_by (λ row. row.number) new own.old) }
    ensures err { OnErr result (own.new ≡ own.old) }
    ensures texts { ListsNumbers (held own.new) texts.new }
{
    let number = new.number;
    own.insert(new)?;
    if let Err(error) = join_own(alloc, own, texts, number) {
        drop(own.take(number));
        return Err(error);
    }
    Ok(())
}

/// Puts a number under the text of its row, if there is one.
fn join_own(
    alloc: Global,
    own: &NumberRows,
    texts: &mut Texts,
    number: u16,
) -> Result<(), AllocError>
    requires { (text : List ℕ) → Ascend (λ n. n) (listed text texts.old) }
    ensures ok { OnOk result (IfSome (find (λ row. row.number == number) own.now) (λ row. Joins row.key.text number texts.old texts.new)) }
    ensures err { OnErr result (SameLists texts.old texts.new) }
{
    match own.find(number) {
        Some(row) => join_text(alloc, texts, row.key.as_str(), number),
        None => Ok(()),
    }
}

/// Takes a number out, also from under its text, and says whether it was there.
pub(crate) fn unset_own(own: &mut NumberRows, texts: &mut Texts, number: u16) -> bool
    requires { ListsNumbers (held own.old) texts.old }
    ensures answer { result ≡ list_any (λ row. row.number == number) own.old }
    ensures numbers { own.new ≡ filter (λ row. not (row.number == number)) own.old }
    ensures texts { ListsNumbers (held own.new) texts.new }
{
    let Some(row) = own.take(number) else {
        return false;
    };
    leave_text(texts, row.key.as_str(), number);
    true
}
