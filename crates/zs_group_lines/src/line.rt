//! What a line asks of its side.

ghost use Rattle.std.specs.Prelude.{◌≡◌, IfOk};
ghost use Rattle.zs_lines.specs.Lines.{fields};
ghost use Rattle.zs_parts.specs.Fields.{texts};
ghost use Rattle.zs_group_lines.specs.Lines.{key_of, line_of, line_of_one, line_named, line_of_two};

use std::alloc::{AllocError, Global};
use zs_members::is_name;
use zs_sample::Text;

/// What a line asks of its side.
#[derive(Drop)]
pub enum GroupLine {
    /// It joins the group under a name once more: `join NAME`. The text is the key of its token.
    Join(Text),
    /// It leaves the group under a name once: `leave NAME`. The text is the key of the token.
    Leave(Text),
    /// Who it sees in the group is shown: `view`.
    View,
}

/// What a line says behind its side: `join NAME`, `leave NAME` or `view`, with a tab between its fields. Nothing where it has
/// none of these forms; a name has 1 to 64 of the letters `a` to `z` and the digits.
///
/// # Errors
///
/// Want of memory alone.
pub fn parse_line(alloc: Global, text: &str) -> Result<Option<GroupLine>, AllocError>
    ensures { IfOk result (λ found. found ≡ line_of (fields text.now)) }
{
    let fields = split_fields(alloc, text)?;
    parse_fields(alloc, &fields)
}

/// A line's fields, which single tabs separate.
fn split_fields(alloc: Global, line: &str) -> Result<Vec<&str>, AllocError>
    ensures { IfOk result (λ found. texts found.items ≡ fields line.now) }
{
    line.split('\t').collect(alloc)
}

/// What the fields of a line ask: a word alone, or a word and a name. More fields ask nothing.
fn parse_fields(alloc: Global, fields: &[&str]) -> Result<Option<GroupLine>, AllocError>
    ensures { IfOk result (λ found. found ≡ line_of (texts fields.now)) }
{
    match fields {
        [] => Ok(None),
        [word] => Ok(parse_view(word)),
        [word, name] => parse_named(alloc, word, name),
        [_, _, _, ..] => Ok(None),
    }
}

/// What a word alone asks: only `view` may stand so.
fn parse_view(word: &str) -> Option<GroupLine>
    ensures { result ≡ line_of_one word.now }
{
    match word {
        "view" => Some(GroupLine::View),
        _ => None,
    }
}

/// What a word asks with a second field behind it; nothing where that is no name.
fn parse_named(alloc: Global, word: &str, name: &str) -> Result<Option<GroupLine>, AllocError>
    ensures { IfOk result (λ found. found ≡ line_of_two word.now name.now) }
{
    if !is_name(name) {
        return Ok(None);
    }
    named(alloc, word, name)
}

/// What a word asks with a name behind it, which is taken to be one: only `join` and `leave` may stand so.
fn named(alloc: Global, word: &str, name: &str) -> Result<Option<GroupLine>, AllocError>
    ensures { IfOk result (λ found. found ≡ line_named word.now name.now) }
{
    match word {
        "join" => {
            let key = key_of(alloc, name)?;
            Ok(Some(GroupLine::Join(key)))
        }
        "leave" => {
            let key = key_of(alloc, name)?;
            Ok(Some(GroupLine::Leave(key)))
        }
        _ => Ok(None),
    }
}

/// The key of a token that stands for a name.
fn key_of(alloc: Global, name: &str) -> Result<Text, AllocError>
    ensures { IfOk result (λ key. key ≡ key_of name.now) }
{
    let mut text = String::from_str(alloc, "group/")?;
    text.push_str(name)?;
    Text::of(alloc, text.as_str())
}
