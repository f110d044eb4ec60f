//! Where entries stand in blocks, and how they are put in and taken out.

ghost use Rattle.std.specs.Prelude.{◌≡◌, ◌≢◌, ◌<◌, length, Ok, Err, OnOk, OnErr};
ghost use Rattle.std.specs.List.{AllByRecursion, HoldsAt};
ghost use Rattle.std.specs.declared.cmp.Ordering.TheVariants.{Equal};
ghost use Rattle.zs_tree.specs.Blocks.{flat, AreFilled, begins_up_to, IsBlockOf, IsPutIn, IsTakenOut, IsIn, IsWithout};
ghost use Rattle.zs_tree.specs.Code.{code_of};
ghost use Rattle.zs_tree.specs.Entries.{AreInOrder, IsPlaceOf, entry_cmp};

use crate::block::Block;
use crate::code::cmp_code;
use crate::entry::Entry;
use std::alloc::{AllocError, Global};
use std::cmp::Ordering;

/// An entry beside a text and a number.
fn cmp_entry(entry: &Entry, text: &str, id: u32) -> Ordering
    ensures { result ≡ entry_cmp (code_of text.now) id entry.now }
{
    cmp_code(&entry.code, text).then(entry.id.cmp(&id))
}

/// Whether the first entry of a block does not stand behind a text and a number.
fn begins_up_to(block: &Block, text: &str, id: u32) -> bool
    ensures { result ≡ begins_up_to (code_of text.now) id block.now }
{
    match block.entries().split_first() {
        Some((first, _)) => !cmp_entry(first, text, id).is_gt(),
        None => false,
    }
}

/// The place of the block in which the entry of a text and a number stands, or to which it would go.
fn block_of(blocks: &[Block], text: &str, id: u32) -> usize
    requires order { AreInOrder (flat blocks.now) }
    requires filled { AreFilled blocks.now }
    requires some { 0 < length blocks.now }
    ensures bound { result < length blocks.now }
    ensures block { IsBlockOf (code_of text.now) id result blocks.now }
{
    blocks
        .partition_point(|block| begins_up_to(block, text, id))
        .saturating_sub(1)
}

/// Where the entry of a text and a number stands in some entries, or where it would go.
fn place_of(entries: &[Entry], text: &str, id: u32) -> Result<usize, usize>
    requires { AreInOrder entries.now }
    ensures { IsPlaceOf (code_of text.now) id entries.now result }
{
    entries.binary_search_by(|entry| cmp_entry(entry, text, id))
}

/// The same in the block of that place.
fn place_in(blocks: &[Block], at: usize, text: &str, id: u32) -> Result<usize, usize>
    requires order { AreInOrder (flat blocks.now) }
    requires bound { at < length blocks.now }
    ensures { IsIn (code_of text.now) id at blocks.now result }
{
    place_of(blocks[at].entries(), text, id)
}

/// Puts an entry in at its place. At an `Err` the entries are as they were.
pub(crate) fn put_in(
    alloc: Global,
    blocks: &mut Vec<Block>,
    text: &str,
    entry: Entry,
) -> Result<(), AllocError>
    requires order { AreInOrder (flat blocks.old.items) }
    requires filled { AreFilled blocks.old.items }
    requires code { entry.code.items ≡ code_of text.now }
    requires unused { AllByRecursion (λ e. entry_cmp entry.code.items entry.id e ≢ Equal) (flat blocks.old.items) }
    ensures ok { OnOk result (IsPutIn entry (flat blocks.old.items) (flat blocks.new.items)) }
    ensures err { OnErr result (flat blocks.new.items ≡ flat blocks.old.items) }
    ensures filled { AreFilled blocks.new.items }
{
    if blocks.is_empty() {
        return put_first(alloc, blocks, entry);
    }
    let full = block_of(blocks, text, entry.id);
    split_full(alloc, blocks, full)?;
    let at = block_of(blocks, text, entry.id);
    match place_in(blocks, at, text, entry.id) {
        Ok(_) => unreachable!(),
        Err(place) => put_at(blocks, at, place, entry),
    }
}

/// Puts in the first entry of all.
fn put_first(alloc: Global, blocks: &mut Vec<Block>, entry: Entry) -> Result<(), AllocError>
    requires { length blocks.old.items ≡ 0 }
    ensures ok { OnOk result (IsPutIn entry (flat blocks.old.items) (flat blocks.new.items)) }
    ensures err { OnErr result (flat blocks.new.items ≡ flat blocks.old.items) }
    ensures filled { AreFilled blocks.new.items }
{
    let block = Block::of(alloc, entry)?;
    blocks.push(block)?;
    Ok(())
}

/// Makes two blocks of a full one.
fn split_full(alloc: Global, blocks: &mut Vec<Block>, at: usize) -> Result<(), AllocError>
    requires bound { at < length blocks.old.items }
    requires filled { AreFilled blocks.old.items }
    ensures same { flat blocks.new.items ≡ flat blocks.old.items }
    ensures filled { AreFilled blocks.new.items }
    ensures some { 0 < length blocks.new.items }
{
    if !blocks[at].is_full() {
        return Ok(());
    }
    let behind = Block::new(alloc);
    blocks.insert(at + 1, behind)?;
    match blocks[at].split_off() {
        Ok(second) => {
            blocks[at + 1] = second;
            Ok(())
        }
        Err(error) => {
            let _ = blocks.remove(at + 1);
            Err(error)
        }
    }
}

/// Puts an entry in at its place in the block of that place.
fn put_at(blocks: &mut Vec<Block>, at: usize, place: usize, entry: Entry) -> Result<(), AllocError>
    requires order { AreInOrder (flat blocks.old.items) }
    requires filled { AreFilled blocks.old.items }
    requires bound { at < length blocks.old.items }
    requires block { IsBlockOf entry.code.items entry.id at blocks.old.items }
    requires place { IsIn entry.code.items entry.id at blocks.old.items (Err place) }
    ensures ok { OnOk result (IsPutIn entry (flat blocks.old.items) (flat blocks.new.items)) }
    ensures err { OnErr result (flat blocks.new.items ≡ flat blocks.old.items) }
    ensures filled { AreFilled blocks.new.items }
{
    blocks[at].insert(place, entry)
}

/// Takes out the entry of a text and a number, and says whether it was there.
pub(crate) fn take_out(blocks: &mut Vec<Block>, text: &str, id: u32) -> bool
    requires order { AreInOrder (flat blocks.old.items) }
    requires filled { AreFilled blocks.old.items }
    ensures entries { IsTakenOut (code_of text.now) id (flat blocks.old.items) (flat blocks.new.items) result }
    ensures filled { AreFilled blocks.new.items }
{
    if blocks.is_empty() {
        return false;
    }
    let at = block_of(blocks, text, id);
    match place_in(blocks, at, text, id) {
        Ok(place) => {
            take_at(blocks, at, place);
            true
        }
        Err(_) => false,
    }
}

/// Takes out the entry at a place of a block, and the block with its last entry.
fn take_at(blocks: &mut Vec<Block>, at: usize, place: usize)
    requires filled { AreFilled blocks.old.items }
    requires bound { at < length blocks.old.items }
    requires place { HoldsAt (λ b. place < length b) blocks.old.items at }
    ensures entries { IsWithout at place blocks.old.items (flat blocks.new.items) }
    ensures filled { AreFilled blocks.new.items }
{
    if blocks[at].entries().len() > 1 {
        blocks[at].remove(place);
    } else {
        let _ = blocks.remove(at);
    }
}
