//! Trees of keys: the tree of a table's keys finds what testing each key by itself finds.

use std::alloc::{AllocError, Global};
use zs_keys::{KeyError, KeyExpr};
use zs_sample::Locality;
use zs_tables::{QueryableRow, QueryableTable};

static CHUNKS: [&str; 8] = ["a", "b", "*", "**", "a$*", "$*b", "@v", "ab"];

/// The next number of a small generator.
fn draw(seed: &mut u32) -> usize {
    *seed = seed.wrapping_mul(1_664_525).wrapping_add(1_013_904_223);
    (*seed >> 16) as usize
}

/// A key of three chunks.
fn random_key(alloc: Global, seed: &mut u32) -> Result<KeyExpr<'static>, KeyError> {
    let first = CHUNKS[draw(seed) % 8];
    let second = CHUNKS[draw(seed) % 8];
    let third = CHUNKS[draw(seed) % 8];
    let text = format!(in alloc; "{first}/{second}/{third}")?;
    KeyExpr::autocanonize(alloc, text)
}

/// Adds a queryable where no other one has an id as high.
fn add(table: &mut QueryableTable, id: u32, key: KeyExpr<'static>) -> Result<(), AllocError> {
    if !table.is_above(id) {
        return Err(AllocError);
    }
    table.add(QueryableRow {
        id,
        origin: Locality::Any,
        complete: false,
        key,
    })
}

/// Adds queryables on random keys, more than stand in one block of the tree.
fn fill(alloc: Global, table: &mut QueryableTable, seed: &mut u32) -> Result<(), KeyError> {
    for id in 0..600 {
        let key = random_key(alloc, seed)?;
        add(table, id, key)?;
    }
    Ok(())
}

/// Whether those that were found are just those whose key meets the asked one.
fn are_those(table: &QueryableTable, asked: &KeyExpr<'_>, found: &[u32]) -> bool {
    for (id, row) in table.iter() {
        if row.key.meets(asked) != found.contains(id) {
            return false;
        }
    }
    true
}

/// Whether the table finds those queryables that a test of each key by itself finds.
fn finds_the_same(
    alloc: Global,
    table: &QueryableTable,
    asked: &KeyExpr<'_>,
) -> Result<bool, AllocError> {
    let mut found = Vec::new(alloc);
    table.met_into(asked, true, false, &mut found)?;
    Ok(are_those(table, asked, &found))
}

/// How many of fifty random keys the table finds something else of.
fn wrong_of_fifty(alloc: Global, table: &QueryableTable, seed: &mut u32) -> Result<u32, KeyError> {
    let mut wrong = 0u32;
    for _ in 0..50 {
        let asked = random_key(alloc, seed)?;
        if !finds_the_same(alloc, table, &asked)? {
            wrong = wrong.saturating_add(1);
        }
    }
    Ok(wrong)
}

/// How many of fifty keys a table of 600 queryables on random keys answers wrongly; the seed is fixed.
fn wrong(alloc: Global) -> Result<u32, KeyError> {
    let mut seed = 1;
    let mut table = QueryableTable::new(alloc);
    fill(alloc, &mut table, &mut seed)?;
    wrong_of_fifty(alloc, &table, &mut seed)
}

/// The tree finds for each random key what a test of each row's key finds.
#[test]
fn random_keys_meet_by_the_tree_as_by_themselves(rt: HostRuntime) {
    assert!(rt; wrong(rt.alloc()) == Ok(0));
}
