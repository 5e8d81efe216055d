// Builds a table in the pool from rows of words: the port of building from tuples of kermit-ds/src/ds/column_trie/implementation.rs of the Rust.
//
// The public call is `build`. Its answer, the rows that it sorts and every word of the pool are those that specs/Build.antt gives, for any
// arguments: nothing is asked of them. An accepted build leaves an undamaged table of the set of the rows (crate build_laws). As in the Rust's bulk
// build the sorted rows are laid in one pass (crate from_sorted); the Rust sorts a copy of them, here they are sorted where they lie.
#![tactic(auto)]

ghost use Rattle.std.specs.Prelude.{◌≡◌, ◌≤◌};
ghost use Rattle.refusal.specs.Number.{given};
ghost use Rattle.column_trie.specs.Limits.{max_arity};
ghost use Rattle.from_sorted.specs.Answer.{kept_kinds};
ghost use Rattle.column_trie_build.specs.Build.{build_number, Builds};

use column_trie::{ColumnTrie, arity_ok, capacity_ok, lies_in};
use from_sorted::{Built, from_sorted};
use refusal::Refusal;
use sort::sort_rows;

// The first check that refuses.
fn check(
    words: usize,
    len: usize,
    start: usize,
    arity: usize,
    capacity: usize,
) -> Result<(), Refusal>
    ensures { given result ≡ build_number words len start arity capacity }
{
    if !arity_ok(arity) {
        return Err(Refusal::BadArity);
    }
    if !capacity_ok(capacity) {
        return Err(Refusal::BadCapacity);
    }
    if !lies_in(len, start, arity, capacity) {
        return Err(Refusal::OutsidePool);
    }
    if words % arity != 0 {
        return Err(Refusal::BadLength);
    }
    if capacity < words / arity {
        return Err(Refusal::NoRoom);
    }
    Ok(())
}

// The kinds of the table's columns; past the arity they are plain.
fn kept_kinds(arity: usize, grade: [bool; ColumnTrie::MAX_ARITY]) -> [bool; ColumnTrie::MAX_ARITY]
    requires { arity ≤ max_arity }
    ensures { result ≡ kept_kinds arity grade }
{
    let mut kept = [false; ColumnTrie::MAX_ARITY];
    kept[..arity].copy_from_slice(&grade[..arity]);
    kept
}

// Sorts the rows in place, lexicographic, and leaves at `start` of the pool a table with each distinct row once, whose columns are of the kinds
// given (yes: grade).
pub fn build(
    rows: &mut [u64],
    pool: &mut [u64],
    start: usize,
    arity: usize,
    capacity: usize,
    grade: [bool; ColumnTrie::MAX_ARITY],
) -> Built
    ensures { Builds rows.old pool.old start arity capacity grade rows.new pool.new result }
{
    if let Err(refused) = check(rows.len(), pool.len(), start, arity, capacity) {
        return Built::refused(refused);
    }
    sort_rows(rows, arity);
    let mut empty = ColumnTrie::empty(start, arity, capacity);
    empty.grade = kept_kinds(arity, grade);
    let table = from_sorted(pool, empty, rows);
    Built { number: 0, table }
}
