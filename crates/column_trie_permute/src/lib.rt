// Rebuilds a table with its columns permuted, into a second pool. No port: it is written from request 12 of document 02.
//
// The public call is `permute`. Its answer and every word of the second pool are those that specs/Permute.antt gives, for any arguments: nothing is asked of them.
// The first pool is only read. No other buffer is needed, and no word is used on the way that the new table doesn't use (crate permuted_fill).
#![tactic(auto)]

ghost use Rattle.std.specs.Prelude.{◌≡◌, ℕ, ◌≤◌, ◌<◌, get_or};
ghost use Rattle.column_trie.specs.Limits.{max_arity};
ghost use Rattle.from_sorted.specs.Answer.{kept_kinds};
ghost use Rattle.refusal.specs.Number.{given};
ghost use Rattle.column_trie_permute.specs.Permute.{kinds_permuted, permute_number, Permutes};

use column_trie::{ColumnTrie, capacity_ok, layer_at, lies_in};
use from_sorted::Built;
use permuted_fill::{lay_rows, rank_into};
use permuted_rows::Permuted;
use query::permutes;
use refusal::Refusal;
use sound_table::undamaged;

// The first check that refuses.
fn check(
    pool: &[u64],
    table: ColumnTrie,
    columns: [usize; ColumnTrie::MAX_ARITY],
    len: usize,
    start: usize,
    capacity: usize,
) -> Result<(), Refusal>
    ensures { given result ≡ permute_number pool.now table columns len start capacity }
{
    if !undamaged(pool, table) {
        return Err(Refusal::Damaged);
    }
    if !permutes(&columns[..table.arity]) {
        return Err(Refusal::BadOrder);
    }
    if !capacity_ok(capacity) {
        return Err(Refusal::BadCapacity);
    }
    if !lies_in(len, start, table.arity, capacity) {
        return Err(Refusal::OutsidePool);
    }
    if capacity < table.tuple_count {
        return Err(Refusal::NoRoom);
    }
    Ok(())
}

// The kinds of the columns, each where its column goes; past the arity they are plain.
fn permuted_kinds(
    table: ColumnTrie,
    columns: [usize; ColumnTrie::MAX_ARITY],
) -> [bool; ColumnTrie::MAX_ARITY]
    requires { (table.arity ≤ max_arity) × ((k : ℕ) → k < table.arity → get_or columns k 0 < table.arity) }
    ensures { result ≡ kept_kinds table.arity (kinds_permuted table columns) }
{
    let arity = table.arity;
    let grade = table.grade;
    let mut kinds: [bool; ColumnTrie::MAX_ARITY] = [false; ColumnTrie::MAX_ARITY];
    for d in 0..arity {
        let from = columns[d];
        kinds[d] = grade[from];
    }
    kinds
}

// Leaves at `start` of the second pool the table with its columns permuted, with the capacity given: number i of `columns` names the old column that becomes column i.
pub fn permute(
    pool: &[u64],
    table: ColumnTrie,
    columns: [usize; ColumnTrie::MAX_ARITY],
    into: &mut [u64],
    start: usize,
    capacity: usize,
) -> Built
    ensures { Permutes pool.now table columns into.old start capacity into.new result }
{
    if let Err(refused) = check(pool, table, columns, into.len(), start, capacity) {
        return Built::refused(refused);
    }
    let arity = table.arity;
    let mut empty = ColumnTrie::empty(start, arity, capacity);
    let kinds = permuted_kinds(table, columns);
    empty.grade = kinds;
    let at = layer_at(empty, arity - 1);
    let rows = Permuted {
        pool,
        table,
        columns,
    };
    rank_into(&rows, into, at);
    let table = lay_rows(&rows, into, empty);
    Built { number: 0, table }
}
