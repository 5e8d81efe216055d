// Internal: makes the words that stand for a table's rows with their columns in another order (crate permuted_rows), by a walk over the rows that seeks nothing.
#![tactic(auto)]

ghost use Rattle.std.specs.Prelude.{◌≡◌, ℕ, ◌≤◌, ◌<◌, length, get_or};
ghost use Rattle.column_trie.specs.Limits.{max_arity};
ghost use Rattle.row_words.specs.Words.{Wordable, Worded, AllPacked};

use column_trie::ColumnTrie;
use permuted_rows::{Permuted, four};
use row_path::next_path;

// Where the path has the key of new column k; 0 if there is no such column.
fn path_place(
    path: [usize; ColumnTrie::MAX_ARITY],
    columns: [usize; ColumnTrie::MAX_ARITY],
    arity: usize,
    k: usize,
) -> usize
    requires { (arity ≤ max_arity) × ((j : ℕ) → j < arity → get_or columns j 0 < arity) }
    ensures { (k < arity → result ≡ get_or path (get_or columns k 0) 0) × (arity ≤ k → result ≡ 0) }
{
    if k < arity {
        let d = columns[k];
        return path[d];
    }
    0
}

// The word of row i, whose path is given.
fn row_word(
    arity: usize,
    columns: [usize; ColumnTrie::MAX_ARITY],
    path: [usize; ColumnTrie::MAX_ARITY],
    i: usize,
) -> u64
    requires { Wordable arity columns path i }
    ensures { Worded arity columns path i result }
{
    let x = path_place(path, columns, arity, 0);
    let y = path_place(path, columns, arity, 1);
    let z = path_place(path, columns, arity, 2);
    four(i, x, y, z)
}

// The words of all rows, in the rows' sequence.
pub fn pack_rows(rows: &Permuted, words: &mut [u64])
    requires { length words.old ≡ rows.now.table.tuple_count }
    ensures { AllPacked rows.now words.new }
{
    let arity = rows.table.arity;
    let mut path = [0usize; ColumnTrie::MAX_ARITY];
    let table = rows.intact();
    for k in 0..words.len() {
        next_path(&table, &mut path, k);
        words[k] = row_word(arity, rows.columns, path, k);
    }
}
