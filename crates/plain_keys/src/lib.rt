// Internal: the keys that follow some words in a table, or in an atom's rows, found by plain search from the root. No cursor is kept, and no key is skipped unseen.
#![tactic(auto)]

ghost use Rattle.std.specs.Prelude.{◌≡◌, [], ◌<◌, take, get_or};
ghost use Rattle.relation.specs.Runs.{from};
ghost use Rattle.relation.specs.Layers.{keys_under};
ghost use Rattle.query.specs.Meet.{has};
ghost use Rattle.column_trie.specs.Table.{rows_in, Undamaged};
ghost use Rattle.sound_table.specs.Layers.{seen};
ghost use Rattle.join_query.specs.Query.{rows_at};
ghost use Rattle.plain_keys.specs.Keys.{words, bound, group_at, group_keys, Grouped, head_of, Named, Readable};

use column_trie::ColumnTrie;
use join_query::{Atom, Query, Tables};
use sound_table::{Layer, Sound};

// A word for each variable, by number. There is no heap, so a row is an array of the most variables, here and in the crates above, of which the query's n count.
pub type Row = [u64; Query::MAX_VARIABLES];

// The group of interval i of a layer: the keys that follow the words for which the interval stands; with the place of the first of them in the layer. A key's place is the
// number of its interval below. A pair: with a struct, of four lines, the plain engine had more than the 120 that are asked (docs/DECISIONS.md 67).
fn group<'a>(layer: &Layer<'a>, i: usize) -> (usize, &'a [u64])
    requires { Grouped (seen layer.now) i }
    ensures { (result.0 ≡ group_at (seen layer.now) i) × (result.1.now ≡ group_keys (seen layer.now) i) }
{
    let from = layer.begins(i);
    let to = layer.begins(i + 1);
    (from, &layer.keys[from..to])
}

// The table is a header by value here, and a `Sound` only inside: what a `Sound` says of its arrays the check knows of a parameter, but not of an entry of `tables`.
// The least key of the table in column `len`, from the row's word there on, or above it, that follows the row's words for the columns before.
// `past` leaves the word itself out. No enum of two: with its four lines the plain engine had more than the 120 that are asked (docs/DECISIONS.md 67).
fn next_in(pool: &[u64], t: ColumnTrie, a: Atom, row: Row, len: usize, past: bool) -> Option<u64>
    requires { Undamaged pool.now t × (len < t.arity) × Named a len }
    ensures { result ≡ head_of (from (bound past (get_or (words a row) len 0)) (keys_under (take len (words a row)) (rows_in pool.now t))) }
{
    let rows = Sound { pool, table: &t };
    let mut i = 0;
    for d in 0..len {
        let (first, keys) = group(&rows.layer(d), i);
        i = first + keys.binary_search(&row[a.variables[d]]).ok()?;
    }
    let (_, keys) = group(&rows.layer(len), i);
    let word = row[a.variables[len]];
    let at = keys.partition_point(|&key| key < word || (past && key == word));
    keys.get(at).copied()
}

// Whether the table has the row's word for the first column among its first keys.
fn owns(pool: &[u64], t: ColumnTrie, a: Atom, row: Row) -> bool
    requires { Undamaged pool.now t × Named a 0 }
    ensures { result ≡ has (keys_under [] (rows_in pool.now t)) (get_or (words a row) 0 0) }
{
    next_in(pool, t, a, row, 0, false) == Some(row[a.variables[0]])
}

// The least such key of an atom's rows. Where it is laid over, the first keys are both tables'; under a first key the rows are the school's if it has that key, else the maker's.
pub fn next_key(
    pool: &[u64],
    tables: &Tables,
    a: Atom,
    row: Row,
    len: usize,
    past: bool,
) -> Option<u64>
    requires { Readable pool.now tables.now a len }
    ensures { result ≡ head_of (from (bound past (get_or (words a row) len 0)) (keys_under (take len (words a row)) (rows_at pool.now tables.now a))) }
{
    let school = tables.tables[a.table];
    let s = next_in(pool, school, a, row, len, past);
    if !a.laid_over || (len > 0 && (s.is_some() || owns(pool, school, a, row))) {
        return s;
    }
    let m = next_in(pool, tables.tables[a.maker], a, row, len, past);
    match (s, m) {
        (Some(x), Some(y)) => Some(x.min(y)),
        _ => s.or(m),
    }
}
