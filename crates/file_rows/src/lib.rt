// Writes a table's fields of rows, as a table file has them (internal).
//
// A row's words are read by its path, which goes along from row to row, so that the whole is linear in the bytes.
#![tactic(auto)]

ghost use Rattle.std.specs.Prelude.{◌≡◌, [], ◌∷◌, ◌+◌, ◌*◌, ◌-◌, ◌≤◌, length, take, drop, get_or};
ghost use Rattle.relation.specs.Rows.{flat};
ghost use Rattle.column_trie.specs.Pool.{lay};
ghost use Rattle.column_trie.specs.Table.{rows_in};
ghost use Rattle.table_file.specs.Bytes.{bytes_of, encode};
ghost use Rattle.table_file.specs.File.{rows_field};
ghost use Rattle.file_rows.specs.Rows.{fields_in, Putting, RowsPut, Laid};

use column_trie::{ColumnTrie, layer_at};
pub use file_bytes::per_field;
use file_bytes::{Tag, put_word};
use row_path::next_path;
use sound_table::Intact;

// Writes row i from `at` on. The path is that of the row before, and becomes that of row i.
fn put_row(
    bytes: &mut [u8],
    at: usize,
    rows: &Intact,
    path: &mut [usize; ColumnTrie::MAX_ARITY],
    i: usize,
    arity: usize,
)
    requires putting { Putting rows.now.sound.pool.now rows.now.sound.table.now path.old i 1 at (length bytes.old) }
    requires all { arity ≡ rows.now.sound.table.now.arity }
    ensures { RowsPut rows.now.sound.pool.now rows.now.sound.table.now i bytes.old at (encode (get_or (rows_in rows.now.sound.pool.now rows.now.sound.table.now) i [])) bytes.new path.new }
{
    next_path(rows, path, i);
    let table = rows.sound.table;
    for d in 0..arity {
        let place = layer_at(*table, d) + path[d];
        put_word(bytes, at + 8 * d, rows.sound.pool[place]);
    }
}

// Row after row, each of so many words. It is called with the literal 1 where that is the arity, so that compilers make a loop for rows of one word.
fn put_each(
    bytes: &mut [u8],
    at: usize,
    rows: &Intact,
    path: &mut [usize; ColumnTrie::MAX_ARITY],
    i: usize,
    n: usize,
    arity: usize,
)
    requires putting { Putting rows.now.sound.pool.now rows.now.sound.table.now path.old i n at (length bytes.old) }
    requires all { arity ≡ rows.now.sound.table.now.arity }
    ensures { RowsPut rows.now.sound.pool.now rows.now.sound.table.now (i + n - 1) bytes.old at (encode (flat (take n (drop i (rows_in rows.now.sound.pool.now rows.now.sound.table.now))))) bytes.new path.new }
{
    let mut p = at;
    for k in 0..n {
        put_row(bytes, p, rows, path, i + k, arity);
        p += 8 * arity;
    }
}

// Writes n rows, the first of them row i, from `at` on. The path is that of the row before, and becomes that of the last row written.
pub fn put_rows(
    bytes: &mut [u8],
    at: usize,
    rows: &Intact,
    path: &mut [usize; ColumnTrie::MAX_ARITY],
    i: usize,
    n: usize,
)
    requires { Putting rows.now.sound.pool.now rows.now.sound.table.now path.old i n at (length bytes.old) }
    ensures { RowsPut rows.now.sound.pool.now rows.now.sound.table.now (i + n - 1) bytes.old at (encode (flat (take n (drop i (rows_in rows.now.sound.pool.now rows.now.sound.table.now))))) bytes.new path.new }
{
    let arity = rows.sound.table.arity;
    if arity == 1 {
        put_each(bytes, at, rows, path, i, n, 1);
        return;
    }
    put_each(bytes, at, rows, path, i, n, arity);
}

// Writes a field's tag and its length, high byte first, from `at` on.
pub fn put_tag(bytes: &mut [u8], at: usize, tag: u8, len: usize)
    requires { (at + 3 ≤ length bytes.old) × (len ≤ 65535) }
    ensures { bytes.new ≡ lay bytes.old at (tag ∷ bytes_of 2 len) }
{
    let [high, low] = (len as u16).to_be_bytes();
    bytes[at..at + 3].copy_from_slice(&[tag, high, low]);
}

// Writes the field of n rows, the first of them row i, from `at` on.
fn put_rows_field(
    bytes: &mut [u8],
    at: usize,
    rows: &Intact,
    path: &mut [usize; ColumnTrie::MAX_ARITY],
    i: usize,
    n: usize,
)
    requires { Putting rows.now.sound.pool.now rows.now.sound.table.now path.old i n (at + 3) (length bytes.old) × (8 * (n * rows.now.sound.table.now.arity) ≤ 65535) }
    ensures { RowsPut rows.now.sound.pool.now rows.now.sound.table.now (i + n - 1) bytes.old at (rows_field (take n (drop i (rows_in rows.now.sound.pool.now rows.now.sound.table.now)))) bytes.new path.new }
{
    put_tag(
        bytes,
        at,
        Tag::Rows.byte(),
        8 * (n * rows.sound.table.arity),
    );
    put_rows(bytes, at + 3, rows, path, i, n);
}

// Writes all fields of rows from `at` on; answers where they end.
pub fn put_fields(bytes: &mut [u8], at: usize, rows: &Intact) -> usize
    requires { at + length (fields_in rows.now.sound.pool.now rows.now.sound.table.now) ≤ length bytes.old }
    ensures { Laid bytes.old at (fields_in rows.now.sound.pool.now rows.now.sound.table.now) bytes.new result }
{
    let mut path = [0usize; ColumnTrie::MAX_ARITY];
    let table = rows.sound.table;
    let full = per_field(table.arity);
    let mut p = at;
    let mut i = 0;
    // A field's rows at a time: `step_by` would count i alone, and n and p would stand beside it as they do here.
    while i < table.tuple_count {
        let n = full.min(table.tuple_count - i);
        put_rows_field(bytes, p, rows, &mut path, i, n);
        p += 3 + 8 * (n * table.arity);
        i += n;
    }
    p
}
