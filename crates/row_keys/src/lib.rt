// Internal: reads a row of a table by its number, key by key, for the rebuild with permuted columns.
//
// Row i's key in the last layer stands at place i; the place of its key in a layer above is that of the parent, which is sought among the intervals by halves. So no
// place has to be kept beside the row's number.
#![tactic(auto)]

ghost use Rattle.std.specs.Prelude.{◌≡◌, [], ◌<◌, get_or};
ghost use Rattle.relation.specs.Paths.{owner};
ghost use Rattle.column_trie.specs.Table.{layer_in, rows_in, data_len_at};

use column_trie::layer_at;
use seek::halve;
use sound_table::Intact;

// The place in the layer above of the parent of the key at `place` of layer d.
fn parent_of(rows: &Intact, d: usize, place: usize) -> usize
    requires { (d < rows.now.sound.table.now.arity) × (place < data_len_at rows.now.sound.table.now d) }
    ensures { result ≡ owner (layer_in rows.now.sound.pool.now rows.now.sound.table.now d).intervals place }
{
    let intervals = rows.sound.layer(d).intervals;
    halve(intervals, place as u64 + 1, 0, intervals.len(), 0).offset - 1
}

// The key of row i in column d.
pub fn key_of(rows: &Intact, i: usize, d: usize) -> u64
    requires { (i < rows.now.sound.table.now.tuple_count) × (d < rows.now.sound.table.now.arity) }
    ensures { result ≡ get_or (get_or (rows_in rows.now.sound.pool.now rows.now.sound.table.now) i []) d 0 }
{
    let mut place = i;
    for e in (d + 1..rows.sound.table.arity).rev() {
        place = parent_of(rows, e, place);
    }
    let at = layer_at(*rows.sound.table, d);
    rows.sound.pool[at + place]
}
