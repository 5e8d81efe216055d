// Goes through a table's rows, from one to the next, by the places of their keys.
//
// A row's path is the place of its key in each layer: its own number in the last, and above that the place of the parent. From a row to the next
// each place stays or goes on by one, so that the walk over all rows searches nothing.
#![tactic(auto)]

ghost use Rattle.std.specs.Prelude.{◌-◌, ◌<◌};
ghost use Rattle.column_trie.specs.Table.{layers_in};
ghost use Rattle.row_path.specs.Path.{OnPath};

use column_trie::ColumnTrie;
use sound_table::Intact;

// Turns the path of row i - 1 into that of row i, and the path of row 0 into itself: from the last layer up, a parent goes on where its children end.
pub fn next_path(rows: &Intact, path: &mut [usize; ColumnTrie::MAX_ARITY], i: usize)
    requires { (i < rows.now.sound.table.now.tuple_count) × OnPath (layers_in rows.now.sound.pool.now rows.now.sound.table.now) (i - 1) path.old }
    ensures { OnPath (layers_in rows.now.sound.pool.now rows.now.sound.table.now) i path.new }
{
    let arity = rows.sound.table.arity;
    path[arity - 1] = i;
    for d in (1..arity).rev() {
        let next = path[d - 1] + 1;
        let from = rows.sound.layer(d).begins(next);
        if from <= path[d] {
            path[d - 1] = next;
        }
    }
}
