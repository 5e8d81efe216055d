// Internal: fills a table with the rows of another whose columns are in another order.
//
// The last layer of the new table will hold one key for each row. Until then its words stand for the rows (crate permuted_rows): all of them, sorted by the permuted
// rows, and then those that are not laid yet, since row j's last key goes where word j was. So no word is needed that the new table doesn't use.
#![tactic(auto)]

ghost use Rattle.std.specs.Prelude.{◌≡◌, ◌+◌, ◌≤◌, length};
ghost use Rattle.relation.specs.Rows.{sort};
ghost use Rattle.from_sorted.specs.Push.{Fills};
ghost use Rattle.permuted_rows.specs.Seen.{rows_seen};
ghost use Rattle.permuted_fill.specs.Ranks.{Ranked, RankedIn, Laying};

use column_trie::{ColumnTrie, layer_at};
use from_sorted::Lengths;
use number_sort::sort_numbers;
use permuted_rows::Permuted;
use row_words::pack_rows;

// The words of all rows, sorted by the permuted rows.
fn rank_rows(rows: &Permuted, numbers: &mut [u64])
    requires { length numbers.old ≡ rows.now.table.tuple_count }
    ensures { Ranked rows.now numbers.new }
{
    pack_rows(rows, numbers);
    sort_numbers(rows, numbers);
}

// The same, at `at` of the second pool.
pub fn rank_into(rows: &Permuted, into: &mut [u64], at: usize)
    requires { at + rows.now.table.tuple_count ≤ length into.old }
    ensures { RankedIn rows.now into.old at into.new }
{
    let end = at + rows.table.tuple_count;
    rank_rows(rows, &mut into[at..end]);
}

// Fills the empty table with the rows whose words lie where the keys of its last layer will. The lengths are kept beside the header until the end, as in a build.
pub fn lay_rows(rows: &Permuted, into: &mut [u64], empty: ColumnTrie) -> ColumnTrie
    requires { Laying rows.now into.old empty }
    ensures { Fills into.old empty (sort (rows_seen rows.now)) into.new result }
{
    let n = rows.table.tuple_count;
    if n == 0 {
        return empty;
    }
    let mut lengths = Lengths::of(empty);
    let at = layer_at(empty, empty.arity - 1);
    let first = into[at];
    let mut last = rows.row(first);
    lengths.append_row(into, empty, &last, 0, 0);
    for j in 1..n {
        let w = into[at + j];
        let row = rows.row(w);
        lengths.append_next(into, empty, &last, &row);
        last = row;
    }
    lengths.filled(empty)
}
