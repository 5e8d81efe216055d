// Internal: the functions here ask something of their callers by a `requires`. The row that a join which goes on after a given row hands back, read from the
// window that it wrote: the last row there, or the given one's words that count, in an array with zeros behind.
#![tactic(auto)]

ghost use Rattle.std.specs.Prelude.{◌≡◌, ◌*◌, ◌≤◌, length};
ghost use Rattle.join_query.specs.Query.{max_variables};
ghost use Rattle.rows_after.specs.After.{padded};
ghost use Rattle.last_row.specs.Last.{last_read};

use join_query::Query;
use join_window::row_at;

// The last of the rows in the window; where there are none, the n words of the row that the call goes on after, else zeros.
pub fn last_row(
    window: &[u64],
    n: usize,
    rows: usize,
    after: Option<[u64; Query::MAX_VARIABLES]>,
) -> [u64; Query::MAX_VARIABLES]
    requires { (n ≤ max_variables) × (rows * n ≤ length window.now) }
    ensures { result ≡ padded (last_read window.now n rows after) }
{
    if rows != 0 {
        return row_at(window, (rows - 1) * n, n);
    }
    match after {
        Some(row) => row_at(&row, 0, n),
        None => [0u64; Query::MAX_VARIABLES],
    }
}
