// Internal: a pass over the rows of a recorded listing: the first that is not an answer, or does not come strictly after the one before it. No row is searched for: an
// atom's part of a listed row is looked up in the atom's table, as the plain engine does once an atom is complete.
#![tactic(auto)]

ghost use Rattle.std.specs.Option.{IfSome};
ghost use Rattle.std.specs.Prelude.{◌≡◌, true, ℕ, ◌+◌, ◌*◌, ◌≤◌, ◌<◌, length, take, drop, unwrap_or};
ghost use Rattle.relation.specs.Order.{before};
ghost use Rattle.relation.specs.Rows.{cut, same};
ghost use Rattle.query.specs.Checks.{some};
ghost use Rattle.query.specs.Meaning.{part};
ghost use Rattle.join_query.specs.Query.{max_variables, order_of};
ghost use Rattle.join_query.specs.Facts.{Ordered};
ghost use Rattle.listing_verdict.specs.Checked.{eight, complete};
ghost use Rattle.listing_verdict.specs.Verdict.{good, first_fail};

use join_query::Query;
use plain_atoms::{Asked, all_hold};
use plain_keys::Row;

// Row i of a listing of rows of n words, with zeros behind it. Listing, n and rows are no struct: in one with the query that they are held against, a check of a listing needed
// 40,355 bytes of stack on Arm, and 58,275 where the struct was lent; portable/test allows 20,480, and without it they were 14,031.
pub fn row_at(listing: &[u64], n: usize, i: usize) -> Row
    requires { (n ≤ max_variables) × (i * n + n ≤ length listing.now) }
    ensures { result ≡ eight (take n (drop (i * n) listing.now)) }
{
    join_window::row_at(listing, i * n, n)
}

// Whether row a comes strictly before row b, as read in the query's order. By hand: the proof closes neither with an iterator's `lt` over the order's words, whose contract
// speaks of the two runs place by place, nor with each row's words in that order by an array's `map`, of whose calls it is not known that what they captured stays.
fn comes_before(q: &Query, a: Row, b: Row) -> bool
    requires { Ordered q.now }
    ensures { result ≡ before (part (order_of q.now) a) (part (order_of q.now) b) }
{
    for d in 0..q.n {
        let v = q.order[d];
        if a[v] != b[v] {
            return a[v] < b[v];
        }
    }
    false // the same words: neither comes before the other
}

// Whether the row is an answer: each atom's part of it is one of the atom's rows, looked up where the atom has its last word.
fn answers(asked: Asked, row: Row) -> bool
    ensures { let a = asked.entry in result ≡ some (same (take a.query.now.n row)) (complete a.pool.now a.tables.now a.query.now) }
{
    for v in 0..asked.query.n {
        if !all_hold(asked, row, v, 0) {
            return false;
        }
    }
    true
}

// Whether row i of the listing is an answer that comes strictly after the row before it.
fn good(asked: Asked, listing: &[u64], i: usize) -> bool
    requires { i * asked.query.now.n + asked.query.now.n ≤ length listing.now }
    ensures { let a = asked.entry in let q = a.query.now in result ≡ good (order_of q) (complete a.pool.now a.tables.now q) (cut (i + 1) q.n listing.now) i }
{
    let row = row_at(listing, asked.query.n, i);
    if !answers(asked, row) {
        return false;
    }
    if i == 0 {
        return true;
    }
    let last = row_at(listing, asked.query.n, i - 1);
    comes_before(asked.query, last, row)
}

// The number of the first row that is not, if there is one, where those before `from` are.
pub fn first_wrong(asked: Asked, listing: &[u64], rows: usize, from: usize) -> Option<usize>
    requires { let q = asked.query.now in let all = complete asked.pool.now asked.tables.now q in (rows * q.n ≤ length listing.now) × (from ≤ rows) × ((k : ℕ) → k < from → good (order_of q) all (cut rows q.n listing.now) k ≡ true) }
    ensures number { let a = asked.entry in let q = a.query.now in unwrap_or result rows ≡ first_fail rows (good (order_of q) (complete a.pool.now a.tables.now q) (cut rows q.n listing.now)) }
    ensures inside { IfSome result (λ i. i < rows) }
{
    for i in from..rows {
        if !good(asked, listing, i) {
            return Some(i);
        }
    }
    None
}
