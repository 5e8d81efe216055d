// The checker of recorded listings: whether words from an unknown unit are the complete listing of a query, and if not, where they go wrong. No leapfrog, no plan, no cursor.
//
// Why it is right. The plain engine's search runs (crates/plain_join says why it finds every answer, in sequence), and each answer that it comes upon is compared with the next
// listed row, until one differs: up to there the two listings are the same. Where they are the same to the end of both, the listing is accepted, and no row was looked up. Else the
// listed rows behind those that agree are looked at one by one (crates/listed_rows), and the first that is not an answer, or does not come strictly after the row before it, is
// wrong. Where none is, the listed rows are some of the answers, in the listing's sequence: so the answer that differed is not among them, and all before it are. It is the least
// row missing.
//
// The public call is `check_listing`; its contract is `Checks` of crates/listing_verdict, and crates/verdict_laws says what follows of it. Nothing is written.
#![tactic(auto)]

ghost use Rattle.std.specs.Prelude.{◌≡◌, ◌*◌, ◌-◌, ◌≤◌, length, take, drop};
ghost use Rattle.relation.specs.Rows.{cut};
ghost use Rattle.join_query.specs.Query.{max_variables, order_of, atoms_of};
ghost use Rattle.plain.specs.Plain.{plainly};
ghost use Rattle.listing_verdict.specs.Checked.{says, complete, Checks};
ghost use Rattle.listing_verdict.specs.Verdict.{how_many, verdict};
ghost use Rattle.listing_check.specs.Walk.{meet, meets, Padded, Agrees};

use join_checks::check;
use join_query::{Query, Tables};
use listed_rows::{first_wrong, row_at};
use listing_verdict::Checked;
use plain_atoms::{Asked, all_hold, holder};
use plain_keys::{Row, next_key};

// How many rows of the two listings agree; and the row of the complete one that is not the next one listed, if it then has one.
#[derive(Clone, Copy)]
pub struct Reached {
    pub at: usize,
    pub missing: Option<Row>,
}

// Compares an answer with the row listed behind those that agree.
fn meet(listing: &[u64], n: usize, rows: usize, found: Row, met: Reached) -> Reached
    requires { (n ≤ max_variables) × (rows * n ≤ length listing.now) × Padded n found × Agrees met }
    ensures { result ≡ meet (cut rows n listing.now) met (take n found) }
{
    let at = met.at;
    let missing = Some(found);
    if at >= rows {
        return Reached { at, missing }; // no row is listed there
    }
    let next = row_at(listing, n, at);
    if next[..n] != found[..n] {
        return Reached { at, missing };
    }
    Reached {
        at: at + 1,
        missing: None,
    }
}

// Compares the rows that complete `found` by words for the last `left` variables of the order with those listed behind the ones that agree, until one is missing. plain_join's
// search but for what is done with a row: with one for both, by a trait, the plain engine had at least 132 lines of code, where 120 are asked (docs/DECISIONS.md 67).
fn search(
    asked: Asked,
    left: usize,
    found: Row,
    listing: &[u64],
    rows: usize,
    from: Reached,
) -> Reached
    requires { (left ≤ asked.query.now.n) × (rows * asked.query.now.n ≤ length listing.now) × Padded asked.query.now.n found × Agrees from }
    ensures { let a = asked.entry in let q = a.query.now in result ≡ meets (cut rows q.n listing.now) from (plainly q.n (drop (q.n - left) (order_of q)) (atoms_of a.pool.now a.tables.now q) found) }
{
    if left == 0 {
        return meet(listing, asked.query.n, rows, found, from);
    }
    let v = asked.query.order[asked.query.n - left];
    let (first, c) = holder(asked.query, v);
    let a = asked.query.atoms[first];
    let mut row = found;
    row[v] = 0; // so that the least key of all is tried first
    let mut met = from;
    let mut next = next_key(asked.pool, asked.tables, a, row, c, false);
    while let Some(key) = next {
        row[v] = key;
        if all_hold(asked, row, v, first + 1) {
            met = search(asked, left - 1, row, listing, rows, met);
            if met.missing.is_some() {
                return met;
            }
        }
        next = next_key(asked.pool, asked.tables, a, row, c, true);
    }
    met
}

// How many rows of n words are listed; rows without words are as many as the count says.
fn how_many(n: usize, len: usize, count: usize) -> usize
    ensures { result ≡ how_many n len count }
{
    if n == 0 {
        return count;
    }
    len / n
}

// The verdict on the listed rows, of a query that passed its checks.
fn verdict(asked: Asked, listing: &[u64], rows: usize) -> Checked
    requires { rows * asked.query.now.n ≤ length listing.now }
    ensures { let a = asked.entry in let q = a.query.now in result ≡ says (verdict (order_of q) (complete a.pool.now a.tables.now q) (cut rows q.n listing.now)) }
{
    let none = [0u64; Query::MAX_VARIABLES];
    let start = Reached {
        at: 0,
        missing: None,
    };
    let end = search(asked, asked.query.n, none, listing, rows, start);
    if let Some(row) = first_wrong(asked, listing, rows, end.at) {
        return Checked {
            number: 0,
            verdict: Checked::WRONG,
            row,
            missing: none,
        };
    }
    let (verdict, missing) = match end.missing {
        Some(row) => (Checked::MISSING, row),
        None => (Checked::ACCEPTED, none),
    };
    Checked {
        number: 0,
        verdict,
        row: 0,
        missing,
    }
}

// Checks whether the words are the complete listing of the query, rows by variable number, ascending as read in the query's order; `count` is how many rows they are where the
// query has no variables, and is not looked at otherwise. Refuses by 8, 9, 10, 11, 15, 16, 6 and 17 in sequence, as the join does.
pub fn check_listing(
    pool: &[u64],
    tables: Tables,
    query: Query,
    listing: &[u64],
    count: usize,
) -> Checked
    ensures { Checks pool.now tables query listing.now count result }
{
    if let Err(refused) = check(pool, tables, query, listing.len()) {
        return Checked {
            number: refused.number(),
            verdict: Checked::UNCHECKED,
            row: 0,
            missing: [0u64; Query::MAX_VARIABLES],
        };
    }
    let rows = how_many(query.n, listing.len(), count);
    let asked = Asked {
        pool,
        tables: &tables,
        query: &query,
    };
    verdict(asked, listing, rows)
}
