// A plain join beside the leapfrog triejoin, for a reader who has never seen a trie join: no leapfrog, no plan, no cursor.
//
// Why it is right. A row of the answer gives each variable a word so that each atom's part of it is one of the atom's rows. `search` gives the variables of the query's order
// their words one by one. The words to try for a variable are the keys of one atom, the first that holds it: those that follow, in its rows, the words that its earlier
// variables already have. Any other word would leave that atom without a row, so none is missed. An atom whose last variable has just got a word is complete: its part must be
// one of its rows. The atom that gave the key needs no test, since its keys are those that follow in its rows; the atoms before it do not hold the variable; those behind it
// are tested. At the end each atom's part is one of its rows, so what is written is an answer. Keys are tried from the least on, so the rows come out ascending as read in the
// query's order, each once. Each call of `search` has one variable fewer left, so it ends.
//
// The public call is `plain_join`; its answer and every word of the window are those that crates/join_query's `outcome` gives, for any pool, tables, query and window, and so
// those of the leapfrog triejoin (crates/engines). The keys and the tests are crates/plain_atoms and crates/plain_keys.
#![tactic(auto)]

ghost use Rattle.std.specs.Prelude.{◌≤◌, ◌-◌, drop};
ghost use Rattle.query.specs.Window.{emits};
ghost use Rattle.join_query.specs.Query.{order_of, atoms_of};
ghost use Rattle.join_window.specs.Window.{progress, Open, Wrote};
ghost use Rattle.plain.specs.Plain.{plainly};
ghost use Rattle.plain_join.specs.Outcome.{PlainJoins};

use join_checks::check;
use join_query::{Query, Tables};
use join_window::Window;
use plain_atoms::{Asked, all_hold, holder};
use plain_keys::{Row, next_key};
use refusal::Refusal;

// Writes the rows that complete `found` by words for the last `left` variables of the order, behind those that the window holds, until it is full.
fn search(asked: Asked, left: usize, mut found: Row, window: &mut Window)
    requires left { left ≤ asked.query.now.n }
    requires ready { Open asked.query.now.n window.old }
    ensures { let q = asked.entry.query.now in Wrote window.old window.new (emits q.n (progress window.old) (plainly q.n (drop (q.n - left) (order_of q)) (atoms_of asked.entry.pool.now asked.entry.tables.now q) found)) }
{
    if left == 0 {
        return window.emit(&found);
    }
    let v = asked.query.order[asked.query.n - left];
    let (first, c) = holder(asked.query, v);
    let a = asked.query.atoms[first];
    found[v] = 0; // so that the least key of all is tried first
    let mut next = next_key(asked.pool, asked.tables, a, found, c, false);
    while let Some(key) = next {
        found[v] = key;
        if all_hold(asked, found, v, first + 1) {
            search(asked, left - 1, found, window);
            if window.full {
                return;
            }
        }
        next = next_key(asked.pool, asked.tables, a, found, c, true);
    }
}

// C's struct, so a number stands where Rust has a Result.
#[repr(C)]
#[derive(Clone, Copy)]
pub struct PlainJoined {
    pub number: u64,
    pub rows: usize,
}

// Joins the tables that the query's atoms name, and writes the rows into the window, by variable number, ascending as read in the query's order. Refuses by
// 8, 9, 10, 11, 15, 16, 6 and 17 in sequence; 12 says that more rows exist than fit the window, which then holds the first that do.
pub fn plain_join(pool: &[u64], tables: Tables, query: Query, window: &mut [u64]) -> PlainJoined
    ensures { PlainJoins pool.now tables query window.old result window.new }
{
    if let Err(refused) = check(pool, tables, query, window.len()) {
        let number = refused.number();
        return PlainJoined { number, rows: 0 };
    }
    let asked = Asked {
        pool,
        tables: &tables,
        query: &query,
    };
    let mut out = Window::new(window, query.n);
    search(asked, query.n, [0; Query::MAX_VARIABLES], &mut out);
    let rows = out.rows;
    let number = if out.full { Refusal::Full.number() } else { 0 };
    PlainJoined { number, rows }
}
