// The leapfrog triejoin of tables in the pool: the port of kermit-algos/src/sorted/leapfrog_triejoin.rs of the Rust, Algorithms 5 and 6 of Veldhuizen 2014.
//
// The public call is `join`. Its answer and every word of the window are those that specs/Outcome.antt gives, for any pool, tables, query and window,
// under each strategy: nothing is asked of them. The rows are exactly those that the query means (crates/demand_3). The query's types and
// its outcome are crates/join_query's, its checks crates/join_checks's, its descent crates/descent's. The Rust's emit closure is the window, its trie
// iterators are places kept by columns, and what would panic there is refused.
#![tactic(auto)]

ghost use Rattle.leapfrog_triejoin.specs.Outcome.{Joins};

use descent::descend;
use join_checks::check;
use join_openings::Join;
use join_plan::{DepthPlan, make_ends, make_plan};
use join_query::{Query, Tables};
use join_window::Window;
use refusal::Refusal;
use seek::SeekStrategy;
use stretches::{Leap, RUN_ENDS};

// C's `ducatbriar_joined`: `number` is 0 where nothing refuses, and the rows count also beside 12.
#[repr(C)]
#[derive(Clone, Copy)]
pub struct Joined {
    pub number: u64,
    pub rows: usize,
    pub seeks: u64,
}

// Joins the tables that the query's atoms name, and writes the rows into the window, by variable number, ascending as read in the query's order. Refuses by
// 8, 9, 10, 11, 15, 16, 6 and 17 in sequence; 12 says that more rows exist than fit the window, which then holds the first that do. The seeks are those of the leapfrogs,
// on 12 up to finding the first row that does not fit.
pub fn join(
    strategy: SeekStrategy,
    pool: &[u64],
    tables: Tables,
    query: Query,
    window: &mut [u64],
) -> Joined
    ensures { Joins pool.now tables query window.old result window.new }
{
    if let Err(refused) = check(pool, tables, query, window.len()) {
        return Joined {
            number: refused.number(),
            rows: 0,
            seeks: 0,
        };
    }
    let mut plan = [DepthPlan::empty(); Query::MAX_VARIABLES];
    make_plan(&mut plan, tables, query);
    let mut ends = [0usize; RUN_ENDS];
    make_ends(&mut ends, tables, query);
    let leap = Leap {
        pool,
        ends: &ends,
        strategy,
    };
    let join = Join {
        leap,
        plan: &plan,
        n: query.n,
    };
    let at = [0usize; Query::MAX_ATOMS];
    let row = [0u64; Query::MAX_VARIABLES];
    let mut written = Window::new(window, query.n);
    let seeks = descend(&join, &mut written, 0, at, at, row, 0);
    Joined {
        number: if written.full {
            Refusal::Full.number()
        } else {
            0
        },
        rows: written.rows,
        seeks,
    }
}
