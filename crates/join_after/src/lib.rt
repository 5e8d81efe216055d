// A join that starts, or goes on after a given row: a window at a time. The public call is `join_after`. Its answer and every word of the window are those that
// crates/rows_after gives (specs/After.antt, `JoinsAfter`), for any pool, tables, query, row and window, under each strategy: nothing is asked of them.
//
// By seeking, not by skipping: it goes down to the given row's place (crates/descent_after), so a call costs the seeks of one path and then its rows.
#![tactic(auto)]

ghost use Rattle.std.specs.Prelude.{◌≡◌, length};
ghost use Rattle.join_query.specs.Query.{Accepted};
ghost use Rattle.join_window.specs.Window.{progress, Begun, Kept};
ghost use Rattle.rows_after.specs.After.{JoinsAfter};
ghost use Rattle.join_after.specs.From.{listed_from};

use descent::descend;
use descent_after::descend_after;
use join_checks::check;
use join_openings::Join;
use join_plan::{DepthPlan, make_ends, make_plan};
use join_query::{Query, Tables};
use join_window::Window;
use last_row::last_row;
use refusal::Refusal;
use rows_after::JoinedAfter;
use seek::SeekStrategy;
use stretches::{Leap, RUN_ENDS};

// Writes the rows that a call lists, of a query that passed the checks, into a window that has none: those after the given row, or all of them where none is given.
fn list_after(
    strategy: SeekStrategy,
    pool: &[u64],
    tables: Tables,
    query: Query,
    after: Option<[u64; Query::MAX_VARIABLES]>,
    window: &mut Window,
)
    requires accepted { Accepted pool.now tables query (length window.old.words.now) }
    requires begun { Begun query.n window.old }
    ensures kept { Kept window.old window.new }
    ensures listed { progress window.new ≡ listed_from pool.now tables query after window.old.words.now }
{
    let mut plan = [DepthPlan::empty(); Query::MAX_VARIABLES];
    make_plan(&mut plan, tables, query);
    let mut ends = [0usize; RUN_ENDS];
    make_ends(&mut ends, tables, query);
    let leap = Leap {
        pool,
        ends: &ends,
        strategy,
    };
    let join = Join {
        leap,
        plan: &plan,
        n: query.n,
    };
    let at = [0usize; Query::MAX_ATOMS];
    let row = [0u64; Query::MAX_VARIABLES];
    if let Some(given) = after {
        return descend_after(&join, 0, at, at, row, given, window);
    }
    descend(&join, window, 0, at, at, row, 0);
}

// Joins as `join` does, and writes the rows that come strictly after the given one as read in the query's order; where it does not go on, it starts, and writes
// them from the first. The given row need not be an answer, and its words past n do not count. `last` is the last row written, or the given one if none was; at
// a start without rows, and in refusals but 12, zeros. Refuses as `join` does; 12 says that more rows remain than fit the window. The flag stands beside the row
// because C's ducatbriar_join_after has it so.
pub fn join_after(
    strategy: SeekStrategy,
    pool: &[u64],
    tables: Tables,
    query: Query,
    goes_on: bool,
    after: [u64; Query::MAX_VARIABLES],
    window: &mut [u64],
) -> JoinedAfter
    ensures { JoinsAfter pool.now tables query goes_on after window.old result window.new }
{
    if let Err(refused) = check(pool, tables, query, window.len()) {
        return JoinedAfter {
            number: refused.number(),
            rows: 0,
            last: [0u64; Query::MAX_VARIABLES],
        };
    }
    let given = if goes_on { Some(after) } else { None };
    let mut listed = Window::new(window, query.n);
    list_after(strategy, pool, tables, query, given, &mut listed);
    let rows = listed.rows;
    JoinedAfter {
        number: if listed.full {
            Refusal::Full.number()
        } else {
            0
        },
        rows,
        last: last_row(window, query.n, rows, given),
    }
}
