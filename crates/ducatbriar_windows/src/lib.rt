// The join a window at a time, for C and for Rust to link: apart from the others, so that they are compiled without it (docs/DECISIONS.md, 73).
// What goes for every exported call is said in crates/ducatbriar_tables.
#![tactic(auto)]

ghost use Rattle.rows_after.specs.After.{JoinsAfter};

use join_query::{Query, Tables};
use rows_after::JoinedAfter;
use strategy_word::strategy_of;

// A row by variable number: C passes no array by value.
#[repr(C)]
#[derive(Clone, Copy)]
pub struct Row {
    pub words: [u64; Query::MAX_VARIABLES],
}

#[unsafe(no_mangle)]
pub extern "C" fn ducatbriar_join_after(
    strategy: u64,
    pool: &[u64],
    tables: Tables,
    query: Query,
    goes_on: bool,
    after: Row,
    window: &mut [u64],
) -> JoinedAfter
    ensures { JoinsAfter pool.now tables query goes_on after.words window.old result window.new }
{
    let words = after.words;
    join_after::join_after(
        strategy_of(strategy),
        pool,
        tables,
        query,
        goes_on,
        words,
        window,
    )
}
