// A join that starts, or goes on after a given row: its answer and what it must be, without an engine that finds the rows.
//
// What a call answers and writes is `JoinsAfter` (specs/After.antt), a function of pool, tables, query, the given row and the window alone. An engine that goes down with a
// bound, and lists nothing from the front, writes the same rows (specs/Bounded.antt, proofs/Bounded.antt).
#![tactic(auto)]

use join_query::Query;

// The number, how many rows were written, and the row to go on after: `Query::MAX_VARIABLES` words, of which those past the query's n are zero. C's `ducatbriar_joined_after`, so 0 stands for no refusal.
#[repr(C)]
#[derive(Clone, Copy)]
pub struct JoinedAfter {
    pub number: u64,
    pub rows: usize,
    pub last: [u64; Query::MAX_VARIABLES],
}
