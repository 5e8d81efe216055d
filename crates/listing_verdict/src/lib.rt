// What a check of a recorded listing answers, and the verdict that it must come to: definitions and laws, no code that looks at a listing.
//
// The verdict is one computed definition over the listed rows and the query's listing (specs/Verdict.antt), and the call's contract is `Checks` (specs/Checked.antt): every
// field of the answer, for any pool, tables, query, words and count.
#![tactic(auto)]

use join_query::Query;

// The number of the first of the join's checks that the query fails, or 0; the verdict; the row that is wrong, where that is the verdict; the row that is missing, by
// variable number, where that is. All else is zeros. C's struct, so numbers stand where Rust has a Result and an enum.
#[repr(C)]
#[derive(Clone, Copy)]
pub struct Checked {
    pub number: u64,
    pub verdict: u64,
    pub row: usize,
    pub missing: [u64; Query::MAX_VARIABLES],
}

// Numbers and no enum: `verdict` is a word of the answer that `ducatbriar_check_listing` hands to C, whose header names the same four.
impl Checked {
    // A refused query: nothing was checked, so that a refusal never reads as accepted.
    pub const UNCHECKED: u64 = 0;

    pub const ACCEPTED: u64 = 1;

    pub const WRONG: u64 = 2;

    pub const MISSING: u64 = 3;
}
