// The meaning of a join over relations: answers, the listing of a query, its window. Definitions and laws, and of code only a limit and the check of an order. No port: it is written
// from demand 3 of the minutes and document 01.
//
// It promises that a query which passes the checks has one listing, the one computed by descent (proofs/Unique.antt, proofs/Listed.antt), and that to write it
// row by row leaves the window that demand 3 speaks of (proofs/Window.antt).
#![tactic(auto)]

ghost use Rattle.std.specs.Prelude.{◌≡◌, length};
ghost use Rattle.query.specs.Checks.{permutes};

// How many atoms a query may have, and so how many runs a leapfrog.
pub const MAX_ATOMS: usize = 8;

// Whether the list is a permutation of the numbers below its length: each is one, and none stands before. For an order of variables and for one of columns: both are at most eight long.
pub fn permutes(list: &[usize]) -> bool
    ensures { result ≡ permutes (length list.now) list.now }
{
    for (i, v) in list.iter().enumerate() {
        if list.len() <= *v || list[..i].contains(v) {
            return false;
        }
    }
    true
}
