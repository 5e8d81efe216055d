// One depth of a join whose query passed the checks: its opening, with the atoms that take part (crates/join_openings), and the step to the next key, by the
// leapfrogs of crates/stretches. Internal: every function asks something of its caller by a `requires`.
//
// A depth gives a word to one variable of the query's order. Of each atom the join keeps a place in the pool, an end, which of its tables they are in, and how much of the other's first keys
// is left; all else comes from the plan of crates/join_plan. At the first column of a table that is laid over another an atom goes through both tables' first keys, and
// which table the key that it stands on is from decides where its deeper columns are read.
#![tactic(auto)]

pub mod depth;
