// Two departments' orders of one query: over tables rebuilt with permuted columns, both joins give the same set of rows. Laws of the calls' contracts alone, no code.
#![tactic(auto)]
