#![tactic(auto)]

// Theory over the join's contract, without code: a join over a table laid over another is the join over one built afresh of the rows that count.
