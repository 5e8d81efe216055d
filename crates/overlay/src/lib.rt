// A school's rows laid over a maker's: the rows that count, and the runs of keys that they have. Definitions and laws only, no code.

#![tactic(auto)]
