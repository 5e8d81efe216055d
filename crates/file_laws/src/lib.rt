#![tactic(auto)]

// What reading and writing a table file mean, of their contracts: each number exactly when, what is left, kept or untouched, and what the two do one after the other. Laws alone, no code.
