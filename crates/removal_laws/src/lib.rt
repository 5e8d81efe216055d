// What a removal means, of its contract: each number exactly when, what it leaves, what is kept or untouched, and what it is to an insert. Laws alone, no code.
#![tactic(auto)]
