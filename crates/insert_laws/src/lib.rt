// What an insert means, of its contract: each number exactly when, what it leaves, and what is kept or untouched. Laws alone, no code.
#![tactic(auto)]
