// What a build means, of its contract: each number exactly when, what is left, sorted, kept or untouched, and that the outcome is determined. Laws alone, no code.
#![tactic(auto)]
