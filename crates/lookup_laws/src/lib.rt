#![tactic(auto)]

// What a lookup in a table laid over another means, of its contract: the keys under it of the rows that count, whose pool they lie in, and each number exactly when. Laws alone, no code.
