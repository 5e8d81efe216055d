#![tactic(auto)]

// What `join` is proved to do, said once more in the minutes' words: demand 3, each number exactly when documents 01 and 02 say, the same under all strategies, the one
// empty row. Laws of its contract alone, no code.
