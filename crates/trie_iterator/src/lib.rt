#![tactic(auto)]

// The trie iterator of the paper over a relation, and that a cursor on an undamaged table is one: definitions and laws alone, no code.
