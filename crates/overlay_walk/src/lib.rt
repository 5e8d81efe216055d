#![tactic(auto)]

// That a pair of cursors over a table laid over another is the paper's trie iterator over the rows that count, and which pairs are its states. Laws alone, no code.
