#![tactic(auto)]

// What a rebuild with permuted columns is proved to do, said once more in document 02's words, from its contract alone.
