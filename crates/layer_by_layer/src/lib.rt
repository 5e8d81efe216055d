// Theory of a table whose layers are written anew one after another, from the top: what an insert and a removal share. There is no code.
#![tactic(auto)]
