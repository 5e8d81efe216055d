#![tactic(auto)]

// What a leapfrog over the first pieces of runs tells of the same leapfrog over the whole runs. Definitions and laws only, no code.
