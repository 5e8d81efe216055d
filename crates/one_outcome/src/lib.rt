// What it is for a contract to fix a call's outcome, which the crates for C and Rust to link prove of each of their calls. Definitions only, no code.

#![tactic(auto)]
