// The two engines of a join, the leapfrog triejoin and the plain one, side by side: they agree on every input. Laws of their contracts alone, no code.
#![tactic(auto)]
