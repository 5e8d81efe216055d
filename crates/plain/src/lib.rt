// The rows that a plain engine finds: it tries the keys of one atom for one variable, and tests each atom that has become complete. Definitions and laws only, no code.

#![tactic(auto)]
