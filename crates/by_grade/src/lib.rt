// That a listing whose first variable holds grades ascends by grade: a definition and a law over what a join means, no code.

#![tactic(auto)]
